// What is lent before a call.

// The room for words told.
pub const TOLD: usize = 64;

// What every byte holds that is lent; the words for what is told have eight such bytes.
pub const FILLED: u8 = 165;

pub const FILLED_WORD: u64 = 0xa5a5_a5a5_a5a5_a5a5;
