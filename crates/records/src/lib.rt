// Whole logs, what every reader of a log stands on: a definition and its theorems, in specs/ and proofs/. Crate `whole` has the test of a log, `walk` the walk over its
// records. Here are the numbers that those who write records and those who read them share.
#![tactic(auto)]

pub mod forms;
pub mod head;

// The ticks of a script, and so the records of a log, at the most.
pub const MOST_TICKS: u64 = 100000;

// The steps of a tick at the most.
pub const MOST_STEPS: u64 = 50_000_000;

// The units that may begin in a tick.
pub const MOST_UNITS: usize = 1024;

// Those that may be pending, late or carried, in each of these lists.
pub const MOST_WAITING: usize = 256;

// The last count of narrowings, the last word that is no negative number.
pub const MOST_CHANGED: u64 = 0x7fff_ffff_ffff_ffff;
