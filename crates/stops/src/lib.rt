// The numbers that a run stops with: document 01's stops.
#![tactic(auto)]

// A tick would make one step more than it may.
pub const RUNAWAY: u64 = 11;

// A list was full, or one more unit would begin than may.
pub const LIST_FULL: u64 = 12;

// A record did not fit the log.
pub const LOG_FULL: u64 = 13;
