// Where the tables begin, in words; specs/View.antt says what they hold.

use links::layout::{MOST_GATES, MOST_INPUTS, MOST_OUTPUTS};

// How many Vars a unit writes at the most.
pub const MOST_WRITTEN: usize = MOST_GATES;

// The places of the check queue.
pub const PLACES: usize = 1024;

// Tables of one word each.
pub const TICK: usize = 0;

pub const DT: usize = TICK + 1;

pub const UPTIME: usize = DT + 1;

pub const DIRTY: usize = UPTIME + 1;

pub const UNIONS_PASSED: usize = DIRTY + 1;

pub const HEAD: usize = UNIONS_PASSED + 1;

pub const COUNT: usize = HEAD + 1;

pub const WRITTEN_COUNT: usize = COUNT + 1;

// Tables of several words.
pub const OUT_TAGS: usize = WRITTEN_COUNT + 1;

pub const OUT_CONTENTS: usize = OUT_TAGS + MOST_OUTPUTS;

pub const QUEUED: usize = OUT_CONTENTS + MOST_OUTPUTS;

pub const SLOTS: usize = QUEUED + MOST_INPUTS;

pub const LAST_KINDS: usize = SLOTS + PLACES;

pub const LAST_CONTENTS: usize = LAST_KINDS + MOST_INPUTS;

pub const TICKS: usize = LAST_CONTENTS + MOST_INPUTS;

pub const UP: usize = TICKS + MOST_OUTPUTS;

pub const WRITTEN: usize = UP + MOST_OUTPUTS / 64;

pub const STACK: usize = WRITTEN + MOST_WRITTEN;

pub const LATE_CHECKS: usize = STACK + MOST_GATES + 1;

// Tables of one word each.
pub const WRITTEN_OUTSIDE: usize = LATE_CHECKS + MOST_INPUTS;

pub const BREAKING: usize = WRITTEN_OUTSIDE + 1;

pub const RUNS_LEFT: usize = BREAKING + 1;

pub const MARKING_LATE: usize = RUNS_LEFT + 1;

// How many words the tables have.
pub const TABLES: usize = MARKING_LATE + 1;
