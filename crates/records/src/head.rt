// Where the words of a record's head stand: the tick's number comes first.

// Its steps.
pub const STEPS: usize = 1;

// How many units began in the late pass, and in the main pass.
pub const LATE: usize = 2;

pub const MAIN: usize = 3;

// How many units it carries.
pub const CARRIED: usize = 4;

// Its stop, or 0.
pub const STOP: usize = 5;

// How many of its narrowings changed their number.
pub const CHANGED: usize = 6;

// How many words there are.
pub const HEAD: usize = 7;
