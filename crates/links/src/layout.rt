// Where things stand in the array of links, which specs/Links.antt lays out. Each table begins where the one before it ends.

// How many there are at most. No input reads two outputs, so there are no more readers than inputs.
pub const MOST_GATES: usize = 64;

pub const MOST_CONSTANTS: usize = 64;

pub const MOST_INPUTS: usize = 640;

pub const MOST_OUTPUTS: usize = 576;

pub const MOST_CALLS: usize = 256;

// The cells that hold counts, and those that hold words of gates.
pub const GATE_COUNT: usize = 0;

pub const CONSTANT_COUNT: usize = 1;

pub const INPUT_COUNT: usize = 2;

pub const OUTPUT_COUNT: usize = 3;

pub const TIME_SOURCES: usize = 4;

pub const BUFFERS: usize = 5;

pub const CLOCKS: usize = 6;

pub const STOPWATCHES: usize = 7;

pub const RECEIVERS: usize = 8;

// Where the tables begin.
pub const GATES: usize = 16;

pub const SOURCES: usize = GATES + MOST_GATES;

pub const STORED_KINDS: usize = SOURCES + MOST_INPUTS;

pub const STORED_CONTENTS: usize = STORED_KINDS + MOST_INPUTS;

pub const INPUTS: usize = STORED_CONTENTS + MOST_INPUTS;

pub const OUTPUTS: usize = INPUTS + MOST_INPUTS;

pub const ROWS: usize = OUTPUTS + MOST_OUTPUTS;

pub const READERS: usize = ROWS + MOST_OUTPUTS;

pub const CALLS: usize = READERS + MOST_INPUTS;

pub const CONSTANT_KINDS: usize = CALLS + MOST_CALLS;

pub const CONSTANT_CONTENTS: usize = CONSTANT_KINDS + MOST_CONSTANTS;

// The cells in all.
pub const CELLS: usize = CONSTANT_CONTENTS + MOST_CONSTANTS;

// A circuit's word for no source, -1, and the cell that it is written as.
pub const MINUS_ONE: u64 = 0xFFFF_FFFF_FFFF_FFFF;

pub const NO_SOURCE: usize = MINUS_ONE as usize;

// A circuit's word for a gate's rank and body is rank + RANKS × body.
pub const RANKS: usize = 0x1_0000;

// Four numbers to the base DIGIT stand in a cell; the second, third and fourth begin here.
pub const DIGIT: usize = 0x1_0000;

pub const SECOND: usize = DIGIT;

pub const THIRD: usize = SECOND * DIGIT;

pub const FOURTH: usize = THIRD * DIGIT;

// A gate's kind and its body share a digit, and so do its first input and its entry; bodies and entries begin here.
pub const BODY: usize = 0x100;

pub const ENTRY: usize = 0x400;
