// Stays: a kind is a number, since `links` promises the one that its array holds, of any array; an enum has no value for the others.
// The numbers of the 31 kinds.
pub const SELECT: u64 = 1;

pub const REROUTE: u64 = 2;

pub const DELTA_TIME: u64 = 3;

pub const SERVER_UPTIME: u64 = 4;

pub const VAR: u64 = 5;

pub const CHANGE_DETECTOR: u64 = 6;

pub const EDGE: u64 = 7;

pub const CHANGE: u64 = 8;

pub const EDGE_EXEC: u64 = 9;

pub const BUFFER_TICKS: u64 = 10;

pub const BUFFER_TICKS_EXEC: u64 = 11;

pub const BUFFER_SECONDS: u64 = 12;

pub const BUFFER_SECONDS_EXEC: u64 = 13;

pub const CLOCK: u64 = 14;

pub const STOPWATCH: u64 = 15;

pub const QUEUE_IN_TICKS: u64 = 16;

pub const QUEUE_IN_SECONDS: u64 = 17;

pub const VAR_GET: u64 = 18;

pub const VAR_SET: u64 = 19;

pub const BRANCH: u64 = 20;

pub const UNION: u64 = 21;

pub const TOGGLE: u64 = 22;

pub const CYCLE: u64 = 23;

pub const SEND_EVENT: u64 = 24;

pub const SEND_EVENT_GLOBAL: u64 = 25;

pub const EVENT_CUSTOM: u64 = 26;

pub const EVENT_CUSTOM_GLOBAL: u64 = 27;

pub const WORLD_EVENT: u64 = 28;

pub const LOOP: u64 = 29;

pub const LOOP_ENTRY: u64 = 30;

pub const BREAK: u64 = 31;
