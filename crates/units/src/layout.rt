// How the area `units` is laid out: tables of words, one behind the other.
use records::{MOST_UNITS, MOST_WAITING};

// The most calls that the chain stack or the forks may hold.
pub const MOST_CALLS: usize = 256;

// The most delivered events that may wait.
pub const MOST_DELIVERED: usize = 64;

// The most events that a tick may send, one of each gate.
pub const MOST_EVENTS: usize = 64;

// The words of an event's row: eight kinds, eight contents.
pub const ROW: usize = 16;

// ---- in words

// Each list begins with its count. A ring, as the forks and the delivered events are, has a second word before its slots.
pub const STACK_COUNT: usize = 0;

pub const FORKS_COUNT: usize = STACK_COUNT + 1 + MOST_CALLS;

pub const PENDING_COUNT: usize = FORKS_COUNT + 2 + MOST_CALLS;

pub const LATE_COUNT: usize = PENDING_COUNT + 1 + MOST_WAITING;

pub const CARRIED_COUNT: usize = LATE_COUNT + 1 + MOST_WAITING;

pub const DELIVERED_COUNT: usize = CARRIED_COUNT + 1 + MOST_WAITING;

pub const BEGUN_COUNT: usize = DELIVERED_COUNT + 2 + MOST_DELIVERED;

// The word that says which half of the events is the outbox: the first if it is 0.
pub const HALF: usize = BEGUN_COUNT + 1 + MOST_UNITS;

// How many events each half has: two words.
pub const COUNTS: usize = HALF + 1;

pub const FIRST_COUNT: usize = COUNTS;

pub const SECOND_COUNT: usize = COUNTS + 1;

// The senders of both halves, then their rows.
pub const SENDERS: usize = COUNTS + 2;

pub const ROWS: usize = SENDERS + 2 * MOST_EVENTS;

// ---- in bytes

// Where the lists begin. Each ends where the next one begins, and the units begun at `BEGUN_END`.
pub const STACK: usize = STACK_COUNT * 8;

pub const FORKS: usize = FORKS_COUNT * 8;

pub const PENDING: usize = PENDING_COUNT * 8;

pub const LATE: usize = LATE_COUNT * 8;

pub const CARRIED: usize = CARRIED_COUNT * 8;

pub const DELIVERED: usize = DELIVERED_COUNT * 8;

pub const BEGUN: usize = BEGUN_COUNT * 8;

pub const BEGUN_END: usize = HALF * 8;
