// The small states of buffers, Clocks and Stopwatches, by value: each is moved on by methods that hand back the state.
#![tactic(auto)]

pub mod buffer;
pub mod clock;
pub mod countdown;
pub mod fires;
pub mod stopwatch;
