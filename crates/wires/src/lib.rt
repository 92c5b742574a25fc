// The wires of the machine, in the lent area `values`: reading, refreshing pure gates, marking what a change reaches, and what is remembered of wires.
#![tactic(auto)]

mod bits;
pub mod bodies;
pub mod checks;
pub mod held;
pub mod layout;
pub mod marking;
pub mod pulses;
pub mod reading;
pub mod refreshing;
mod stale;
pub mod start;
pub mod ticks;
pub mod written;
