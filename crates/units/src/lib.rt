// The lists of a tick, in the lent area `units`: calls, what waits, the units begun, the events sent.
#![tactic(auto)]

pub mod begun;
pub mod calls;
pub mod counts;
pub mod entries;
pub mod events;
pub mod layout;
pub mod raising;

// Where what is raised goes: to late, to pending, or, in the main pass, to carried or pending by the rank of the unit begun last.
#[derive(Clone, Copy)]
pub enum Place {
    Late,
    Pending,
    After(u64),
}
