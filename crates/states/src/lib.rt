// The small states of the gates in their slots of the lent area `delays`: read, moved on and stored; and the count of narrowings, beside them. The records of Queues are in the crate `queues`.
#![tactic(auto)]

pub mod counting;
pub mod slots;
