// A value on a wire. An Int and a Float are their 64 bits.
#![tactic(auto)]

#[derive(Clone, Copy)]
pub enum Value {
    Nothing,
    Int(u64),
    Float(u64),
    Bool(bool),
}
