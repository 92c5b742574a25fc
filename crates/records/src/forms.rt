// The forms of a unit, as a record lists them: what began it.

// A Fire of its gate.
pub const FIRE: usize = 0;

// A delivered event.
pub const EVENT: usize = 1;

// A stimulus, which brings a constant.
pub const STIMULUS: usize = 2;

// Its gate entered by a pin: this and the pin's number.
pub const BY_PIN: usize = 16;

// An output of its gate fired: this and the output's number.
pub const BY_OUTPUT: usize = 32;

// A form is below this, so that an entry of a list has room for it.
pub const FORMS: usize = 0x1_0000;
