// An entry of a list in one word: a gate, a form, and a number that says what it brings, 16 bits each.
ghost use Rattle.std.specs.Prelude.{◌≡◌};
ghost use Rattle.links.specs.Lent.{Short};
ghost use Rattle.units.specs.View.{gate_of, form_of, brings, entry_of};

// The values of one part.
const PART: u64 = 0x1_0000;

// An entry divided by it has the gate lowest.
const GATE: u64 = PART * PART;

// The entry of a gate, a form, and a number that says what it brings, each by its remainder.
pub fn entry(g: usize, form: usize, k: usize) -> u64
    ensures { result ≡ entry_of g form k }
{
    g as u64 % PART * GATE + form as u64 % PART * PART + k as u64 % PART
}

// The gate of an entry.
pub fn gate_of(x: u64) -> usize
    ensures { (result ≡ gate_of x) × Short result }
{
    (x / GATE % PART) as usize
}

// Its form.
pub fn form_of(x: u64) -> usize
    ensures { (result ≡ form_of x) × Short result }
{
    (x / PART % PART) as usize
}

// The number that says what it brings.
pub fn brings(x: u64) -> usize
    ensures { (result ≡ brings x) × Short result }
{
    (x % PART) as usize
}
