// Question 2: is each constant of kind 1 to 3, a Float finite, a Bool 0 or 1?
ghost use Rattle.std.specs.Prelude.{◌≡◌, true, ◌+◌, ◌*◌, ◌≤◌, length};
ghost use Rattle.words.specs.Words.{words};
ghost use Rattle.model.specs.Base.{both};
ghost use Rattle.model.specs.Circuit.{part};
ghost use Rattle.model.specs.Questions.{question_1, question_2, good_constant, yes_all};

use floats::is_finite;
use words::get;

// Whether a constant of this kind may have this content.
pub fn good_constant(kind: u64, content: u64) -> bool
    ensures { result ≡ good_constant kind content }
{
    match kind {
        1 => true,
        2 => is_finite(content),
        3 => content <= 1,
        _ => false,
    }
}

// Whether so many constants are good: their kinds stand from word 4 on, and their contents behind them.
fn good_constants(circuit: &[u8], count: usize) -> bool
    requires { (4 + count + count) * 8 ≤ length circuit.now }
    ensures { result ≡ yes_all (both good_constant (part (words circuit.now) 4 count) (part (words circuit.now) (4 + count) count)) }
{
    for i in 0..count {
        if !good_constant(get(circuit, 4 + i), get(circuit, 4 + count + i)) {
            return false;
        }
    }
    true
}

// Whether all constants of a circuit are good.
pub fn constants(circuit: &[u8]) -> bool
    requires { question_1 circuit.now (words circuit.now) ≡ true }
    ensures { result ≡ question_2 (words circuit.now) }
{
    good_constants(circuit, get(circuit, 1) as usize)
}
