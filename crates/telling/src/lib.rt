// What a host is told of an answer, in words that it lends.
#![tactic(auto)]

ghost use Rattle.std.specs.Prelude.{◌≡◌, [], ◌∷◌, ◌≤◌};
ghost use Rattle.circuit.specs.Numbers.{numbered};
ghost use Rattle.telling.specs.Numbers.{number_of, ticks_of, bytes_of, put_from, end_of, all_of};

use circuit::refusals::Refusal;
use run::Played;
use words::told::put_at;

// An answer with the number in the refusal's place.
pub fn numbered(answer: Result<Played, Refusal>) -> Result<Played, u64>
    ensures { result ≡ numbered answer }
{
    match answer {
        Ok(played) => Ok(played),
        Err(refusal) => Err(refusal.number()),
    }
}

// The number of an answer.
pub fn number_of(answer: Result<Played, u64>) -> u64
    ensures { result ≡ number_of answer }
{
    match answer {
        Ok(played) => played.stop,
        Err(number) => number,
    }
}

// The ticks done.
fn ticks_of(answer: Result<Played, u64>) -> u64
    ensures { result ≡ ticks_of answer }
{
    match answer {
        Ok(played) => played.ticks,
        Err(_) => 0,
    }
}

// The bytes of the log that hold records.
fn bytes_of(answer: Result<Played, u64>) -> u64
    ensures { result ≡ bytes_of answer }
{
    match answer {
        Ok(played) => played.bytes,
        Err(_) => 0,
    }
}

// Two words from word `at` on, as far as there is room: the ticks done and the bytes of the log that hold records.
pub fn tell_end(told: &mut [u64], at: usize, answer: Result<Played, u64>)
    requires { at ≤ 48 }
    ensures { told.new ≡ put_from at (end_of answer) told.old }
{
    put_at(told, at, ticks_of(answer));
    put_at(told, at + 1, bytes_of(answer));
}

// Three words: the number, and these two.
pub fn tell(told: &mut [u64], at: usize, answer: Result<Played, u64>)
    requires { at ≤ 45 }
    ensures { told.new ≡ put_from at (all_of answer) told.old }
{
    put_at(told, at, number_of(answer));
    tell_end(told, at + 1, answer);
}
