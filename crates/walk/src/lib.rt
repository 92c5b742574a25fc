// The walk over the records of a log: how many words a record has, whether its tick was stopped, and where what its outputs show begins.
#![tactic(auto)]

ghost use Rattle.words.specs.Words.{words};
ghost use Rattle.std.specs.Prelude.{◌≡◌, ◌+◌, ◌*◌, ◌^◌, ◌≤◌, ◌<◌, min, eqb, drop};
ghost use Rattle.model.specs.Record.{head_size, stop_in, shown_at, record_size};
ghost use Rattle.links.specs.Links.{most_outputs};
ghost use Rattle.walk.specs.Walk.{Stands};

use records::head::{CARRIED, HEAD, LATE, MAIN, STOP};
use words::counting::least;
use words::{get, read};

// How many words the record has that begins at word `at` of a log, behind which `left` words are left, and not more than these.
pub fn record_size(log: &[u8], at: usize, left: usize, outputs: usize) -> usize
    requires { (at < 2 ^ 61) × (left < 2 ^ 61) × (outputs ≤ most_outputs) }
    ensures value { result ≡ min (record_size outputs (drop at (words log.now))) left }
    ensures lower_bound { (min head_size left ≤ result) × (result ≤ left) }
{
    let late = least(read(log, at + LATE), left);
    let main = least(read(log, at + MAIN), left);
    let carried = least(read(log, at + CARRIED), left);
    let stop = read(log, at + STOP);
    let units = HEAD + 2 * (late + main) + 2 * carried;
    if stop == 0 {
        (units + 2 * outputs).min(left)
    } else {
        units.min(left)
    }
}

// Whether the record at word `at` is of a tick that no stop ended.
pub fn unstopped(log: &[u8], at: usize) -> bool
    requires { at < 2 ^ 61 }
    ensures { result ≡ eqb (stop_in (drop at (words log.now))) 0 }
{
    read(log, at + STOP) == 0
}

// At which word the outputs of the record at word `at` begin.
pub fn shown_at(log: &[u8], at: usize) -> usize
    requires { Stands log.now at }
    ensures { result ≡ at + shown_at (drop at (words log.now)) }
{
    let begun = get(log, at + LATE) + get(log, at + MAIN);
    let carried = get(log, at + CARRIED);
    at + HEAD + 2 * (begun as usize) + 2 * (carried as usize)
}
