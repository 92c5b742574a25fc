// The head of a record: its words, and whether they are those of a tick.
ghost use Rattle.std.specs.Prelude.{◌≡◌, ◌+◌, ◌<◌, ◌≤◌, leb, length};
ghost use Rattle.words.specs.Slices.{HasWords};
ghost use Rattle.schedule.specs.Schedule.{most_units, most_waiting};
ghost use Rattle.model.specs.Circuit.{word_at};
ghost use Rattle.model.specs.Record.{head_size, begun_count, carried_count, stop_in, shown_count};
ghost use Rattle.links.specs.Links.{most_outputs};
ghost use Rattle.links.specs.Lent.{net_of};
ghost use Rattle.records.specs.Whole.{good_steps, good_stop, good_head};
ghost use Rattle.walk.specs.Walk.{Stands};
ghost use Rattle.whole.specs.Lent.{behind};

use links::Links;
use records::head::{CARRIED, CHANGED, LATE, MAIN, STEPS, STOP};
use records::{MOST_CHANGED, MOST_STEPS, MOST_UNITS, MOST_WAITING};
use stops::{LIST_FULL, RUNAWAY};
use words::get;

// ---- its words

// Word i of the record at word `at`.
fn word(log: &[u8], at: usize, i: usize) -> u64
    requires { HasWords log.now at head_size × (i < head_size) }
    ensures { result ≡ word_at (behind log.now at) i }
{
    get(log, at + i)
}

// Its stop.
pub fn stop_in(log: &[u8], at: usize) -> u64
    requires { HasWords log.now at head_size }
    ensures { result ≡ stop_in (behind log.now at) }
{
    word(log, at, STOP)
}

// How many units it says have begun.
pub fn begun_count(log: &[u8], at: usize) -> usize
    requires { Stands log.now at }
    ensures { (result ≡ begun_count (behind log.now at)) × (result ≤ most_units) }
{
    (word(log, at, LATE) + word(log, at, MAIN)) as usize
}

// How many are carried.
pub fn carried_count(log: &[u8], at: usize) -> usize
    requires { Stands log.now at }
    ensures { (result ≡ carried_count (behind log.now at)) × (result ≤ most_waiting) }
{
    word(log, at, CARRIED) as usize
}

// How many outputs it shows: all, or none where there is a stop.
pub fn shown_count(links: &Links, log: &[u8], at: usize) -> usize
    requires { HasWords log.now at head_size }
    ensures { (result ≡ shown_count (length (net_of links.now).outputs) (behind log.now at)) × (result ≤ length (net_of links.now).outputs) × (result ≤ most_outputs) }
{
    if stop_in(log, at) == 0 {
        links.outputs()
    } else {
        0
    }
}

// ---- whether they are good

// Whether a tick with this stop can have made so many steps: one more than the limit only with stop 11.
fn good_steps(steps: u64, stop: u64) -> bool
    ensures { result ≡ good_steps steps stop }
{
    if stop == RUNAWAY {
        return steps <= MOST_STEPS + 1;
    }
    steps <= MOST_STEPS
}

// Whether a record can have this stop, the last one or not.
pub fn good_stop(stop: u64, last: bool) -> bool
    ensures { result ≡ good_stop stop last }
{
    if stop == 0 {
        return true;
    }
    if !last {
        return false;
    }
    stop == RUNAWAY || stop == LIST_FULL
}

// Whether a tick can begin so many units in its two passes; the sum of two words may be no word.
fn few_begun(late: u64, main: u64) -> bool
    ensures { result ≡ leb (late + main) most_units }
{
    let most = MOST_UNITS as u64;
    late <= most && main <= most - late
}

// Whether the head at word `at` is one of this tick.
pub fn good_head(log: &[u8], at: usize, tick: u64) -> bool
    requires { HasWords log.now at head_size }
    ensures { result ≡ good_head tick (behind log.now at) }
{
    if word(log, at, 0) != tick {
        return false;
    }
    if !good_steps(word(log, at, STEPS), stop_in(log, at)) {
        return false;
    }
    if !few_begun(word(log, at, LATE), word(log, at, MAIN)) {
        return false;
    }
    if (MOST_WAITING as u64) < word(log, at, CARRIED) {
        return false;
    }
    word(log, at, CHANGED) <= MOST_CHANGED
}
