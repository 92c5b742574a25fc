// The record that a tick writes to the log.
#![tactic(auto)]

ghost use Rattle.std.specs.Prelude.{◌≡◌, ℕ, List, ◌+◌, ◌*◌, ◌<◌, ◌≤◌, eqb, length, get_or};
ghost use Rattle.words.specs.Words.{words, Filled};
ghost use Rattle.words.specs.Slices.{HasWords};
ghost use Rattle.model.specs.Base.{if◌then◌otherwise◌};
// The definitions `values` and `units` are named for what they hold, beside the slices of their names.
ghost use Rattle.model.specs.Value.{kind_of, content_of};
ghost use Rattle.model.specs.Record.{head_size, gates_and_forms, kinds_and_contents};
ghost use Rattle.links.specs.Lent.{net_of, Room};
ghost use Rattle.links.specs.Links.{most_outputs};
ghost use Rattle.wires.specs.Held.{held};
ghost use Rattle.wires.specs.View.{out_tags_at, out_contents_at};
ghost use Rattle.logging.specs.Log.{fits, written_as, Writes};
ghost use Rattle.logging.specs.Rows.{head_row, entries_in, outs_in, Says};
ghost use Rattle.logging.specs.Lent.{record_in};

use links::Links;
use records::head::HEAD;
use units::begun::begun;
use units::entries::{form_of, gate_of};
use units::layout::{BEGUN_COUNT, CARRIED_COUNT};
use units::raising::carried;
use wires::held::{content_held, kind_held};
use wires::layout::{OUT_CONTENTS, OUT_TAGS};
use words::{get, put};

// What a record says of its tick beside its units and outputs: its number, its steps, how many of its units began in the late pass, its stop, or 0, and how many of
// its narrowings changed their number.
#[derive(Clone, Copy)]
pub struct Head {
    pub tick: u64,
    pub steps: u64,
    pub late: usize,
    pub stop: u64,
    pub changed: u64,
}

// Where the entries of the units begun and of those carried begin in the area `units`, in words: behind their counts.
const BEGUN: usize = BEGUN_COUNT + 1;

const CARRIED: usize = CARRIED_COUNT + 1;

// The head becomes the words of the log from word p on, where n units have begun and k are carried.
fn write_head(log: &mut [u8], p: usize, head: Head, n: usize, k: usize)
    requires { HasWords log.old p head_size }
    ensures { Filled log.old log.new p (head_row head n k) }
{
    let main = n.saturating_sub(head.late);
    put(log, p, head.tick);
    put(log, p + 1, head.steps);
    put(log, p + 2, (n - main) as u64);
    put(log, p + 3, main as u64);
    put(log, p + 4, k as u64);
    put(log, p + 5, head.stop);
    put(log, p + 6, head.changed);
}

// The words of the log from word p on become what `word` says of each number below n.
fn write_row<F: Fn(usize) -> u64>(log: &mut [u8], p: usize, n: usize, word: F)
    requires has_words { HasWords log.old p n }
    requires callable { (i : ℕ) → i < n → F.pre word i }
    ensures { (row : List ℕ) → Says (F.post word) n row → Filled log.old log.new p row }
{
    for i in 0..n {
        put(log, p + i, word(i));
    }
}

// The gates and then the forms of the n units whose entries stand from word `first` on become the words of the log from word p on.
fn write_units(units: &[u8], first: usize, n: usize, log: &mut [u8], p: usize)
    requires { HasWords units.now first n × HasWords log.old p (2 * n) }
    ensures { Filled log.old log.new p (gates_and_forms (entries_in first n units.now)) }
{
    write_row(log, p, n, |i| gate_of(get(units, first + i)) as u64);
    write_row(log, p + n, n, |i| form_of(get(units, first + i)) as u64);
}

// How many outputs the record of a tick with this stop shows: all, or none where there is a stop.
fn outputs_shown(links: &Links, stop: u64) -> usize
    ensures { (result ≡ (if eqb stop 0 then length (net_of links.now).outputs otherwise 0)) × (result ≤ most_outputs) }
{
    if stop == 0 { links.outputs() } else { 0 }
}

// The kind of what output o shows.
fn kind_at(values: &[u8], o: usize) -> u64
    requires { Room values.now × (o < most_outputs) }
    ensures { result ≡ kind_of (held (get_or (words values.now) (out_tags_at + o) 0) (get_or (words values.now) (out_contents_at + o) 0)) }
{
    kind_held(get(values, OUT_TAGS + o))
}

// The content of what output o shows.
fn content_at(values: &[u8], o: usize) -> u64
    requires { Room values.now × (o < most_outputs) }
    ensures { result ≡ content_of (held (get_or (words values.now) (out_tags_at + o) 0) (get_or (words values.now) (out_contents_at + o) 0)) }
{
    content_held(get(values, OUT_TAGS + o), get(values, OUT_CONTENTS + o))
}

// The kinds and then the contents of the first n outputs become the words from word p on.
fn write_outputs(values: &[u8], log: &mut [u8], p: usize, n: usize)
    requires { Room values.now × (n ≤ most_outputs) × HasWords log.old p (2 * n) }
    ensures { Filled log.old log.new p (kinds_and_contents (outs_in n values.now)) }
{
    write_row(log, p, n, |o| kind_at(values, o));
    write_row(log, p + n, n, |o| content_at(values, o));
}

// The record of a tick becomes the words of the log from word `at` on, if it fits there: how many words it has. Else nothing is written.
pub fn write_record(
    links: &Links,
    values: &[u8],
    units: &[u8],
    log: &mut [u8],
    at: usize,
    head: Head,
) -> Option<usize>
    requires { Room values.now × Room units.now × (at * 8 ≤ length log.old) }
    ensures value { result ≡ written_as (fits log.old at (record_in links.now values.now units.now head)) (record_in links.now values.now units.now head) }
    ensures writes { Writes log.old log.new at (record_in links.now values.now units.now head) }
{
    let n = begun(units);
    let k = carried(units);
    let o = outputs_shown(links, head.stop);
    let size = HEAD + 2 * n + 2 * k + 2 * o;
    if log.len() / 8 < at + size {
        return None;
    }
    write_head(log, at, head, n, k);
    write_units(units, BEGUN, n, log, at + HEAD);
    write_units(units, CARRIED, k, log, at + HEAD + 2 * n);
    write_outputs(values, log, at + HEAD + 2 * n + 2 * k, o);
    Some(size)
}
