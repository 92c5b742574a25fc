// A whole class in one call: the scripts of a book over one circuit, each with its part of the log.
#![tactic(auto)]

ghost use Rattle.std.specs.Prelude.{◌<◌};
ghost use Rattle.circuit.specs.Numbers.{refused};
ghost use Rattle.run.specs.Call.{Ready};
ghost use Rattle.class.specs.Call.{Right, call_of, left_of};
ghost use Rattle.class.specs.Scripts.{Scripts, Turned, SoFar};

use books::{count, entry, good_book, part_of};
use circuit::refusal_lent;
use circuit::refusals::Refusal;
use links::Links;
use run::script_answer;
use telling::{numbered, tell};

// The most scripts of a class.
const MOST_SCRIPTS: usize = 16;

// Script i of n: its span of the book, its part of the log, of so many bytes, and what is told of it.
fn turn(
    circuit: &[u8],
    links: &Links,
    book: &[u8],
    n: usize,
    size: usize,
    i: usize,
    log: &mut [u8],
    values: &mut [u8],
    units: &mut [u8],
    delays: &mut [u8],
    told: &mut [u64],
)
    requires { Ready links.now circuit.now values.old units.old delays.old × Scripts book.now log.old n size × (i < n) }
    ensures { Turned (call_of circuit.now book.now log.old values.old units.old delays.old told.old) size i (left_of log.new values.new units.new delays.new told.new) }
{
    let s = entry(book, n, i);
    let start = s.start;
    let end = s.end;
    let at = i * size;
    let behind = at + size;
    let answer = script_answer(
        circuit,
        links,
        &book[start..end],
        &mut log[at..behind],
        values,
        units,
        delays,
    );
    tell(told, 3 * i, numbered(answer));
}

// The n scripts of a book, in order.
fn scripts(
    circuit: &[u8],
    links: &Links,
    book: &[u8],
    n: usize,
    size: usize,
    log: &mut [u8],
    values: &mut [u8],
    units: &mut [u8],
    delays: &mut [u8],
    told: &mut [u64],
)
    requires { Ready links.now circuit.now values.old units.old delays.old × Scripts book.now log.old n size }
    ensures { SoFar (call_of circuit.now book.now log.old values.old units.old delays.old told.old) size n (left_of log.new values.new units.new delays.new told.new) }
{
    for i in 0..n {
        turn(
            circuit, links, book, n, size, i, log, values, units, delays, told,
        );
    }
}

// The whole call: the questions about the circuit, then 15, then each script of the book with its part of the log, as it would be alone. The words of `told` become
// three for each script: its number, the ticks done, and the bytes of its part that hold records.
pub fn class(
    circuit: &[u8],
    book: &[u8],
    log: &mut [u8],
    values: &mut [u8],
    units: &mut [u8],
    delays: &mut [u8],
    told: &mut [u64],
) -> Result<(), Refusal>
    ensures { Right (call_of circuit.now book.now log.old values.old units.old delays.old told.old) (left_of log.new values.new units.new delays.new told.new) (refused result) }
{
    let mut links = Links::new();
    refusal_lent(circuit, &mut links, values.len(), units.len(), delays.len())?;
    if !good_book(MOST_SCRIPTS, book) {
        return Err(Refusal::NoBook);
    }
    let n = count(book);
    let size = part_of(n, log.len());
    scripts(
        circuit, &links, book, n, size, log, values, units, delays, told,
    );
    Ok(())
}
