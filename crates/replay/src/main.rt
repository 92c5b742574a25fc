// Plays every run of runs.bin, every class of classes.bin and every report of reports.bin, and compares what comes of each with what is due, byte by byte. Each file has first how many.
#![tactic(auto)]

ghost use Rattle.std.specs.Prelude.{◌≡◌, length};
ghost use Rattle.replay.specs.ClassMet.{class_met};
ghost use Rattle.replay.specs.Met.{met};
ghost use Rattle.replay.specs.ReportMet.{report_met};

mod bytes;
mod class_due;
mod due;
mod report_due;

use bytes::is_answered;
use circuit::refusals::refused;
use class_due::{CLASS_HEAD, ClassDue, is_class_as_due};
use due::{Due, RUN_HEAD, is_as_due};
use packed::failing::fail;
use packed::filled::{FILLED, FILLED_WORD, TOLD};
use packed::tally::Tally;
use packed::{next_bytes, next_word, next_words, or_0};
use report_due::{REPORT_HEAD, ReportDue};
use std::fs::File;
use std::io;
use std::io::Read;
use std::rt::Files;
use words::told::put_at;

// The room for a circuit, a script, a book, records, a log or an area, and for delays.
const ROOM: usize = 262_144;

const DELAYS: usize = 524_288;

// N bytes as they are lent. The `ensures` says only how many, which lending them needs: the prover is faster where it does not know the bytes.
fn filled<const N: usize>() -> [u8; N]
    ensures { N ≡ length result }
{
    [FILLED; N]
}

// ---- runs

// Stays: what is lent for a run, a class and a report differs in number and kind, so `play_lent`, `play_class_lent` and `play_report_lent` share no parameters.
// Plays a run with this log and these areas, and compares.
fn play_lent(
    due: Due,
    circuit: &[u8],
    script: &[u8],
    records: &[u8],
    log: &mut [u8],
    values: &mut [u8],
    units: &mut [u8],
    delays: &mut [u8],
) -> bool
    ensures { result ≡ met due circuit.now script.now records.now log.old values.old units.old delays.old }
{
    let answer = run::run(circuit, script, log, values, units, delays);
    is_as_due(due, answer, records, FILLED, log, values, units, delays)
}

// Plays a run with as many bytes of buffers as it lends; one that lends more than there are is not as it should be.
fn play(due: Due, circuit: &[u8], script: &[u8], records: &[u8]) -> bool {
    if ROOM < due.log || ROOM < due.values || ROOM < due.units || DELAYS < due.delays {
        return false;
    }
    let mut log = filled::<ROOM>();
    let mut values = filled::<ROOM>();
    let mut units = filled::<ROOM>();
    let mut delays = filled::<DELAYS>();
    play_lent(
        due,
        circuit,
        script,
        records,
        &mut log[..due.log],
        &mut values[..due.values],
        &mut units[..due.units],
        &mut delays[..due.delays],
    )
}

// Reads the next run, if there are buffers for it, and plays it: whether it is as it should be; none where it cannot be read whole.
fn play_next_run(file: &mut impl Read) -> Option<bool> {
    let mut head = [0u8; RUN_HEAD];
    next_bytes(file, &mut head, RUN_HEAD)?;
    let due = Due::from(&head);
    if ROOM < due.circuit || ROOM < due.script || ROOM < due.records {
        return None;
    }
    let mut circuit = [0u8; ROOM];
    let mut script = [0u8; ROOM];
    let mut records = [0u8; ROOM];
    next_bytes(file, &mut circuit, due.circuit)?;
    next_bytes(file, &mut script, due.script)?;
    next_bytes(file, &mut records, due.records)?;
    Some(play(
        due,
        &circuit[..due.circuit],
        &script[..due.script],
        &records[..due.records],
    ))
}

// ---- classes

// Plays a class with this log, these areas and these words for what is told, and compares the log with `records` and the words with `words`.
fn play_class_lent(
    due: ClassDue,
    circuit: &[u8],
    book: &[u8],
    records: &[u8],
    words: &[u64],
    log: &mut [u8],
    values: &mut [u8],
    units: &mut [u8],
    delays: &mut [u8],
    told: &mut [u64],
) -> bool
    ensures { result ≡ class_met due circuit.now book.now records.now words.now log.old values.old units.old delays.old told.old }
{
    let number = refused(class::class(circuit, book, log, values, units, delays, told));
    is_class_as_due(
        due, number, records, words, log, values, units, delays, told,
    )
}

// Plays a class with as many bytes and words of buffers as it lends; one that lends more than there are is not as it should be.
fn play_class(due: ClassDue, circuit: &[u8], book: &[u8], records: &[u8], words: &[u64]) -> bool {
    if ROOM < due.log
        || ROOM < due.values
        || ROOM < due.units
        || DELAYS < due.delays
        || TOLD < due.told
    {
        return false;
    }
    let mut log = filled::<ROOM>();
    let mut values = filled::<ROOM>();
    let mut units = filled::<ROOM>();
    let mut delays = filled::<DELAYS>();
    let mut told = [FILLED_WORD; TOLD];
    play_class_lent(
        due,
        circuit,
        book,
        records,
        words,
        &mut log[..due.log],
        &mut values[..due.values],
        &mut units[..due.units],
        &mut delays[..due.delays],
        &mut told[..due.told],
    )
}

// Reads the records of so many parts of a log, each of so many bytes: for each how many bytes of records it has, and these to its front. None where they are not there
// whole, or have no room.
fn next_parts(file: &mut impl Read, log: &mut [u8], parts: u64, size: usize) -> Option<()> {
    let mut rest = log;
    for _ in 0..parts {
        let (part, behind) = rest.split_at_mut_checked(size)?;
        let bytes = next_word(file)?;
        next_bytes(file, part, bytes as usize)?;
        rest = behind;
    }
    Some(())
}

// Reads the next class, if there are buffers for it, and plays it: whether it is as it should be; none where it cannot be read whole. The words that are due to be told,
// and the records of each part, come into buffers that are filled, so that these become the words and the log that are due.
fn play_next_class(file: &mut impl Read) -> Option<bool> {
    let mut head = [0u8; CLASS_HEAD];
    next_bytes(file, &mut head, CLASS_HEAD)?;
    let due = ClassDue::from(&head);
    if ROOM < due.circuit || ROOM < due.book {
        return None;
    }
    let mut circuit = [0u8; ROOM];
    let mut book = [0u8; ROOM];
    let mut records = [FILLED; ROOM];
    let mut words = [FILLED_WORD; TOLD];
    let records = records.get_mut(..due.log)?;
    let words = words.get_mut(..due.told)?;
    next_bytes(file, &mut circuit, due.circuit)?;
    next_bytes(file, &mut book, due.book)?;
    next_words(file, words, due.words)?;
    next_parts(file, records, due.parts, due.part)?;
    Some(play_class(
        due,
        &circuit[..due.circuit],
        &book[..due.book],
        records,
        words,
    ))
}

// ---- reports

// Reports with this buffer and these words for what is told, and compares the buffer with `lines` and the words with `words`.
fn play_report_lent(
    due: ReportDue,
    circuit: &[u8],
    log: &[u8],
    lines: &[u8],
    words: &[u64],
    report: &mut [u8],
    told: &mut [u64],
) -> bool
    ensures { result ≡ report_met due circuit.now log.now lines.now words.now report.old told.old }
{
    let number = refused(hours::hours(
        circuit,
        log,
        due.driver,
        due.activity,
        due.length,
        report,
        told,
    ));
    is_answered(number, due.number, report, lines, told, words)
}

// Reports with as many bytes and words of buffers as are lent; a report that lends more than there are is not as it should be.
fn play_report(due: ReportDue, circuit: &[u8], log: &[u8], lines: &[u8], words: &[u64]) -> bool {
    if ROOM < due.report || TOLD < due.told {
        return false;
    }
    let mut report = [FILLED; ROOM];
    let mut told = [FILLED_WORD; TOLD];
    play_report_lent(
        due,
        circuit,
        log,
        lines,
        words,
        &mut report[..due.report],
        &mut told[..due.told],
    )
}

// Reads the next report, if there are buffers for it, and plays it: whether it is as it should be; none where it cannot be read whole. The lines that are due come into a
// buffer that is filled, so that it becomes the one that is due. The first of the words that are due, if there is one, is how many bytes the lines have, unless the call
// is refused.
fn play_next_report(file: &mut impl Read) -> Option<bool> {
    let mut head = [0u8; REPORT_HEAD];
    next_bytes(file, &mut head, REPORT_HEAD)?;
    let due = ReportDue::from(&head);
    if ROOM < due.circuit || ROOM < due.log {
        return None;
    }
    let mut circuit = [0u8; ROOM];
    let mut log = [0u8; ROOM];
    let mut lines = [FILLED; ROOM];
    let mut words = [FILLED_WORD; TOLD];
    let lines = lines.get_mut(..due.report)?;
    let words = words.get_mut(..due.told)?;
    next_bytes(file, &mut circuit, due.circuit)?;
    next_bytes(file, &mut log, due.log)?;
    next_bytes(file, lines, due.lines)?;
    if due.number == 0 {
        put_at(words, 0, due.lines as u64);
    }
    Some(play_report(due, &circuit[..due.circuit], &log[..due.log], lines, words))
}

// ---- a file

// Plays so many, or up to the first that cannot be read whole, and prints the number of each that differs, from 0; `name` is one of them.
fn play_all<F: Read, P: Fn(&mut F) -> Option<bool>>(
    rt: &impl Print,
    file: &mut F,
    count: u64,
    name: &str,
    play_next: &P,
) -> io::Result<Tally>
    requires { P.IsAlwaysCallable play_next.now }
{
    let mut tally = Tally::default();
    for number in 0..count {
        tally = match play_next(file) {
            None => return Ok(tally.with_cut()),
            Some(true) => tally.with_right(),
            Some(false) => {
                println!(rt; "differs: {name} {number}")?;
                tally.with_wrong()
            }
        };
    }
    Ok(tally)
}

// Plays all of a file, which lies in the folder that the program runs in, and prints how many were played and differ, and which could not be read whole; `played` stands
// behind how many there are.
fn play_file<R: Files + Print + Eprint, P: Fn(&mut R::File) -> Option<bool>>(
    rt: &R,
    file: &str,
    name: &str,
    played: &str,
    play_next: &P,
) -> io::Result<()>
    requires { P.IsAlwaysCallable play_next.now }
{
    let mut file = match File::open(rt, file) {
        Ok(file) => file,
        Err(error) => return fail(rt, file, error),
    };
    let count = or_0(next_word(&mut file));
    let tally = play_all(rt, &mut file, count, name, play_next)?;
    let (tried, wrong) = (tally.tried, tally.wrong);
    if tally.cut {
        println!(rt; "not whole: {name} {tried}")?;
    }
    println!(rt; "{tried} {played}, {wrong} differ")
}

fn main(rt: HostRuntime) -> io::Result<()> {
    play_file(&rt, "runs.bin", "run", "played", &play_next_run)?;
    play_file(&rt, "classes.bin", "class", "classes", &play_next_class)?;
    play_file(&rt, "reports.bin", "report", "reports", &play_next_report)
}
