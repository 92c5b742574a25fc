// Plays script.bin over circuit.bin, both in the folder that the program runs in, and prints the records and how the run ended, or the refusal.
#![tactic(auto)]

ghost use Rattle.std.specs.Prelude.{◌^◌, ◌<◌, IfSome};
ghost use Rattle.io.specs.Counts.{IsPrefixLen};

mod outputs;
mod text;

use outputs::outputs;
use packed::read_full;
use std::fs::File;
use std::io;
use std::io::Read;
use std::rt::Files;
use text::add_word;
use walk::record_size;
use words::read;

// The bytes of a buffer, of the log and of an area.
const ROOM: usize = 65_536;

// What is printed where a file is missing or too long.
const NO_FILES: u64 = 14;

// ---- printing: a record each, its words in signed decimal with one space between, and then the end; or the refusal

// Prints a word in signed decimal, and the byte behind it.
fn print_word(rt: &impl Print, word: u64, last: u8) -> io::Result<()> {
    let mut text = [0u8; 22];
    let n = add_word(&mut text, 0, word, last);
    rt.write_all(&text[..n])
}

// Prints n words from word `at` on as a line.
fn print_record(rt: &impl Print, log: &[u8], at: usize, n: usize) -> io::Result<()>
    requires { (at < 2 ^ 61) × (n < 2 ^ 61) }
{
    let last = n.saturating_sub(1);
    for i in 0..last {
        print_word(rt, read(log, at + i), b' ')?;
    }
    print_word(rt, read(log, at + last), b'\n')
}

// Prints the records in the first `size` words of the log.
fn print_records(rt: &impl Print, circuit: &[u8], log: &[u8], size: usize) -> io::Result<()>
    requires { size < 2 ^ 61 }
{
    let shown = outputs(circuit);
    let mut at = 0;
    // Stays: each record has a size of its own, by which `at` goes on, so no range has these places.
    while at < size {
        let n = record_size(log, at, size - at, shown);
        print_record(rt, log, at, n)?;
        at += n;
    }
    Ok(())
}

// Prints the stop and the ticks done.
fn print_end(rt: &impl Print, stop: u64, ticks: u64) -> io::Result<()> {
    println!(rt; "end {stop} {ticks}")
}

// Prints the number of the refusal.
fn print_refused(rt: &impl Print, number: u64) -> io::Result<()> {
    println!(rt; "refused {number}")
}

// ---- playing

// Reads a file to the front of a buffer, and answers how many bytes came. None where it ends later than the buffer, or cannot be read to its end.
fn read_file(rt: &impl Files, name: &str, buffer: &mut [u8]) -> Option<usize>
    ensures { IfSome result (λ n. IsPrefixLen n buffer.new) }
{
    let mut file = File::open(rt, name).ok()?;
    let n = read_full(&mut file, buffer);
    let more = file.read(&mut [0u8]);
    matches!(more, Ok(0)).then_some(n)
}

// Lends a log and three areas of 65,536 bytes each, and prints what came of the call.
fn play(rt: &impl Print, circuit: &[u8], script: &[u8]) -> io::Result<()> {
    let mut log = [0u8; ROOM];
    let mut values = [0u8; ROOM];
    let mut units = [0u8; ROOM];
    let mut delays = [0u8; ROOM];
    let answer = run::run(
        circuit,
        script,
        &mut log,
        &mut values,
        &mut units,
        &mut delays,
    );
    match answer {
        Ok(played) => {
            print_records(rt, circuit, &log, (played.bytes / 8) as usize)?;
            print_end(rt, played.stop, played.ticks)
        }
        Err(refusal) => print_refused(rt, refusal.number()),
    }
}

// Reads both files, and plays them if they are there and whole.
fn main(rt: HostRuntime) -> io::Result<()> {
    let mut circuit = [0u8; ROOM];
    let mut script = [0u8; ROOM];
    let c = read_file(&rt, "circuit.bin", &mut circuit);
    let s = read_file(&rt, "script.bin", &mut script);
    let (Some(n), Some(m)) = (c, s) else {
        return print_refused(&rt, NO_FILES);
    };
    play(&rt, &circuit[..n], &script[..m])
}
