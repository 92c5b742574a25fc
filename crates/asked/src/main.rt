// Asks `check` and `refusal` about every case of questions.bin, and prints for each number how many cases had it as they should. Then asks `size` about every size of
// sizes.bin, and compares number and words told with what is due, every word. Each file has first how many.
#![tactic(auto)]

ghost use Rattle.std.specs.Prelude.{◌≡◌};
ghost use Rattle.asked.specs.SizeMet.{size_met};

mod case;
mod size_due;
mod tally;

use case::{Answers, Case, HEAD, ask, is_right};
use circuit::refusals::refused;
use packed::failing::fail;
use packed::filled::{FILLED_WORD, TOLD};
use packed::{next_bytes, next_word, or_0, read_full};
use size_due::{SIZE_HEAD, SizeDue, is_size_as_due};
use std::fs::File;
use std::io::Read;
use std::rt::Files;
use std::{fmt, io};
use tally::Tally;
use words::told::put_at;

// The room for a circuit or a script.
const ROOM: usize = 65_536;

// ---- what is printed

// Prints a line for each number.
fn print_numbers(rt: &impl Print, tally: Tally) -> io::Result<()> {
    for (number, right) in tally.right.iter().enumerate() {
        if matches!(number, 0..=10 | 19) {
            println!(rt; "{number}: {right} right")?;
        }
    }
    Ok(())
}

// Prints how many were asked and were wrong, and which could not be read whole; `name` is one of them, and `asked` stands behind how many there are.
fn print_all(
    rt: &impl Print,
    name: &str,
    all: packed::tally::Tally,
    asked: &str,
) -> io::Result<()> {
    let tried = all.tried;
    let wrong = all.wrong;
    if all.cut {
        println!(rt; "not whole: {name} {tried}")?;
    }
    println!(rt; "{tried} {asked}, {wrong} wrong")
}

// ---- cases

// A case that was wrong, by its number from 0, and what was answered to it.
#[derive(Clone, Copy)]
struct WrongCase {
    number: u64,
    case: Case,
    answers: Answers,
}

impl fmt::Display for WrongCase {
    fn fmt<W: fmt::Write>(&self, f: &mut fmt::Formatter<W>) -> fmt::Result {
        let number = self.number;
        let (check, due) = (self.answers.check, self.case.check);
        write!(f, "case {number}: check answers {check}, due {due}")?;
        let (refusal, due) = (self.answers.refusal, self.case.refusal);
        write!(f, "; refusal answers {refusal}, due {due}")
    }
}

// Reads a number of the file; 0 where it has ended.
fn next_number(file: &mut impl Read) -> u64 {
    let mut word = [0u8; 8];
    read_full(file, &mut word);
    u64::from_le_bytes(word)
}

// Reads as many bytes as these are; none where the file has fewer.
fn fill(file: &mut impl Read, bytes: &mut [u8]) -> Option<()> {
    (read_full(file, bytes) == bytes.len()).then_some(())
}

// Reads the next case and asks about it: the number that it has as it should; none where it cannot be read whole.
fn ask_next_case(file: &mut impl Read, number: u64) -> Option<Result<u64, WrongCase>> {
    let mut head = [0u8; HEAD];
    let mut circuit = [0u8; ROOM];
    let mut script = [0u8; ROOM];
    fill(file, &mut head)?;
    let case = Case::from(&head);
    let circuit = circuit.get_mut(..case.circuit)?;
    fill(file, circuit)?;
    let script = script.get_mut(..next_number(file) as usize)?;
    fill(file, script)?;
    let answers = ask(case, circuit, script);
    Some(if is_right(case, answers) {
        Ok(case.refusal)
    } else {
        Err(WrongCase {
            number,
            case,
            answers,
        })
    })
}

// ---- sizes

// A size that was wrong, by its number from 0.
#[derive(Clone, Copy)]
struct WrongSize(u64);

impl fmt::Display for WrongSize {
    fn fmt<W: fmt::Write>(&self, f: &mut fmt::Formatter<W>) -> fmt::Result {
        let number = self.0;
        write!(f, "wrong: size {number}")
    }
}

// Asks about a size with these words for what is told, and compares them with `words`.
fn ask_size_lent(due: SizeDue, circuit: &[u8], words: &[u64], told: &mut [u64]) -> bool
    ensures { result ≡ size_met due circuit.now words.now told.old }
{
    let number = refused(size::size(circuit, due.ticks, told));
    is_size_as_due(due, number, told, words)
}

// Asks about a size with as many words as are lent, which are filled; one that lends more than there are is not as it should be. The first two of the words that are due
// are both figures, as far as there is room, unless the call is refused.
fn is_size_right(due: SizeDue, circuit: &[u8]) -> bool {
    if TOLD < due.told {
        return false;
    }
    let mut words = [FILLED_WORD; TOLD];
    let mut told = [FILLED_WORD; TOLD];
    let words = &mut words[..due.told];
    if due.number == 0 {
        put_at(words, 0, due.steps);
        put_at(words, 1, due.bytes);
    }
    ask_size_lent(due, circuit, words, &mut told[..due.told])
}

// Reads the next size, if there is a buffer for it, and asks about it: the number that it has as it should; none where it cannot be read whole.
fn ask_next_size(file: &mut impl Read, number: u64) -> Option<Result<u64, WrongSize>> {
    let mut head = [0u8; SIZE_HEAD];
    next_bytes(file, &mut head, SIZE_HEAD)?;
    let due = SizeDue::from(&head);
    let mut circuit = [0u8; ROOM];
    next_bytes(file, &mut circuit, due.circuit)?;
    Some(if is_size_right(due, &circuit[..due.circuit]) {
        Ok(due.number)
    } else {
        Err(WrongSize(number))
    })
}

// ---- a file

// Asks about so many, or up to the first that cannot be read whole, and prints each that is wrong.
fn ask_all<F: Read, E: fmt::Display + Drop, A: Fn(&mut F, u64) -> Option<Result<u64, E>>>(
    rt: &impl Print,
    file: &mut F,
    count: u64,
    ask_next: &A,
) -> io::Result<Tally>
    requires { A.IsAlwaysCallable ask_next.now }
{
    let mut tally = Tally::default();
    for number in 0..count {
        tally = match ask_next(file, number) {
            None => return Ok(tally.with_cut()),
            Some(Ok(right)) => tally.with_right(right),
            Some(Err(wrong)) => {
                println!(rt; "{wrong}")?;
                tally.with_wrong()
            }
        };
    }
    Ok(tally)
}

fn main(rt: HostRuntime) -> io::Result<()> {
    match File::open(&rt, "questions.bin") {
        Ok(mut file) => {
            let count = next_number(&mut file);
            let tally = ask_all(&rt, &mut file, count, &ask_next_case)?;
            print_numbers(&rt, tally)?;
            print_all(&rt, "case", tally.all, "asked")?;
        }
        Err(error) => fail(&rt, "questions.bin", error)?,
    }
    match File::open(&rt, "sizes.bin") {
        Ok(mut file) => {
            let count = or_0(next_word(&mut file));
            let tally = ask_all(&rt, &mut file, count, &ask_next_size)?;
            print_all(&rt, "size", tally.all, "sizes")
        }
        Err(error) => fail(&rt, "sizes.bin", error),
    }
}
