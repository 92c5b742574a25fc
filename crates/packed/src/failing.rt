// What is said of a file that cannot be opened.
use std::io;
use std::io::Write;
use std::str::from_utf8;

// The room for an error in words.
const ROOM: usize = 512;

// The system's words in the text of an error, without the error's number behind them.
fn words(text: &str) -> &str {
    match text.split_once(" (os error ") {
        Some((words, _)) => words,
        None => text,
    }
}

// Writes a line to standard error: what failed, as the caller names it, a colon and the system's words for the error.
pub fn fail(rt: &impl Eprint, what: &str, error: io::Error) -> io::Result<()> {
    let mut text = [0u8; ROOM];
    let mut rest = &mut text[..];
    write!(rest, "{error}")?;
    let n = ROOM.saturating_sub(rest.len());
    let text = from_utf8(&text[..n]).unwrap_or("");
    eprintln!(rt; "{what}: {}", words(text))
}
