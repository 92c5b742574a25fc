// What the programs that play the oracle's packed files share: packed words read from a file, and what a file that cannot be opened is told of.
#![tactic(auto)]

ghost use Rattle.std.specs.Prelude.{◌≡◌, is_some, IfSome};
ghost use Rattle.packed.specs.Read.{IsPrefixLen, MissingIs0, HasRoom};

pub mod failing;
pub mod filled;
pub mod tally;

use std::io::Read;
use words::write;

// Reads until the buffer is full, the file ends or a read fails, and answers how many bytes came to its front.
pub fn read_full(file: &mut impl Read, buffer: &mut [u8]) -> usize
    ensures { IsPrefixLen result buffer.new }
{
    let mut done = 0;
    // Stays: each read says how much it brought, so no range has these places.
    while done < buffer.len()
        && let Ok(n @ 1..) = file.read(&mut buffer[done..])
    {
        done += n;
    }
    done
}

// Reads a packed word: how many bytes it has, and these; the others are 0. None where it is not there whole.
pub fn next_word(file: &mut impl Read) -> Option<u64> {
    let mut count = [0u8];
    if read_full(file, &mut count) != 1 {
        return None;
    }
    let n = usize::from(count[0]);
    let mut bytes = [0u8; 8];
    if 8 < n || read_full(file, &mut bytes[..n]) != n {
        return None;
    }
    Some(u64::from_le_bytes(bytes))
}

// The number that was read, or 0 where none was there.
pub fn or_0(word: Option<u64>) -> u64
    ensures there { IfSome word (λ v. result ≡ v) }
    ensures missing { MissingIs0 word result }
{
    word.unwrap_or(0)
}

// Reads as many packed words as hold so many bytes to the front of a buffer of whole words. None where they are not there whole, or have no room.
pub fn next_bytes(file: &mut impl Read, buffer: &mut [u8], bytes: usize) -> Option<()>
    ensures { HasRoom (is_some result) bytes buffer.old }
{
    if buffer.len() < bytes {
        return None;
    }
    for k in 0..bytes.div_ceil(8) {
        write(buffer, k, next_word(file)?);
    }
    Some(())
}

// Reads n packed words to the front of these. None where they are not there whole, or have no room.
pub fn next_words(file: &mut impl Read, told: &mut [u64], n: usize) -> Option<()>
    ensures { HasRoom (is_some result) n told.old }
{
    for word in told.get_mut(..n)? {
        *word = next_word(file)?;
    }
    Some(())
}
