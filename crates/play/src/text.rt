// Text in a buffer, whose first bytes hold what was added so far.
ghost use Rattle.std.specs.Prelude.{◌≡◌, [], ◌∷◌, ◌++◌, ◌+◌, ◌≤◌, ◌<◌, length, take};
ghost use Rattle.std.proofs.Math.Seq.{paste};
ghost use Rattle.io.specs.Counts.{IsPrefixLen};
ghost use Rattle.play.specs.Text.{decimal, spelled};

// Adds a byte behind the first `at`, and answers how many there are then.
fn add_byte(text: &mut [u8], at: usize, byte: u8) -> usize
    requires { at < length text.old }
    ensures text_value { take result text.new ≡ take at text.old ++ (byte ∷ []) }
    ensures value { result ≡ at + 1 }
{
    text[at] = byte;
    at + 1
}

// Puts the first n of some digits behind the first `at` bytes.
fn put_digits(text: &mut [u8], at: usize, digits: &[u8; 20], n: usize)
    requires { (at + n ≤ length text.old) × (n ≤ 20) × (n ≤ length digits.now) }
    ensures { text.new ≡ paste text.old at digits.now n }
{
    let mut i = 0;
    while i < n {
        text[at + i] = digits[i];
        i += 1;
    }
}

// Adds a number in decimal.
fn add_decimal(text: &mut [u8], at: usize, number: u64) -> usize
    requires { at + 20 ≤ length text.old }
    ensures text_value { take result text.new ≡ take at text.old ++ decimal number }
    ensures lower_bound { (at ≤ result) × (result ≤ at + 20) }
{
    let mut digits = [0u8; 20];
    let n = io::decimal(number, &mut digits);
    put_digits(text, at, &digits, n);
    at + n
}

// Adds a word in signed decimal, and the byte behind it.
pub fn add_word(text: &mut [u8], at: usize, word: u64, last: u8) -> usize
    requires { at + 22 ≤ length text.old }
    ensures text_value { take result text.new ≡ take at text.old ++ (spelled word ++ (last ∷ [])) }
    ensures prefix_len { IsPrefixLen result text.new }
{
    if word < 0x8000_0000_0000_0000 {
        let end = add_decimal(text, at, word);
        return add_byte(text, end, last);
    }
    let first = add_byte(text, at, b'-');
    let end = add_decimal(text, first, 0xFFFF_FFFF_FFFF_FFFF - word + 1);
    add_byte(text, end, last)
}
