// Bytes and words compared.
ghost use Rattle.std.specs.Prelude.{◌≡◌};
ghost use Rattle.replay.specs.Bytes.{alike, all_alike, holds, answered};

// Whether every byte of the area is this one.
pub fn is_alike(area: &[u8], byte: u8) -> bool
    ensures { result ≡ alike byte area.now }
{
    area.iter().all(|&x| x == byte)
}

// Whether every byte of the three areas is this one.
pub fn are_alike(values: &[u8], units: &[u8], delays: &[u8], byte: u8) -> bool
    ensures { result ≡ all_alike byte values.now units.now delays.now }
{
    is_alike(values, byte) && (is_alike(units, byte) && is_alike(delays, byte))
}

// Whether the log holds these records, and behind them nothing but this byte.
pub fn is_holding(log: &[u8], records: &[u8], byte: u8) -> bool
    ensures { result ≡ holds byte log.now records.now }
{
    match log.split_at_checked(records.len()) {
        None => false,
        Some((front, rest)) => front == records && is_alike(rest, byte),
    }
}

// Whether a call's number is the one due, and the bytes and the words that it leaves are these.
pub fn is_answered(
    number: u64,
    due: u64,
    left: &[u8],
    bytes: &[u8],
    told: &[u64],
    words: &[u64],
) -> bool
    ensures { result ≡ answered number due left.now bytes.now told.now words.now }
{
    number == due && (left == bytes && told == words)
}
