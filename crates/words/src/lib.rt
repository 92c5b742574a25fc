// Words of eight bytes, least first, in byte slices.
#![tactic(auto)]

ghost use Rattle.std.specs.Prelude.{◌≡◌, ◌+◌, ◌*◌, ◌<◌, ◌≤◌, length, get_or};
ghost use Rattle.words.specs.Words.{words, Stored, signed, unsigned};

pub mod bits;
pub mod counting;
pub mod rows;
pub mod told;

// Word i of the area.
pub fn get(area: &[u8], i: usize) -> u64
    requires { i * 8 + 8 ≤ length area.now }
    ensures { result ≡ get_or (words area.now) i 0 }
{
    let o = i * 8;
    u64::from_le_bytes([
        area[o],
        area[o + 1],
        area[o + 2],
        area[o + 3],
        area[o + 4],
        area[o + 5],
        area[o + 6],
        area[o + 7],
    ])
}

// Word i of the area becomes v.
pub fn put(area: &mut [u8], i: usize, v: u64)
    requires { i * 8 + 8 ≤ length area.old }
    ensures { Stored area.old area.new i v }
{
    // Stays: `copy_from_slice` of `to_le_bytes` tests at each word whether the two overlap; with it a tick took 26 to 47 % more instructions.
    let o = i * 8;
    let v1 = v / 256;
    let v2 = v1 / 256;
    let v3 = v2 / 256;
    let v4 = v3 / 256;
    let v5 = v4 / 256;
    let v6 = v5 / 256;
    let v7 = v6 / 256;
    area[o] = (v % 256) as u8;
    area[o + 1] = (v1 % 256) as u8;
    area[o + 2] = (v2 % 256) as u8;
    area[o + 3] = (v3 % 256) as u8;
    area[o + 4] = (v4 % 256) as u8;
    area[o + 5] = (v5 % 256) as u8;
    area[o + 6] = (v6 % 256) as u8;
    area[o + 7] = (v7 % 256) as u8;
}

// Word i, or 0 where the area has no word i.
pub fn read(area: &[u8], i: usize) -> u64
    ensures { result ≡ get_or (words area.now) i 0 }
{
    if area.len() / 8 <= i {
        return 0;
    }
    get(area, i)
}

// Word i becomes v. Where the area has no word i, nothing changes.
pub fn write(area: &mut [u8], i: usize, v: u64)
    ensures { Stored area.old area.new i v }
{
    if i < area.len() / 8 {
        put(area, i, v);
    }
}

// The signed number that the word v stands for.
pub fn signed(v: u64) -> i64
    ensures { result ≡ signed v }
{
    v.cast_signed()
}

// The word that stands for z.
pub fn unsigned(z: i64) -> u64
    ensures { result ≡ unsigned z }
{
    z.cast_unsigned()
}

// What word i stands for, or 0 where the area has no word i.
pub fn read_signed(area: &[u8], i: usize) -> i64
    ensures { result ≡ signed (get_or (words area.now) i 0) }
{
    signed(read(area, i))
}

// Word i becomes the one that stands for z. Where the area has no word i, nothing changes.
pub fn write_signed(area: &mut [u8], i: usize, z: i64)
    ensures { Stored area.old area.new i (unsigned z) }
{
    write(area, i, unsigned(z));
}
