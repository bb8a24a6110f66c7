// Fields of a stretch of bytes, at a byte's place or at any bit. Every reader is total: past the end of the stretch each byte reads as 0, so that
// whether a field is there is a check of its own and not a reader's affair.
#![tactic(auto)]

mod cursor;
pub mod group;
pub mod packet;

ghost use Rattle.std.specs.Prelude.{◌+◌, ◌*◌, ◌≤◌, length};
ghost use Rattle.bits.specs.Fields.{IsField};

// u(8) at the byte `at`.
pub fn u8_at(s: &[u8], at: usize) -> usize
    ensures { IsField s.now (8 * at) 8 result }
{
    if at < s.len() { s[at] as usize } else { 0 }
}

// The n bytes from `at` on as one number. Past the end nothing is added to `at`, so that no sum wraps.
fn bytes_at(s: &[u8], at: usize, n: usize) -> usize
    requires { n ≤ 8 }
    ensures { IsField s.now (8 * at) (8 * n) result }
{
    if s.len() <= at {
        return 0;
    }
    let mut v: usize = 0;
    for k in 0..n {
        v = v * 256 + u8_at(s, at + k);
    }
    v
}

// u(64) at the byte `at`, where all eight bytes are there. The compiler makes one load of it.
pub fn eight_at(s: &[u8], at: usize) -> usize
    requires { at + 8 ≤ length s.now }
    ensures { IsField s.now (8 * at) 64 result }
{
    usize::from_be_bytes([
        s[at],
        s[at + 1],
        s[at + 2],
        s[at + 3],
        s[at + 4],
        s[at + 5],
        s[at + 6],
        s[at + 7],
    ])
}

// u(16), u(24) and u(32) at the byte `at`, by the names that the syntax tables have for them: a const parameter for the count of bytes would say no more.
pub fn u16_at(s: &[u8], at: usize) -> usize
    ensures { IsField s.now (8 * at) 16 result }
{
    bytes_at(s, at, 2)
}

pub fn u24_at(s: &[u8], at: usize) -> usize
    ensures { IsField s.now (8 * at) 24 result }
{
    bytes_at(s, at, 3)
}

pub fn u32_at(s: &[u8], at: usize) -> usize
    ensures { IsField s.now (8 * at) 32 result }
{
    bytes_at(s, at, 4)
}

// The bit i.
pub fn bit(s: &[u8], i: usize) -> usize
    ensures { IsField s.now i 1 result }
{
    (u8_at(s, i / 8) >> (7 - i % 8)) % 2
}

// The nibble k: the four bits from bit 4k on.
pub fn nibble(s: &[u8], k: usize) -> usize
    ensures { IsField s.now (4 * k) 4 result }
{
    (u8_at(s, k / 2) >> (4 - 4 * (k % 2))) % 16
}

// u(n) at the bit i: the four bytes from that of bit i on hold it, with the bits behind it to shift out and those before it to mask off.
pub fn field(s: &[u8], i: usize, n: usize) -> usize
    requires { n ≤ 24 }
    ensures { IsField s.now i n result }
{
    (u32_at(s, i / 8) >> (32 - i % 8 - n)) % (1 << n)
}
