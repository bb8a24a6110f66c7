// Whole code groups by words: the nibbles of a group's planes are cut out of eight bytes at once, and the table makes of a byte, which is two planes, two bits of
// each of the four sizes. The sizes stand in one word, 16 bits each, so that one sum adds to all four.
ghost use Rattle.std.specs.Prelude.{true, false, [], ◌≡◌, ◌+◌, ◌*◌, ◌/◌, ◌%◌, ◌≤◌, ◌<◌, ◌^◌, eqb, length};
ghost use Rattle.bits.specs.Fields.{IsField};
ghost use Rattle.whole.specs.Numbers.{signed};
ghost use Rattle.quantiser.specs.Inverse.{coefficient_of, scaled, Carried};
ghost use Rattle.values.specs.Line.{placed};
ghost use Rattle.values.specs.Lanes.{spread, IsPairs, IsFound, Sizes, lane_value, fourth};

use crate::{Group, Next};
use bits::group::nibbles_of;

// The sizes that the last eight nibbles of w make, each nibble a plane. Fewer planes have zeros before them.
fn eight_planes(pairs: &[usize; 256], w: usize) -> usize
    requires { IsPairs pairs.now }
    ensures { result ≡ spread 8 w }
{
    let a = pairs[w % 256];
    let b = pairs[(w >> 8) % 256];
    let c = pairs[(w >> 16) % 256];
    let d = pairs[(w >> 24) % 256];
    a + 4 * b + 16 * c + 64 * d
}

// Those that all sixteen make. Most groups have no more than eight planes.
fn sixteen_planes(pairs: &[usize; 256], w: usize) -> usize
    requires { IsPairs pairs.now }
    ensures { result ≡ spread 16 w }
{
    let low = eight_planes(pairs, w);
    let high = w >> 32;
    if high == 0 {
        return low;
    }
    low + 256 * eight_planes(pairs, high)
}

// The nibbles k to k + n, and before them, where k is odd, the one before: the eight bytes from that of nibble k on, without the bits behind.
fn nibbles_at(dat: &[u8], k: usize, n: usize) -> usize
    requires { (k / 2 + 8 ≤ length dat.now) × (n ≤ 14) }
    ensures { IsField dat.now (8 * (k / 2)) (4 * (k % 2) + 4 * n + 4) result }
{
    bits::eight_at(dat, k / 2) >> (60 - 4 * (k % 2) - 4 * n)
}

// The sizes that the last n nibbles of w make.
fn sizes_of(pairs: &[usize; 256], w: usize, n: usize) -> usize
    requires { IsPairs pairs.now × (n ≤ 14) }
    ensures { result ≡ spread 16 (w % 2 ^ (4 * n)) }
{
    sixteen_planes(pairs, w % (1 << (4 * n)))
}

// Four bits from the bit i on, which are among two bytes.
fn four_bits(s: &[u8], i: usize) -> usize
    ensures { IsField s.now i 4 result }
{
    let two = bits::u8_at(s, i / 8) * 256 + bits::u8_at(s, i / 8 + 1);
    (two >> (12 - i % 8)) % 16
}

// What is read of a whole group: its sizes, 16 bits each, its signs, and what it takes of both stretches.
#[derive(Clone, Copy)]
pub struct Found {
    pub sizes: usize,
    pub signs: usize,
    pub taken: usize,
    pub used: usize,
}

// A group whose signs stand before its planes. One without planes has no sign nibble either: its signs are then read from what comes next, and its sizes are 0.
fn signs_before(pairs: &[usize; 256], dat: &[u8], n: usize, at: usize) -> Found
    requires { IsPairs pairs.now × (n ≤ 14) × (at / 2 + 8 ≤ length dat.now) }
    ensures { IsFound dat.now [] false n at 0 result }
{
    let w = nibbles_at(dat, at, n);
    let sizes = sizes_of(pairs, w, n);
    let signs = (w >> (4 * n)) % 16;
    Found {
        sizes,
        signs,
        taken: nibbles_of(n, 0, false),
        used: 0,
    }
}

// A group with its signs in the sign subpacket: the next bit of it for each size that is not 0.
fn signs_apart(pairs: &[usize; 256], dat: &[u8], sgn: &[u8], n: usize, next: Next) -> Found
    requires { IsPairs pairs.now × (n ≤ 14) × (next.at / 2 + 8 ≤ length dat.now) }
    ensures { IsFound dat.now sgn.now true n next.at next.sign result }
{
    let w = nibbles_at(dat, next.at, n) >> 4;
    let sizes = sizes_of(pairs, w, n);
    let a = crate::sign_bit(sizes % 65536);
    let b = a + crate::sign_bit((sizes >> 16) % 65536);
    let c = b + crate::sign_bit((sizes >> 32) % 65536);
    let d = c + crate::sign_bit((sizes >> 48) % 65536);
    let four = four_bits(sgn, next.sign);
    let signs = (four >> 3) % 2 * 8
        + (four >> (3 - a)) % 2 * 4
        + (four >> (3 - b)) % 2 * 2
        + (four >> (3 - c)) % 2;
    Found {
        sizes,
        signs,
        taken: nibbles_of(n, 0, true),
        used: d,
    }
}

// A whole group of n planes, as Fs has it.
pub fn read_group(
    pairs: &[usize; 256],
    dat: &[u8],
    sgn: &[u8],
    fs: bool,
    n: usize,
    next: Next,
) -> Found
    requires { IsPairs pairs.now × (n ≤ 14) × (next.at / 2 + 8 ≤ length dat.now) }
    ensures { IsFound dat.now sgn.now fs n next.at next.sign result }
{
    if fs {
        signs_apart(pairs, dat, sgn, n, next)
    } else {
        signs_before(pairs, dat, n, next.at)
    }
}

// Four values into the cells of a whole group.
fn four_into(cells: &mut [i64], first: usize, stride: usize, a: i64, b: i64, c: i64, d: i64)
    requires { first + 3 * stride < length cells.old }
    ensures { cells.new ≡ placed first stride (fourth a b c d) 4 cells.old }
{
    cells[first] = a;
    cells[first + stride] = b;
    cells[first + 2 * stride] = c;
    cells[first + 3 * stride] = d;
}

// The coefficient of a size and a sign bit, on the scale of the wavelet.
fn value_of(uniform: bool, fq: usize, group: Group, v: usize, sign: usize) -> i64
    requires { Carried group.m group.t v × (fq ≤ 15) }
    ensures { result ≡ scaled fq (coefficient_of uniform group.m group.t (signed (eqb sign 1) v)) }
{
    let size = quantiser::size_by(uniform, group.m as u64, group.t as u64, v as u64) << fq;
    quantiser::signed(sign == 1, size)
}

// The coefficients of a whole group into its cells.
pub(crate) fn put(cells: &mut [i64], uniform: bool, fq: usize, group: Group, found: Found)
    requires { (group.first + 3 * group.stride < length cells.old) × Sizes group.m group.t found.sizes × (fq ≤ 15) }
    ensures { cells.new ≡ placed group.first group.stride (lane_value uniform group.m group.t fq found.sizes found.signs) 4 cells.old }
{
    let sizes = found.sizes;
    let signs = found.signs;
    let a = value_of(uniform, fq, group, sizes % 65536, (signs >> 3) % 2);
    let b = value_of(uniform, fq, group, (sizes >> 16) % 65536, (signs >> 2) % 2);
    let c = value_of(uniform, fq, group, (sizes >> 32) % 65536, (signs >> 1) % 2);
    let d = value_of(uniform, fq, group, (sizes >> 48) % 65536, signs % 2);
    four_into(cells, group.first, group.stride, a, b, c, d);
}
