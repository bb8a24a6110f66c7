// One line of one band: from the data and sign subpackets (C.5.4, C.5.5) through the inverse quantiser (Annex D) into the coefficient cells.
#![tactic(auto)]

pub mod pairs;
mod words;

ghost use Rattle.std.specs.Prelude.{◌≡◌, ◌≤◌, ◌^◌, pos, length};
ghost use Rattle.values.specs.Line.{Fit, placed, line_values};
ghost use Rattle.values.specs.Lanes.{IsPairs, Short};
ghost use Rattle.values.specs.Steps.{SignBit, SignBits, Magnitudes, sign_field, InCells, GroupFit, group_values, HasGroup, group_of};

use bits::group::{held, nibbles_of};

// Where a line stands in the cells, and its precinct's truncation position in its band. Coefficient x has the cell first + x·stride, and the count
// cell of a code group stands `area` cells behind that of its first coefficient.
#[derive(Clone, Copy)]
pub struct Line {
    pub first: usize,
    pub stride: usize,
    pub width: usize,
    pub area: usize,
    pub t: usize,
}

// What the picture header chooses: the uniform quantiser or the deadzone one, signs in a subpacket of their own (Fs = 1) or with the data,
// and the bits behind the point, Fq.
#[derive(Clone, Copy)]
pub struct Coding {
    pub uniform: bool,
    pub fs: bool,
    pub fq: usize,
}

// What comes next: a nibble of the data stretch, and a bit of the sign stretch.
#[derive(Clone, Copy)]
pub struct Next {
    pub at: usize,
    pub sign: usize,
}

// The sizes of a group's four coefficients, from n bitplanes: a nibble has one bit of each.
fn magnitudes(dat: &[u8], from: usize, n: usize) -> [usize; 4]
    requires { (n ≤ 31) × (from ≤ 2 ^ 63) }
    ensures { Magnitudes dat.now from n result }
{
    let mut v0: usize = 0;
    let mut v1: usize = 0;
    let mut v2: usize = 0;
    let mut v3: usize = 0;
    for j in 0..n {
        let plane = bits::nibble(dat, from + j);
        v0 = 2 * v0 + plane / 8;
        v1 = 2 * v1 + plane / 4 % 2;
        v2 = 2 * v2 + plane / 2 % 2;
        v3 = 2 * v3 + plane % 2;
    }
    [v0, v1, v2, v3]
}

// Four bits that hold a group's signs: the next of the sign stretch, of which it takes one for each size that is not 0, or the nibble before its planes.
fn sign_field(dat: &[u8], sgn: &[u8], fs: bool, next: Next) -> usize
    ensures { result ≡ sign_field dat.now sgn.now fs next.at next.sign }
{
    if fs {
        bits::field(sgn, next.sign, 4)
    } else {
        bits::nibble(dat, next.at)
    }
}

// 1 where a sign goes with the size v.
fn sign_bit(v: usize) -> usize
    ensures { SignBit v result }
{
    usize::from(v != 0)
}

// The sign bits of four sizes.
fn sign_bits(v: [usize; 4]) -> usize
    ensures { SignBits v result }
{
    sign_bit(v[0]) + sign_bit(v[1]) + sign_bit(v[2]) + sign_bit(v[3])
}

// The part of a code group that the line has: `count` of its four coefficients, and coefficient k has the cell first + k·stride.
#[derive(Clone, Copy)]
struct Group {
    first: usize,
    stride: usize,
    count: usize,
    m: usize,
    t: usize,
}

// 0 into the cells of a group.
fn clear_group(cells: &mut [i64], first: usize, stride: usize, count: usize)
    requires { InCells first stride count (length cells.old) }
    ensures { cells.new ≡ placed first stride (λ _. pos 0) count cells.old }
{
    for k in 0..count {
        cells[first + k * stride] = 0;
    }
}

// The coefficients of a group into their cells. A sign stands for each of the four sizes that is not 0, also for one that has no cell.
fn coded_group(
    dat: &[u8],
    sgn: &[u8],
    cells: &mut [i64],
    how: Coding,
    group: Group,
    next: Next,
) -> Next
    requires { GroupFit how group next (length cells.old) }
    ensures { group_values dat.now sgn.now how group next cells.old ≡ (result, cells.new) }
{
    let first = group.first;
    let stride = group.stride;
    let count = group.count;
    let fs = how.fs;
    let planes = next.at + usize::from(!fs);
    let v = magnitudes(dat, planes, group.m.saturating_sub(group.t));
    let signs = sign_field(dat, sgn, fs, next);
    let mut used: usize = 0;
    for k in 0..count {
        let size = v[k];
        let place = if fs { used } else { k };
        let negative = (signs >> (3 - place)) % 2 == 1;
        let index = quantiser::signed(negative, size as u64);
        let to = first + k * stride;
        cells[to] = quantiser::scaled_coefficient(
            how.uniform,
            group.m as u64,
            group.t as u64,
            how.fq as u64,
            index,
        );
        used += sign_bit(size);
    }
    let all = sign_bits(v);
    let taken = if fs { all } else { 0 };
    Next {
        at: next.at + nibbles_of(group.m, group.t, fs),
        sign: next.sign + taken,
    }
}

// A group into its cells. The coarser the picture, the more groups are truncated whole: these take nothing and are only cleared.
fn group_values(
    dat: &[u8],
    sgn: &[u8],
    cells: &mut [i64],
    how: Coding,
    group: Group,
    next: Next,
) -> Next
    requires { GroupFit how group next (length cells.old) }
    ensures { group_values dat.now sgn.now how group next cells.old ≡ (result, cells.new) }
{
    if group.m <= group.t {
        clear_group(cells, group.first, group.stride, group.count);
        return next;
    }
    coded_group(dat, sgn, cells, how, group, next)
}

// A whole group of at most fourteen planes, whose nibbles are among eight bytes of the data stretch. One without planes takes nothing, and its
// sizes are 0 like any other's. Where T is 0 either quantiser is exact, and the deadzone one is the quicker.
fn short_group(
    pairs: &[usize; 256],
    dat: &[u8],
    sgn: &[u8],
    cells: &mut [i64],
    how: Coding,
    group: Group,
    next: Next,
) -> Next
    requires { IsPairs pairs.now × GroupFit how group next (length cells.old) × Short group next (length dat.now) }
    ensures { group_values dat.now sgn.now how group next cells.old ≡ (result, cells.new) }
{
    let n = group.m.saturating_sub(group.t);
    let found = words::read_group(pairs, dat, sgn, how.fs, n, next);
    words::put(cells, how.uniform & (0 < group.t), how.fq, group, found);
    Next {
        at: next.at + found.taken,
        sign: next.sign + found.used,
    }
}

// A group by words where it is short, and else plane after plane.
fn any_group(
    pairs: &[usize; 256],
    dat: &[u8],
    sgn: &[u8],
    cells: &mut [i64],
    how: Coding,
    group: Group,
    next: Next,
) -> Next
    requires { IsPairs pairs.now × GroupFit how group next (length cells.old) }
    ensures { group_values dat.now sgn.now how group next cells.old ≡ (result, cells.new) }
{
    let n = group.m.saturating_sub(group.t);
    let short = (group.count == 4) & (n <= 14) & (next.at / 2 + 8 <= dat.len());
    if short {
        return short_group(pairs, dat, sgn, cells, how, group, next);
    }
    group_values(dat, sgn, cells, how, group, next)
}

// Group g of a line, with the bitplane count from its count cell.
fn group_of(cells: &[i64], line: Line, g: usize) -> Group
    requires { HasGroup line g (length cells.now) }
    ensures { result ≡ group_of line cells.now g }
{
    let x = 4 * g;
    let first = line.first + x * line.stride;
    let count_cell = cells[first + line.area];
    Group {
        first,
        stride: line.stride,
        count: (line.width - x).min(4),
        m: held(count_cell) % 32,
        t: line.t,
    }
}

// The coefficients of a line into their cells, from what comes next in its packet's data and sign stretches. Bits past the end of a stretch read
// as 0: whether all are there is judged by the caller, from the nibbles that the counts ask for and from the sign bit that comes next.
pub fn line_values(
    pairs: &[usize; 256],
    dat: &[u8],
    sgn: &[u8],
    cells: &mut [i64],
    how: Coding,
    line: Line,
    from: Next,
) -> Next
    requires { IsPairs pairs.now × Fit how line from (length cells.old) }
    ensures { line_values dat.now sgn.now how line from cells.old ≡ (result, cells.new) }
{
    let groups = line.width.div_ceil(4);
    let mut next = from;
    for g in 0..groups {
        let group = group_of(cells, line, g);
        next = any_group(pairs, dat, sgn, cells, how, group, next);
    }
    next
}
