// The packets that a precinct can have ("slots"), the lines of each, and the cells in which their coefficients lie.
ghost use Rattle.std.specs.Prelude.{◌≡◌, ◌+◌, ◌*◌, ◌-◌, ◌/◌, ◌%◌, ◌<◌, ◌≤◌, ◌^◌, ◌&&◌, ltb};
ghost use Rattle.layout.specs.Bands.{Nβ, NL, dy, band_exists};
ghost use Rattle.layout.specs.Built.{Built};
ghost use Rattle.layout.specs.Precincts.{Npx, Npy, lines};
ghost use Rattle.layout.specs.Cells.{area, samples};
ghost use Rattle.layout.specs.Slots.{slots, candidates, line, line_at};
ghost use Rattle.layout.specs.Sizes.{SmallBand, inner_of, IsReach, IsSpan, slot_of, candidate_band};

use crate::bands::{Band, band_of, component_of};
use crate::numbers::{place, power, product, size};
use crate::precincts::{Column, column_of};
use crate::{Line, Shape};

// A line's row in its band, and whether the precinct has it. The row is told where it does not have it too (`line` of specs/Slots), so this is no Option.
#[derive(Clone, Copy)]
pub struct Reach {
    pub y: usize,
    pub present: bool,
}

// A line's first column in its band, and how many it has.
#[derive(Clone, Copy)]
pub struct Span {
    pub x: usize,
    pub width: usize,
}

pub fn area_of(s: Shape, i: usize) -> usize
    requires { Built s × (i < s.nc) }
    ensures { (result ≡ area s i) × (result ≤ 2 ^ 28) }
{
    let c = component_of(s, i);
    product(c.w, c.h)
}

// The samples of the components before i, which is half of the cells before those of component i.
pub fn samples_before(s: Shape, i: usize) -> usize
    requires { Built s × (i ≤ s.nc) }
    ensures { (result ≡ samples s i) × (result ≤ 2 ^ 30) }
{
    let mut n = 0;
    for k in 0..i {
        n += area_of(s, k);
    }
    n
}

// Line l, counted on the sampling grid from the band's first, in a row of precincts.
fn reach_of(b: Band, row: usize, l: usize) -> Reach
    requires { SmallBand b × (row ≤ 16384) × (l < 4) }
    ensures { IsReach b row l result }
{
    let f = b.filter;
    let p = b.part;
    let y = product(row, power(p.ny - f.dy)) + l / p.sy;
    let height = size(p.h, f.ty, f.dy);
    Reach {
        y,
        present: b.exists & (l % p.sy == 0) & (y < height),
    }
}

fn span_of(b: Band, c: Column) -> Span
    requires { SmallBand b × (c.x ≤ 16384) × (c.width < 2 ^ 26) }
    ensures { IsSpan b c result }
{
    let f = b.filter;
    let p = b.part;
    let x = c.x.div_ceil(product(p.sx, power(f.dx)));
    let all = c.width.div_ceil(p.sx);
    Span {
        x,
        width: size(all, f.tx, f.dx),
    }
}

fn cell_of(b: Band, x: usize, y: usize) -> usize
    requires { SmallBand b × (x ≤ 16384) × (y < 2 ^ 17) }
    ensures { (result ≡ inner_of b x y) × (result < 2 ^ 61) }
{
    let f = b.filter;
    let p = b.part;
    let top = place(f.ty, f.dy, y);
    product(top, p.w) + place(f.tx, f.dx, x)
}

// A slot: its first filter type, how many it has, and its line.
#[derive(Clone, Copy)]
pub struct Slot {
    pub first: usize,
    pub types: usize,
    pub line: usize,
}

pub fn slot_count(s: Shape) -> usize
    requires { Built s }
    ensures { (result ≡ slots s) × (result ≤ 10) }
{
    1 + 3 * (power(s.nly) - 1)
}

fn slot_of(s: Shape, k: usize) -> Slot
    requires { Built s × (k < slots s) }
    ensures { result ≡ slot_of s k }
{
    let first = s.nlx - s.nly + 1;
    if k == 0 {
        return Slot {
            first: 0,
            types: first,
            line: 0,
        };
    }
    let turn = (k - 1) / 3 + 1;
    let level = turn / 2;
    Slot {
        first: first + 3 * level + (k - 1) % 3,
        types: 1,
        line: turn - power(level),
    }
}

// How many lines slot k of a precinct can have.
pub fn candidate_count(s: Shape, k: usize) -> usize
    requires { Built s × (k < slots s) }
    ensures { (result ≡ candidates s k) × (result ≤ 24) }
{
    let slot = slot_of(s, k);
    slot.types * s.nc
}

// The band of candidate j of slot k, without the rest of its line.
pub fn candidate_band(s: Shape, k: usize, j: usize) -> usize
    requires { Built s × (k < slots s) × (j < candidates s k) }
    ensures { (result ≡ candidate_band s k j) × (result < NL s) }
{
    let slot = slot_of(s, k);
    s.nc * slot.first + j
}

// Line l of a band in a precinct.
fn line_of(s: Shape, row: usize, column: usize, beta: usize, i: usize, l: usize) -> Line
    requires built { Built s × (row < Npy s) × (column < Npx s) }
    requires beta_bound { (beta < Nβ s) × (i < s.nc) × (l < 4) × (l < 2 ^ (s.nly - dy s beta)) }
    ensures { result ≡ line s row column beta i l }
{
    let b = band_of(s, beta, i);
    let reach = reach_of(b, row, l);
    let span = span_of(b, column_of(s, column));
    let inner = cell_of(b, span.x, reach.y);
    let before = samples_before(s, i);
    let f = b.filter;
    let p = b.part;
    Line {
        present: reach.present,
        band: s.nc * beta + i,
        component: i,
        cell: 2 * before + inner,
        stride: power(f.dx),
        width: span.width,
        groups: span.width.div_ceil(4),
        marks: span.width.div_ceil(32),
        y: reach.y,
        area: product(p.w, p.h),
        up: product(power(f.dy), p.w),
    }
}

// Candidate j of slot k of the precinct in this row and column.
pub fn line_at(s: Shape, row: usize, column: usize, k: usize, j: usize) -> Line
    requires { Built s × (row < Npy s) × (column < Npx s) × (k < slots s) × (j < candidates s k) }
    ensures { result ≡ line_at s row column k j }
{
    let slot = slot_of(s, k);
    line_of(s, row, column, slot.first + j / s.nc, j % s.nc, slot.line)
}

// Whether a row of precincts holds a line of band b.
pub fn has_lines(s: Shape, row: usize, b: usize) -> bool
    requires { Built s × (row < Npy s) × (b < NL s) }
    ensures { result ≡ (band_exists s b && ltb 0 (lines s row (b / s.nc) (b % s.nc))) }
{
    let band = band_of(s, b / s.nc, b % s.nc);
    reach_of(band, row, 0).present
}
