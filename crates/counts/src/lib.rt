// Annex C: the bitplane counts of one line of one band, from their stretch of a packet into the work cells.
#![tactic(auto)]

mod code;
pub mod group;
mod unpack;

ghost use Rattle.std.specs.Prelude.{◌≡◌, ◌^◌, ◌≤◌, ◌<◌, length};
ghost use Rattle.bits.specs.Groups.{Ncg, held, packed};
ghost use Rattle.counts.specs.declared.group.Mode.TheVariants.{Vertical};
ghost use Rattle.counts.specs.Lines.{count_cell, insignificant, unpack, line_counts, Ready};
ghost use Rattle.counts.specs.Steps.{is_raw, looked_at};

use crate::group::{Coding, Count, Fault, Mode};
use bits::group::{held, nibbles_of};

// Where the cells of a line lie: coefficient x at `first` + x `stride`, for x below `width`, its count `area` cells behind it, and the
// same coefficient one line up `up` cells before it.
#[derive(Clone, Copy)]
pub struct Place {
    pub first: usize,
    pub stride: usize,
    pub width: usize,
    pub area: usize,
    pub up: usize,
}

// Of a line that is read, the bit past it and the nibbles of data that its groups take.
#[derive(Clone, Copy)]
pub struct Counted {
    pub next: usize,
    pub need: usize,
}

// A count and a truncation position as a cell holds them.
fn to_hold(m: usize, t: usize) -> i64
    requires { (m ≤ 31) × (t ≤ 31) }
    ensures { result ≡ packed m t }
{
    (m + 32 * t) as i64
}

// The count cell of the code group g.
fn count_cell(p: Place, g: usize) -> usize
    requires { (g < 2 ^ 60) × (count_cell p g < 2 ^ 64) }
    ensures { result ≡ count_cell p g }
{
    p.first + 4 * g * p.stride + p.area
}

// Is the code group g in a significance group whose flag is set?
fn is_insignificant(sig: &[u8], c: Coding, z: usize, g: usize) -> bool
    requires { z < 2 ^ 60 }
    ensures { result ≡ insignificant sig.now c z g }
{
    c.flags && bits::bit(sig, z + g / 8) == 1
}

// Are the counts coded raw?
fn is_raw(mode: Mode) -> bool
    ensures { result ≡ is_raw mode }
{
    matches!(mode, Mode::Raw)
}

// What the cell that predicts the code group g holds: that of the line above, or, where nothing predicts, 0.
fn looked_at(cells: &[i64], mode: Mode, p: Place, g: usize) -> usize
    requires { (count_cell p g < length cells.now) × (g < 2 ^ 60) × (mode ≡ Vertical → p.up ≤ p.first) }
    ensures { result ≡ held (looked_at mode p g cells.now) }
{
    match mode {
        Mode::Raw | Mode::NoPrediction => 0,
        Mode::Vertical => held(cells[count_cell(p, g) - p.up]),
    }
}

// The count of the code group g, at the bit i of its stretch. One way serves for both predictions, so that no branch guesses between them.
fn group_at(
    stretch: &[u8],
    sig: &[u8],
    cells: &[i64],
    c: Coding,
    p: Place,
    z: usize,
    g: usize,
    i: usize,
) -> Result<Count, Fault>
    requires { Ready c p (length stretch.now) z (length cells.now) × (g < Ncg p.width) }
    ensures { result ≡ unpack c.mode stretch.now sig.now c p z g i cells.now }
{
    let mode = c.mode;
    if is_raw(mode) {
        return unpack::read_raw(stretch, c.br, i);
    }
    let above = looked_at(cells, mode, p, g);
    unpack::read_vertical(
        stretch,
        c,
        is_insignificant(sig, c, z, g),
        above % 32,
        above / 32 % 32,
        i,
    )
}

// The counts of a line, from the bit `at` of their stretch on; the line's significance flags stand in `sig` from the bit `sig_at` on.
pub fn line_counts(
    stretch: &[u8],
    sig: &[u8],
    cells: &mut [i64],
    coding: Coding,
    place: Place,
    at: usize,
    sig_at: usize,
) -> Result<Counted, Fault>
    requires { Ready coding place (length stretch.now) sig_at (length cells.old) }
    ensures { line_counts stretch.now sig.now coding place at sig_at cells.old ≡ (result, cells.new) }
{
    let groups = place.width.div_ceil(4);
    let mut i = at;
    let mut need: usize = 0;
    for g in 0..groups {
        let count = group_at(stretch, sig, cells, coding, place, sig_at, g, i)?;
        cells[count_cell(place, g)] = to_hold(count.m, coding.t);
        need += nibbles_of(count.m, coding.t, coding.fs);
        i = count.next;
    }
    Ok(Counted { next: i, need })
}
