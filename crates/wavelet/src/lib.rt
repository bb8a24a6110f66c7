// Annex E: the inverse 5-3 wavelet transform of one component, in place. Coefficients stand where the samples that they become will be, so
// nothing is moved and no scratch row is needed: a level filters the lines of a grid that is twice as fine as the one before.
// Samples and distance numbers (`Kind`) go the same way: every loop serves each kind, by the steps that specs/Kinds gives it.
#![tactic(auto)]

ghost use Rattle.std.specs.Prelude.{◌≡◌, ◌+◌, ◌*◌, ◌-◌, ◌^◌, ◌<◌, ◌≤◌, length};
ghost use Rattle.wavelet.specs.Transform.{low_size};
ghost use Rattle.wavelet.specs.Places.{Component};
ghost use Rattle.wavelet.specs.Kinds.{steps_of, ValuesWithin, Inverted};
ghost use Rattle.wavelet.specs.Grids.{Gridded, Pass, Row, SamplesWithin, RowLevels, AcrossLevels, BothLevels, level_band};

mod lines;

use whole::Kind;

// ceil(n / 2^d): how many of n places are multiples of 2^d.
pub fn low_size(n: usize, d: usize) -> usize
    requires { (n < 2 ^ 60) × (d ≤ 5) }
    ensures { result ≡ low_size n d }
{
    n.div_ceil(1 << d)
}

// The levels of one row of w cells from `base` on, from depth nx to ny, while it is in the cache.
fn row_levels(cells: &mut [i64], kind: Kind, w: usize, base: usize, nx: usize, ny: usize)
    requires { Row w base nx ny (2 ^ 40) cells.old }
    ensures { RowLevels (steps_of kind) w base nx ny (2 ^ 48) cells.old cells.new }
{
    for d in (ny..nx).rev() {
        lines::filter_line(cells, kind, base, 1 << d, low_size(w, d));
    }
}

// The first loop of Table E.1: the levels of the rows alone, from depth nx to ny, on every row that is a multiple of 2^ny.
fn across_levels(cells: &mut [i64], kind: Kind, w: usize, h: usize, nx: usize, ny: usize)
    requires component { Component w h nx ny (length cells.old) }
    requires samples_within { SamplesWithin w h (2 ^ 40) cells.old }
    ensures { AcrossLevels (steps_of kind) w h nx ny (2 ^ 48) cells.old cells.new }
{
    let m = low_size(h, ny);
    let step = w << ny;
    for q in 0..m {
        row_levels(cells, kind, w, q * step, nx, ny);
    }
}

// One level of both directions: the grid of depth d, along its rows and then along its columns.
fn both_level(cells: &mut [i64], kind: Kind, w: usize, h: usize, d: usize)
    requires pass { Pass w h d (length cells.old) }
    requires samples_within { SamplesWithin w h (2 ^ 58) cells.old }
    ensures { Gridded w h (2 ^ d) (2 ^ d) (level_band (steps_of kind) w h d cells.old) cells.old cells.new }
{
    let m = low_size(w, d);
    let n = low_size(h, d);
    lines::level(cells, kind, 1 << d, m, w << d, n);
}

// The second loop of Table E.1: the levels of both directions, from depth ny to 0.
fn both_levels(cells: &mut [i64], kind: Kind, w: usize, h: usize, nx: usize, ny: usize)
    requires component { Component w h nx ny (length cells.old) }
    requires samples_within { SamplesWithin w h (2 ^ 48) cells.old }
    ensures { BothLevels (steps_of kind) w h ny cells.old cells.new }
{
    for d in (0..ny).rev() {
        both_level(cells, kind, w, h, d);
    }
}

// The inverse transform of a component of h rows of w values of a kind, interleaved in their places, with nx levels across and ny down. Of distance
// numbers it is document 01's rule 2, place by place, and a number that is not 0 serves as a mark too (proofs/Marks).
pub fn inverse(cells: &mut [i64], kind: Kind, w: usize, h: usize, nx: usize, ny: usize)
    requires component { Component w h nx ny (length cells.old) }
    requires values_within { ValuesWithin kind w h (2 ^ 40) cells.old }
    ensures { Inverted kind w h nx ny cells.old cells.new }
{
    across_levels(cells, kind, w, h, nx, ny);
    both_levels(cells, kind, w, h, nx, ny);
}
