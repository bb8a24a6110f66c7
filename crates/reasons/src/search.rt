// Where a component is coarsest: a search through its bands, and one through the precincts of the page.
ghost use Rattle.std.specs.Prelude.{◌≡◌, cond, ◌&&◌, ◌+◌, ◌%◌, ◌^◌, ◌≤◌, ◌<◌, eqb, get_or};
ghost use Rattle.layout.specs.Built.{Built};
ghost use Rattle.layout.specs.Bands.{NL};
ghost use Rattle.layout.specs.Precincts.{largest, Npy};
ghost use Rattle.packets.specs.Precincts.{T};
ghost use Rattle.packets.specs.Ready.{Settled};
ghost use Rattle.slices.specs.Precinct.{holds};
ghost use Rattle.slices.specs.Slice.{slice_header_bytes};
ghost use Rattle.loops.specs.Lowest.{lowest};
ghost use Rattle.reasons.specs.Coarsest.{per_slice, all, held_by, truncation_of, nowhere, coarse_of};
ghost use Rattle.reasons.specs.Steps.{Walked, Searched};

use crate::Coarse;
use layout::Shape;
use layout::headers::band_count;
use layout::lines::has_lines;
use layout::precincts::{precinct_columns, precinct_rows};
use packets::bands::truncation_of;
use packets::{Precinct, Setting};
use slices::precincts::precinct_in;

// A band's largest T where the band is of component i, and else 0.
fn own_top(nc: usize, i: usize, b: usize, top: usize) -> usize
    requires { 0 < nc }
    ensures { result ≡ cond (eqb (b % nc) i) top 0 }
{
    if b % nc == i { top } else { 0 }
}

// The largest T of component i, from that of each of n bands.
fn largest_of(tops: [usize; 40], nc: usize, n: usize, i: usize) -> usize
    requires { (0 < nc) × (n ≤ 40) }
    ensures { result ≡ largest (λ b. cond (eqb (b % nc) i) (get_or tops b 0) 0) n }
{
    let mut top: usize = 0;
    for b in 0..n {
        top = top.max(own_top(nc, i, b, tops[b]));
    }
    top
}

// Whether band b, whose largest T is t, is one of component i with the component's.
fn has_largest(nc: usize, i: usize, b: usize, t: usize, top: usize) -> bool
    requires { 0 < nc }
    ensures { result ≡ (eqb (b % nc) i && eqb t top) }
{
    (b % nc == i) & (t == top)
}

// The lowest band of component i whose largest T is the component's.
fn lowest_band(tops: [usize; 40], nc: usize, n: usize, i: usize, top: usize) -> usize
    requires { (0 < nc) × (n ≤ 40) }
    ensures { result ≡ lowest (λ b. eqb (b % nc) i && eqb (get_or tops b 0) top) n }
{
    for b in 0..n {
        if has_largest(nc, i, b, tops[b], top) {
            return b;
        }
    }
    n
}

// Whether a precinct holds band b with this T.
fn holds_with(c: Setting, p: Precinct, b: usize, top: usize) -> bool
    requires { Settled c × (p.row < Npy c.shape) × (b < NL c.shape) }
    ensures { result ≡ (holds c p b && eqb (T c p b) top) }
{
    has_lines(c.shape, p.row, b) && truncation_of(c, p, b) == top
}

// The precincts of a page, and of a slice that has all its rows.
fn precinct_count(s: Shape) -> usize
    requires { Built s }
    ensures { (result ≡ all s) × (result ≤ 2 ^ 28) }
{
    precinct_columns(s) * precinct_rows(s)
}

fn slice_size(s: Shape) -> usize
    requires { Built s }
    ensures { result ≡ per_slice s }
{
    precinct_columns(s) * s.hsl
}

// Where precinct n of a slice stands: the first one behind the slice's header.
fn past_header(n: usize, at: usize) -> usize
    requires { at < 2 ^ 60 }
    ensures { result ≡ cond (eqb n 0) (at + slice_header_bytes) at }
{
    if n == 0 { at + 6 } else { at }
}

// The lowest precinct of the page that holds band b with this T. Declared lengths lead from each precinct to the next.
fn lowest_precinct(s: &[u8], c: Setting, at: usize, b: usize, top: usize) -> usize
    requires { Walked s.now c at × (b < NL c.shape) }
    ensures { result ≡ lowest (λ p. held_by s.now c at p b && eqb (truncation_of s.now c at p b) top) (all c.shape) }
{
    let count = precinct_count(c.shape);
    let size = slice_size(c.shape);
    let mut place = at;
    for p in 0..count {
        let n = p % size;
        let q = precinct_in(s, c, p / size, n, past_header(n, place));
        if holds_with(c, q, b, top) {
            return p;
        }
        place = q.end;
    }
    count
}

// Of a component that the page has not.
pub fn nowhere() -> Coarse
    ensures { result ≡ nowhere }
{
    Coarse {
        band: 0,
        precinct: 0,
        truncation: 0,
    }
}

// Of component i, all 0 where there is none. `tops` has the largest T of each band.
pub fn coarsest_of(s: &[u8], c: Setting, at: usize, tops: [usize; 40], i: usize) -> Coarse
    requires { Searched s.now c at tops }
    ensures { result ≡ coarse_of s.now c at i }
{
    let shape = c.shape;
    let nc = shape.nc;
    if i < nc {
        let n = band_count(shape);
        let top = largest_of(tops, nc, n, i);
        let b = lowest_band(tops, nc, n, i, top);
        let p = lowest_precinct(s, c, at, b, top);
        Coarse {
            band: b,
            precinct: p,
            truncation: top,
        }
    } else {
        nowhere()
    }
}
