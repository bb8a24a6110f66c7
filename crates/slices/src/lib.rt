// Slices and their precincts, the walk by declared lengths, and the end marker. The loop over the slices stands in `damage`.
#![tactic(auto)]

pub mod precincts;
mod tops;
pub mod walk;

ghost use Rattle.std.specs.Prelude.{◌≡◌, ◌+◌, ◌≤◌, ◌<◌, ◌^◌, length};
ghost use Rattle.rows.specs.Rows.{first, Fine};
ghost use Rattle.pieces.specs.Pieces.{nothing, all};
ghost use Rattle.layout.specs.Precincts.{Np, slices};
ghost use Rattle.packets.specs.Ready.{Settled};
ghost use Rattle.slices.specs.Slice.{slice_header_bytes, slice_checks, precinct_turn, precincts, precincts_by, slice};
ghost use Rattle.slices.specs.Stream.{end_checks};
ghost use Rattle.slices.specs.Pieces.{placed_pieces, precincts_pieces, slice_pieces};
ghost use Rattle.slices.specs.Steps.{Lent, Turned, Read, Headed};

use layout::precincts::precincts_in_slice;
use packets::{Precinct, Setting};
use picture::marker::Marker;
use picture::segment::{Segment, left, length_row};
use pieces::{Bytes, NOTHING};
use rows::{AMPLE, Check, Field, Row, Verdict};

// Where a reading stands: the verdict, the next place, and the bands' largest T so far; and where the bytes went of what is read. The work cells stand beside it.
// No Result: `Read` and `Turned` promise the place and the largest T of a reading that is refused too.
#[derive(Clone, Copy)]
pub struct Reading {
    pub verdict: Verdict,
    pub at: usize,
    pub tops: [usize; 40],
    pub bytes: Bytes,
}

// The header of slice t.
pub fn slice_row(s: &[u8], t: usize, at: usize) -> Verdict
    requires { at < 2 ^ 32 }
    ensures { result ≡ first (slice_checks s.now t at) }
{
    let g = Segment::read(s, at);
    rows::first(&[
        Check(Row::Cut, g.at, Field::Slh, g.left, 2, AMPLE),
        Check(
            Row::Marker,
            g.at,
            Field::Slh,
            g.marker,
            Marker::SLH,
            Marker::SLI,
        ),
        Check(
            Row::Lacking,
            g.at,
            Field::Slh,
            g.marker,
            Marker::SLH,
            Marker::SLH,
        ),
    ])?;
    length_row(g, Field::Lslh, 4, 4)?;
    let index = bits::u16_at(s, at + 4);
    rows::first(&[Check(Row::Value, at + 4, Field::Ysl, index, t, t)])
}

// What stands at `at` is refused: nothing of it is read.
pub fn stopped(v: Verdict, at: usize, tops: [usize; 40]) -> Reading
    ensures { (result.verdict ≡ v) × (result.at ≡ at) × (result.tops ≡ tops) × (result.bytes ≡ nothing) }
{
    Reading {
        verdict: v,
        at,
        tops,
        bytes: NOTHING,
    }
}

// Precinct n of slice t, whose header stands at `at`.
fn precinct_turn(
    s: &[u8],
    cells: &mut [i64],
    c: Setting,
    t: usize,
    n: usize,
    at: usize,
    tops: [usize; 40],
) -> Reading
    requires { Lent s.now c at (length cells.old) × (t < slices c.shape) × (n < Np c.shape t) }
    ensures { Turned s.now (precinct_turn s.now c t n (at, tops, cells.old)) (placed_pieces s.now c t n (at, tops, cells.old)) result cells.new }
{
    let shape = c.shape;
    let top = t * shape.hsl;
    let p = precincts::precinct_in(s, c, t, n, at);
    match precincts::precinct(s, cells, c, p, p.row == top) {
        Ok(bytes) => Reading {
            verdict: Ok(()),
            at: p.end,
            tops: tops::raised(c, p, tops),
            bytes,
        },
        Err(k) => stopped(Err(k), at, tops),
    }
}

// The precincts of slice t.
pub fn all_precincts(
    s: &[u8],
    cells: &mut [i64],
    c: Setting,
    t: usize,
    at: usize,
    tops: [usize; 40],
) -> Reading
    requires { Lent s.now c at (length cells.old) × (t < slices c.shape) }
    ensures { Read s.now (precincts s.now c t (at, tops, cells.old)) (precincts_pieces s.now c t (at, tops, cells.old)) result cells.new }
{
    let count = precincts_in_slice(c.shape, t);
    let mut place = at;
    let mut most = tops;
    let mut bytes = NOTHING;
    for n in 0..count {
        let r = precinct_turn(s, cells, c, t, n, place, most);
        let v = r.verdict;
        place = r.at;
        let raised = r.tops;
        most = raised;
        match v {
            Ok(()) => {
                let more = r.bytes;
                bytes = bytes.and(more);
            }
            Err(_) => {
                return stopped(v, place, most);
            }
        }
    }
    Reading {
        verdict: Ok(()),
        at: place,
        tops: most,
        bytes,
    }
}

// The precincts of a slice, and its header.
pub fn with_header(r: Reading) -> Reading
    requires { all r.bytes < 2 ^ 32 }
    ensures { Headed r result }
{
    let v = r.verdict;
    let tops = r.tops;
    let bytes = r.bytes;
    let header = Bytes::of_markers(6);
    let more = header.and(bytes);
    Reading {
        verdict: v,
        at: r.at,
        tops,
        bytes: more.by(v),
    }
}

fn precincts_by(
    v: Verdict,
    s: &[u8],
    cells: &mut [i64],
    c: Setting,
    t: usize,
    at: usize,
    tops: [usize; 40],
) -> Reading
    requires { Lent s.now c at (length cells.old) × (t < slices c.shape) × (v ≡ Fine → at + slice_header_bytes ≤ length s.now) }
    ensures { Read s.now (precincts_by s.now c t v (at, tops, cells.old)) (slice_pieces s.now c t (at, tops, cells.old)) result cells.new }
{
    match v {
        Ok(()) => with_header(all_precincts(s, cells, c, t, at + 6, tops)),
        Err(_) => stopped(v, at, tops),
    }
}

// Slice t, whose header stands at `at`. `tops` are the bands' largest T of the slices before.
pub fn slice(
    s: &[u8],
    cells: &mut [i64],
    c: Setting,
    t: usize,
    at: usize,
    tops: [usize; 40],
) -> Reading
    requires { Lent s.now c at (length cells.old) × (t < slices c.shape) }
    ensures { Read s.now (slice s.now c t (at, tops, cells.old)) (slice_pieces s.now c t (at, tops, cells.old)) result cells.new }
{
    let v = slice_row(s, t, at);
    precincts_by(v, s, cells, c, t, at, tops)
}

// The end marker, and nothing behind it.
pub fn end_row(s: &[u8], at: usize) -> Verdict
    requires { at < 2 ^ 32 }
    ensures { result ≡ first (end_checks s.now at) }
{
    let there = left(s, at);
    let marker = bits::u16_at(s, at);
    let behind = left(s, at + 2);
    rows::first(&[
        Check(Row::Cut, at, Field::Eoc, there, 2, AMPLE),
        Check(
            Row::Marker,
            at,
            Field::Eoc,
            marker,
            Marker::EOC,
            Marker::EOC,
        ),
        Check(Row::Marker, at + 2, Field::Tail, behind, 0, 0),
    ])
}
