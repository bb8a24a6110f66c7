// The slices of a page, from the first slice header to the end of the stream. In the mode of document 02's C-15 a spoilt slice's coefficients are lost, and the
// reading goes on behind it.
#![tactic(auto)]

pub mod lost;

ghost use Rattle.std.specs.Prelude.{◌≡◌, ◌≤◌, ◌<◌, ◌^◌, length};
ghost use Rattle.pieces.specs.Pieces.{all};
ghost use Rattle.layout.specs.Built.{Built};
ghost use Rattle.layout.specs.Cells.{start};
ghost use Rattle.layout.specs.Precincts.{slices};
ghost use Rattle.slices.specs.Walk.{walk_slice};
ghost use Rattle.slices.specs.Steps.{Lent, Turned};
ghost use Rattle.damage.specs.Stream.{behind_slice, stepped_over, damaged_turn, turn_by, stream_by};
ghost use Rattle.damage.specs.Pieces.{damaged_pieces, pieces_by, stream_pieces_by};
ghost use Rattle.damage.specs.Steps.{Onward, behind_bytes, IsEnd, Streamed};

use crate::lost::lose;
use layout::precincts::slice_count;
use packets::Setting;
use pieces::{Bytes, NOTHING};
use rows::Verdict;
use slices::walk::walk_slice;
use slices::{Reading, all_precincts, end_row, stopped, with_header};

// Behind slice t, whose precincts stand from `from` on and leave r. `to` is where their declared lengths lead, and `tops` are the bands' largest T of the slices
// before.
fn behind_slice(
    r: Reading,
    cells: &mut [i64],
    c: Setting,
    t: usize,
    from: usize,
    to: usize,
    tops: [usize; 40],
) -> Reading
    requires { Built c.shape × (t < slices c.shape) × (start c.shape c.shape.nc ≤ length cells.old) × (from ≤ to) × (to < 2 ^ 32) }
    ensures { Onward (behind_slice c t to tops (r.verdict, (r.at, r.tops, cells.old))) (behind_bytes r.verdict from to r.bytes) result cells.new }
{
    let v = r.verdict;
    match v {
        Ok(()) => r,
        Err(_) => {
            lose(cells, c.shape, t);
            let header = Bytes::of_markers(6);
            Reading {
                verdict: Ok(()),
                at: to,
                tops,
                bytes: header.and(Bytes::of_spoilt(to - from)),
            }
        }
    }
}

// Slice t, whose walk has the verdict v and leads to `to`.
fn stepped_over(
    v: Verdict,
    s: &[u8],
    cells: &mut [i64],
    c: Setting,
    t: usize,
    at: usize,
    to: usize,
    tops: [usize; 40],
) -> Reading
    requires { Lent s.now c at (length cells.old) × (t < slices c.shape) × (walk_slice s.now c t at ≡ (v, to)) }
    ensures { Turned s.now (stepped_over s.now c t (at, tops, cells.old) (v, to)) (damaged_pieces s.now c t (at, tops, cells.old)) result cells.new }
{
    match v {
        Ok(()) => {
            let from = at + 6;
            let r = with_header(all_precincts(s, cells, c, t, from, tops));
            behind_slice(r, cells, c, t, from, to, tops)
        }
        Err(_) => stopped(v, at, tops),
    }
}

// Slice t of a damaged page, whose header stands at `at`. The walk comes first, so that nothing has to tell one refusal from another.
fn damaged_slice(
    s: &[u8],
    cells: &mut [i64],
    c: Setting,
    t: usize,
    at: usize,
    tops: [usize; 40],
) -> Reading
    requires { Lent s.now c at (length cells.old) × (t < slices c.shape) }
    ensures { Turned s.now (damaged_turn s.now c t (at, tops, cells.old)) (damaged_pieces s.now c t (at, tops, cells.old)) result cells.new }
{
    let w = walk_slice(s, c, t, at);
    let v = w.verdict;
    stepped_over(v, s, cells, c, t, at, w.at, tops)
}

// Slice t, in either mode.
fn slice(
    damaged: bool,
    s: &[u8],
    cells: &mut [i64],
    c: Setting,
    t: usize,
    at: usize,
    tops: [usize; 40],
) -> Reading
    requires { Lent s.now c at (length cells.old) × (t < slices c.shape) }
    ensures { Turned s.now (turn_by s.now c damaged t (at, tops, cells.old)) (pieces_by s.now c damaged t (at, tops, cells.old)) result cells.new }
{
    if damaged {
        damaged_slice(s, cells, c, t, at, tops)
    } else {
        slices::slice(s, cells, c, t, at, tops)
    }
}

// Behind the last slice, where `bytes` are counted: the end marker, and nothing behind it.
fn behind_all(s: &[u8], at: usize, tops: [usize; 40], bytes: Bytes) -> Reading
    requires { (at < 2 ^ 32) × (all bytes < 2 ^ 32) }
    ensures { IsEnd s.now at tops bytes result }
{
    let v = end_row(s, at);
    let whole = bytes.and(Bytes::of_markers(2));
    Reading {
        verdict: v,
        at: at + 2,
        tops,
        bytes: whole.by(v),
    }
}

// All slices from the first, whose header stands at `at`, and the end of the stream.
pub fn stream(
    damaged: bool,
    s: &[u8],
    cells: &mut [i64],
    c: Setting,
    at: usize,
    tops: [usize; 40],
) -> Reading
    requires { Lent s.now c at (length cells.old) }
    ensures { Streamed (stream_by s.now c damaged (at, tops, cells.old)) (stream_pieces_by s.now c damaged (at, tops, cells.old)) result cells.new }
{
    let shape = c.shape;
    let count = slice_count(shape);
    let mut place = at;
    let mut most = tops;
    let mut bytes = NOTHING;
    for t in 0..count {
        let r = slice(damaged, s, cells, c, t, place, most);
        let v = r.verdict;
        place = r.at;
        let raised = r.tops;
        most = raised;
        match v {
            Ok(()) => {
                let more = r.bytes;
                bytes = bytes.and(more);
            }
            Err(_) => {
                return stopped(v, place, most);
            }
        }
    }
    behind_all(s, place, most, bytes)
}
