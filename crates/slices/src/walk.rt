// The walk by declared lengths: slices whose precincts are stepped over, whatever stands in them.
ghost use Rattle.std.specs.Prelude.{◌≡◌, ◌+◌, ◌≤◌, ◌<◌, ◌^◌, length};
ghost use Rattle.rows.specs.Rows.{Fine};
ghost use Rattle.layout.specs.Precincts.{slices};
ghost use Rattle.packets.specs.Ready.{Settled};
ghost use Rattle.slices.specs.Slice.{slice_header_bytes};
ghost use Rattle.slices.specs.Walk.{stepped, walk_turn, walk_precincts, walk_by, walk_slice, WalkTurned, Walks};

use crate::slice_row;
use layout::precincts::precincts_in_slice;
use packets::Setting;
use picture::segment::left;
use rows::{AMPLE, Check, Field, Row, Verdict};

// Where a walk stands: the verdict, and the next place, or the place of what is refused.
// No Result: `Walks` and `WalkTurned` promise the place of a walk that is refused too.
#[derive(Clone, Copy)]
pub struct Walked {
    pub verdict: Verdict,
    pub at: usize,
}

// A step from a place to another, or a refusal.
fn step(v: Verdict, at: usize, to: usize) -> Walked
    ensures { (stepped v at to ≡ stepped result.verdict result.at result.at) × (result.verdict ≡ v) × (v ≡ Fine → result.at ≡ to) }
{
    match v {
        Ok(()) => Walked { verdict: v, at: to },
        Err(_) => Walked { verdict: v, at },
    }
}

// Precinct n, whose header stands at `at`.
fn walk_turn(s: &[u8], c: Setting, n: usize, at: usize) -> Walked
    requires { Settled c × (length s.now < 2 ^ 32) × (at ≤ length s.now) }
    ensures { WalkTurned s.now (walk_turn s.now c n at) result }
{
    let header = c.head;
    let lprc = bits::u24_at(s, at);
    let size = header + lprc;
    let there = left(s, at);
    let v = rows::first(&[
        Check(Row::Cut, at, Field::Lprc, there, 3, AMPLE),
        Check(Row::Length, at, Field::Precinct, size, 0, there),
    ]);
    step(v, at, at + size)
}

// The precincts of slice t.
fn walk_precincts(s: &[u8], c: Setting, t: usize, at: usize) -> Walked
    requires { Settled c × (length s.now < 2 ^ 32) × (at ≤ length s.now) × (t < slices c.shape) }
    ensures { Walks s.now (walk_precincts s.now c t at) result }
{
    let count = precincts_in_slice(c.shape, t);
    let mut place = at;
    for n in 0..count {
        let r = walk_turn(s, c, n, place);
        let v = r.verdict;
        place = r.at;
        match v {
            Ok(()) => {}
            Err(_) => {
                return Walked {
                    verdict: v,
                    at: place,
                };
            }
        }
    }
    Walked {
        verdict: Ok(()),
        at: place,
    }
}

fn walk_by(v: Verdict, s: &[u8], c: Setting, t: usize, at: usize) -> Walked
    requires { Settled c × (length s.now < 2 ^ 32) × (t < slices c.shape) × (v ≡ Fine → at + slice_header_bytes ≤ length s.now) }
    ensures { Walks s.now (walk_by s.now c v t at) result }
{
    match v {
        Ok(()) => walk_precincts(s, c, t, at + 6),
        Err(_) => Walked { verdict: v, at },
    }
}

// Slice t, whose header stands at `at`.
pub fn walk_slice(s: &[u8], c: Setting, t: usize, at: usize) -> Walked
    requires { Settled c × (length s.now < 2 ^ 32) × (at ≤ length s.now) × (t < slices c.shape) }
    ensures { Walks s.now (walk_slice s.now c t at) result }
{
    let v = slice_row(s, t, at);
    walk_by(v, s, c, t, at)
}
