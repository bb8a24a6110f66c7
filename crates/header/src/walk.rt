// From the picture header to the first slice header.
ghost use Rattle.std.specs.Prelude.{◌≡◌, ◌<◌, ◌≤◌, ◌^◌, length};
ghost use Rattle.picture.specs.Picture.{Built};
ghost use Rattle.header.specs.Walk.{is_caption, ended, behind, accepted, judged, step};
ghost use Rattle.header.specs.Turns.{begun, Inside, IsWalk};

use picture::marker::Extension;
use picture::picture::Picture;
use picture::segment::Segment;
use rows::Verdict;
use segments::kinds::{Kind, kind_of};
use segments::seen::Seen;
use segments::tables::segment_row;

// Where the walk is, whether it has ended, with which verdict, and what it has seen. One record with a flag, since the steps of specs/Walk and Turns are said of
// it, and say place and segments of a refused walk too.
#[derive(Clone, Copy)]
pub struct Walk {
    // the place of the segment at hand
    pub at: usize,
    pub done: bool,
    pub verdict: Verdict,
    pub seen: Seen,
}

impl Walk {
    // Nothing is seen yet.
    fn begin(at: usize) -> Self
        ensures { result ≡ begun at }
    {
        Self {
            at,
            done: false,
            verdict: Ok(()),
            seen: Seen::none(),
        }
    }

    // The end, at a place.
    pub(crate) fn end(verdict: Verdict, at: usize, seen: Seen) -> Self
        ensures { result ≡ ended verdict at seen }
    {
        Self {
            at,
            done: true,
            verdict,
            seen,
        }
    }

    // On behind the segment g.
    fn behind(g: Segment, seen: Seen) -> Self
        requires { (g.at < 2 ^ 32) × (g.size < 2 ^ 16) }
        ensures { result ≡ behind g seen }
    {
        Self {
            at: g.at + 2 + g.size,
            done: false,
            verdict: Ok(()),
            seen,
        }
    }
}

// Whether the extension at the place p is a bench caption.
fn is_caption(s: &[u8], p: usize) -> bool
    requires { p < 2 ^ 32 }
    ensures { result ≡ is_caption s.now p }
{
    bits::u16_at(s, p + 4) == Extension::CAPTION
}

// An accepted segment.
fn accept(kind: Kind, s: &[u8], g: Segment, x: Seen) -> Walk
    requires { (g.at < 2 ^ 32) × (g.size < 2 ^ 16) }
    ensures { result ≡ accepted kind s.now g x }
{
    match kind {
        Kind::Components => { Walk::behind(g, Seen { cdt: g.at, ..x }) }
        Kind::Weights => { Walk::behind(g, Seen { wgt: g.at, ..x }) }
        Kind::Extension => {
            let caption = is_caption(s, g.at) || x.caption;
            Walk::behind(g, Seen { caption, ..x })
        }
        Kind::Registration => { Walk::behind(g, Seen { crg: g.at, ..x }) }
        Kind::Undecomposed => { Walk::behind(g, Seen { cwd: g.at, ..x }) }
        Kind::Unbuilt(_) | Kind::Slice | Kind::Predicted | Kind::Unknown => {
            Walk::end(Ok(()), g.at, x)
        }
    }
}

// A segment with its verdict.
fn judge(v: Verdict, kind: Kind, s: &[u8], g: Segment, x: Seen) -> Walk
    requires { (g.at < 2 ^ 32) × (g.size < 2 ^ 16) }
    ensures { result ≡ judged v kind s.now g x }
{
    match v {
        Ok(()) => accept(kind, s, g, x),
        Err(_) => Walk::end(v, g.at, x),
    }
}

// The segment at hand.
fn step(s: &[u8], h: Picture, w: Walk) -> Walk
    requires { Built h × (length s.now < 2 ^ 32) × Inside s.now w }
    ensures { result ≡ step s.now h w }
{
    let x = w.seen;
    let g = Segment::read(s, w.at);
    let v = segment_row(s, h, x, g);
    judge(v, kind_of(g.marker), s, g, x)
}

// From the place p to the first slice marker, or to what is refused first. Each segment takes bytes, so this ends.
pub(crate) fn walk_from(s: &[u8], h: Picture, p: usize) -> Walk
    requires { Built h × (length s.now < 2 ^ 32) × (p ≤ length s.now) }
    ensures { IsWalk s.now h p result }
{
    let mut w = Walk::begin(p);
    // no count to run over: where the next segment begins is known when this one is read
    while !w.done {
        w = step(s, h, w);
    }
    w
}
