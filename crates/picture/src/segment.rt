// What every marker segment begins with: a marker and a length.
ghost use Rattle.std.specs.Prelude.{◌≡◌, ◌+◌, ◌-◌, ◌<◌, ◌^◌, length};
ghost use Rattle.rows.specs.Rows.{first};
ghost use Rattle.picture.specs.Segment.{marker_checks, length_checks, IsSegment};

use rows::{AMPLE, Check, Field, Row, Verdict};

// A segment's marker and length.
#[derive(Clone, Copy)]
pub struct Segment {
    // the marker's place
    pub at: usize,
    // bytes left there
    pub left: usize,
    pub marker: usize,
    // bytes left at the length field
    pub rest: usize,
    // the length: it counts its own two bytes and not the marker
    pub size: usize,
}

// The bytes left at a place.
pub fn left(s: &[u8], at: usize) -> usize
    ensures { result ≡ length s.now - at }
{
    s.len().saturating_sub(at)
}

impl Segment {
    // The segment at a place.
    pub fn read(s: &[u8], at: usize) -> Self
        requires { at + 2 < 2 ^ 64 }
        ensures { IsSegment s.now at result }
    {
        Self {
            at,
            left: left(s, at),
            marker: bits::u16_at(s, at),
            rest: left(s, at + 2),
            size: bits::u16_at(s, at + 2),
        }
    }
}

// A segment whose marker is fixed.
pub(crate) fn marker_row(g: Segment, field: Field, code: usize) -> Verdict
    ensures { result ≡ first (marker_checks g field code) }
{
    rows::first(&[
        Check(Row::Cut, g.at, field, g.left, 2, AMPLE),
        Check(Row::Marker, g.at, field, g.marker, code, code),
    ])
}

// The length of a segment, and that it ends in the stream.
pub fn length_row(g: Segment, field: Field, least: usize, most: usize) -> Verdict
    requires { g.at + 2 < 2 ^ 64 }
    ensures { result ≡ first (length_checks g field least most) }
{
    let p = g.at + 2;
    rows::first(&[
        Check(Row::Cut, p, field, g.rest, 2, AMPLE),
        Check(Row::Cut, p, field, g.rest, g.size, AMPLE),
        Check(Row::Value, p, field, g.size, least, most),
    ])
}
