// The first three segments, in their order.
ghost use Rattle.std.specs.Prelude.{◌≡◌, ◌<◌, ◌^◌};
ghost use Rattle.rows.specs.Rows.{first};
ghost use Rattle.picture.specs.Opening.{start_checks, picture_checks, IsOpening};
ghost use Rattle.picture.specs.Picture.{picture_at};

use crate::marker::Marker;
use crate::picture::{Picture, field_row};
use crate::segment::{Segment, length_row, marker_row};
use rows::{Field, Verdict};

// The verdict on the first three segments, and the picture header. They stand side by side, since `IsOpening` says place and picture of a refused opening too.
#[derive(Clone, Copy)]
pub struct Opening {
    pub verdict: Verdict,
    // the picture header's place
    pub place: usize,
    pub picture: Picture,
}

// The start of codestream and the capabilities.
fn start_row(s: &[u8]) -> Verdict
    ensures { result ≡ first (start_checks s.now) }
{
    marker_row(Segment::read(s, 0), Field::Soc, Marker::SOC)?;
    let g = Segment::read(s, 2);
    marker_row(g, Field::Cap, Marker::CAP)?;
    length_row(g, Field::Lcap, 2, 0xffff)
}

// The picture header at p.
fn picture_row(s: &[u8], p: usize, h: Picture) -> Verdict
    requires { (p < 2 ^ 32) × (h ≡ picture_at s.now p) }
    ensures { result ≡ first (picture_checks s.now p) }
{
    let g = Segment::read(s, p);
    marker_row(g, Field::Pih, Marker::PIH)?;
    length_row(g, Field::Lpih, 26, 26)?;
    field_row(s.len(), p, h)
}

impl Opening {
    // Of a stream.
    pub fn read(s: &[u8]) -> Self
        ensures { IsOpening s.now result }
    {
        let place = 4 + bits::u16_at(s, 4);
        let picture = Picture::read(s, place);
        Self {
            verdict: start_row(s).and(picture_row(s, place, picture)),
            place,
            picture,
        }
    }
}
