// The checks of each kind of segment.
ghost use Rattle.std.specs.Prelude.{◌≡◌, ◌<◌, ◌^◌};
ghost use Rattle.rows.specs.Rows.{first};
ghost use Rattle.picture.specs.Picture.{Built};
ghost use Rattle.segments.specs.Segments.{head_checks, unknown_checks, once_checks, seen_checks, unbuilt_checks, table_checks, weight_checks, extension_checks, registration_checks, full_tail, undecomposed_checks, sd_checks, slice_checks, predicted_checks, checks_of, segment_checks, Placed};

use crate::components::{components_row, sx_at, sy_at};
use crate::kinds::{Kind, kind_of};
use crate::seen::{Seen, count};
use crate::weights::{existing_bands, gains_row};
use picture::marker::Marker;
use picture::picture::Picture;
use picture::segment::{Segment, length_row};
use rows::{AMPLE, Check, Field, Row, Verdict};

// Every segment: its marker is there.
fn head_row(g: Segment) -> Verdict
    ensures { result ≡ first (head_checks g) }
{
    rows::first(&[Check(Row::Cut, g.at, Field::Next, g.left, 2, AMPLE)])
}

// One that is unknown is refused.
fn unknown_row(g: Segment) -> Verdict
    ensures { result ≡ first (unknown_checks g) }
{
    let (least, most) = if Marker::WGR < g.marker {
        (Marker::SLH, Marker::SLI)
    } else {
        (Marker::CDT, Marker::WGR)
    };
    rows::first(&[Check(Row::Marker, g.at, Field::Next, g.marker, least, most)])
}

// Not twice.
fn once_row(field: Field, p: usize, seen: usize) -> Verdict
    ensures { result ≡ first (once_checks field p seen) }
{
    rows::first(&[Check(Row::Marker, p, field, 1 + count(seen), 1, 1)])
}

// Not missing.
fn seen_row(row: Row, field: Field, p: usize, seen: usize) -> Verdict
    ensures { result ≡ first (seen_checks row field p seen) }
{
    rows::first(&[Check(row, p, field, count(seen), 1, 1)])
}

// Not built.
fn unbuilt_row(field: Field, p: usize) -> Verdict
    ensures { result ≡ first (unbuilt_checks field p) }
{
    rows::first(&[Check(Row::Lacking, p, field, 1, 0, 0)])
}

// The component table, A.4.5.
fn table_row(s: &[u8], h: Picture, x: Seen, g: Segment) -> Verdict
    requires { Built h × Placed x g }
    ensures { result ≡ first (table_checks s.now h x g) }
{
    let size = 2 * h.nc + 2;
    once_row(Field::Cdt, g.at, x.cdt)?;
    length_row(g, Field::Lcdt, size, size)?;
    components_row(s, h, g.at)
}

// The weights table, A.4.12.
fn weight_row(s: &[u8], h: Picture, x: Seen, g: Segment) -> Verdict
    requires { Built h × Placed x g }
    ensures { result ≡ first (weight_checks s.now h x g) }
{
    let n = existing_bands(s, h, x.cdt);
    once_row(Field::Wgt, g.at, x.wgt)?;
    seen_row(Row::Lacking, Field::Cdt, g.at, x.cdt)?;
    length_row(g, Field::Lwgt, 2 + 2 * n, 2 + 2 * n)?;
    gains_row(s, g.at, n)
}

// An extension, A.4.11.
fn extension_row(s: &[u8], g: Segment) -> Verdict
    requires { g.at < 2 ^ 32 }
    ensures { result ≡ first (extension_checks s.now g) }
{
    let place = g.at + 4;
    let tcom = bits::u16_at(s, place);
    let most = if tcom < 0x8000 { 1 } else { 0xffff };
    length_row(g, Field::Lcom, 4, 0xffff)?;
    rows::first(&[Check(Row::Value, place, Field::Tcom, tcom, 0, most)])
}

// Component registration, A.4.9.
fn registration_row(h: Picture, x: Seen, g: Segment) -> Verdict
    requires { Built h × (g.at < 2 ^ 32) }
    ensures { result ≡ first (registration_checks h x g) }
{
    let size = 2 + 4 * h.nc;
    once_row(Field::Crg, g.at, x.crg)?;
    length_row(g, Field::Lcrg, size, size)
}

// How many components at the end are sampled at every grid point.
fn full_tail(s: &[u8], cdt: usize, n: usize) -> usize
    requires { (cdt < 2 ^ 32) × (n < 256) }
    ensures { result ≡ full_tail s.now cdt n }
{
    let mut tail = 0;
    for c in 0..n {
        let full = (sx_at(s, cdt, c) == 1) & (sy_at(s, cdt, c) == 1);
        tail = if full { tail + 1 } else { 0 };
    }
    tail
}

// Sd, of the segment that keeps components out of the wavelet.
fn sd_row(s: &[u8], h: Picture, x: Seen, g: Segment) -> Verdict
    requires { Built h × Placed x g }
    ensures { result ≡ first (sd_checks s.now h x g) }
{
    let p = g.at + 4;
    let sd = bits::u8_at(s, p);
    let tail = full_tail(s, x.cdt, h.nc);
    let most = if x.cdt == 0 { h.nc } else { tail };
    rows::first(&[
        Check(Row::Value, p, Field::Sd, sd, 1, h.nc - 1),
        Check(Row::Value, p, Field::Sd, sd, 1, most),
        Check(Row::Lacking, p, Field::Sd, sd, 0, 0),
    ])
}

// That segment, A.4.7.
fn undecomposed_row(s: &[u8], h: Picture, x: Seen, g: Segment) -> Verdict
    requires { Built h × Placed x g }
    ensures { result ≡ first (undecomposed_checks s.now h x g) }
{
    let most = if 3 < h.nc { 1 } else { 0 };
    let found = 1 + count(x.cwd);
    rows::first(&[Check(Row::Marker, g.at, Field::Cwd, found, most, most)])?;
    length_row(g, Field::Lcwd, 3, 3)?;
    sd_row(s, h, x, g)
}

// The first slice header, A.4.14: both tables stand before it.
fn slice_row(x: Seen, g: Segment) -> Verdict
    ensures { result ≡ first (slice_checks x g) }
{
    seen_row(Row::Marker, Field::Cdt, g.at, x.cdt)?;
    seen_row(Row::Marker, Field::Wgt, g.at, x.wgt)
}

// The same of a slice that may be predicted, A.4.15.
fn predicted_row(x: Seen, g: Segment) -> Verdict
    ensures { result ≡ first (predicted_checks x g) }
{
    slice_row(x, g)?;
    unbuilt_row(Field::Sli, g.at)
}

// The checks of a kind.
fn kind_row(kind: Kind, s: &[u8], h: Picture, x: Seen, g: Segment) -> Verdict
    requires { Built h × Placed x g }
    ensures { result ≡ first (checks_of kind s.now h x g) }
{
    match kind {
        Kind::Components => table_row(s, h, x, g),
        Kind::Weights => weight_row(s, h, x, g),
        Kind::Extension => extension_row(s, g),
        Kind::Undecomposed => undecomposed_row(s, h, x, g),
        Kind::Registration => registration_row(h, x, g),
        Kind::Unbuilt(field) => unbuilt_row(field, g.at),
        Kind::Slice => slice_row(x, g),
        Kind::Predicted => predicted_row(x, g),
        Kind::Unknown => unknown_row(g),
    }
}

// All checks of the segment g.
pub fn segment_row(s: &[u8], h: Picture, x: Seen, g: Segment) -> Verdict
    requires { Built h × Placed x g }
    ensures { result ≡ first (segment_checks s.now h x g) }
{
    head_row(g)?;
    kind_row(kind_of(g.marker), s, h, x, g)
}
