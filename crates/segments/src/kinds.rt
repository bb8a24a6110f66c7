// What a marker begins.
ghost use Rattle.std.specs.Prelude.{◌≡◌};
ghost use Rattle.segments.specs.Segments.{kind_of};

use picture::marker::Marker;
use rows::Field;

// The kinds of segments, and the slice headers.
#[derive(Clone, Copy)]
pub enum Kind {
    Components,
    Weights,
    Extension,
    Undecomposed,
    Registration,
    // a segment that this build lacks
    Unbuilt(Field),
    Slice,
    // a slice that may be predicted from another picture
    Predicted,
    Unknown,
}

// Table A.2.
pub fn kind_of(marker: usize) -> Kind
    ensures { result ≡ kind_of marker }
{
    match marker {
        Marker::CDT => Kind::Components,
        Marker::WGT => Kind::Weights,
        Marker::COM => Kind::Extension,
        Marker::NLT => Kind::Unbuilt(Field::Nlt),
        Marker::CWD => Kind::Undecomposed,
        Marker::CTS => Kind::Unbuilt(Field::Cts),
        Marker::CRG => Kind::Registration,
        Marker::TPC => Kind::Unbuilt(Field::Tpc),
        Marker::WGR => Kind::Unbuilt(Field::Wgr),
        Marker::SLH => Kind::Slice,
        Marker::SLI => Kind::Predicted,
        _ => Kind::Unknown,
    }
}
