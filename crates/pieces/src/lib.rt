// Document 02, C-16: where the bytes of a stream went, by what they hold.
#![tactic(auto)]

ghost use Rattle.std.specs.Prelude.{[], ◌∷◌, ◌≡◌, ◌+◌, ◌<◌, ◌^◌};
ghost use Rattle.pieces.specs.Pieces.{Markers, Precincts, Spoilt, bytes_of, plus, all, bytes_by};

use rows::Verdict;

// So many bytes of each kind: markers with their segments, slice headers and the end marker among them; precinct headers; packet headers; the content of
// significance, count, data and sign subpackets, each with its padding to the byte; filler behind a content; and the precincts of spoilt slices.
#[derive(Clone, Copy)]
pub struct Bytes {
    pub markers: usize,
    pub precincts: usize,
    pub packets: usize,
    pub significance: usize,
    pub counts: usize,
    pub data: usize,
    pub signs: usize,
    pub filler: usize,
    pub spoilt: usize,
}

pub const NOTHING: Bytes = Bytes {
    markers: 0,
    precincts: 0,
    packets: 0,
    significance: 0,
    counts: 0,
    data: 0,
    signs: 0,
    filler: 0,
    spoilt: 0,
};

impl Bytes {
    // So many bytes of markers and their segments.
    pub fn of_markers(size: usize) -> Bytes
        ensures { result ≡ bytes_of ((Markers, size) ∷ []) }
    {
        Bytes {
            markers: size,
            ..NOTHING
        }
    }

    // Of precinct headers.
    pub fn of_precincts(size: usize) -> Bytes
        ensures { result ≡ bytes_of ((Precincts, size) ∷ []) }
    {
        Bytes {
            precincts: size,
            ..NOTHING
        }
    }

    // Of the precincts of spoilt slices.
    pub fn of_spoilt(size: usize) -> Bytes
        ensures { result ≡ bytes_of ((Spoilt, size) ∷ []) }
    {
        Bytes {
            spoilt: size,
            ..NOTHING
        }
    }

    // These and others.
    pub fn and(self, other: Bytes) -> Bytes
        requires { all self + all other < 2 ^ 64 }
        ensures { result ≡ plus self other }
    {
        Bytes {
            markers: self.markers + other.markers,
            precincts: self.precincts + other.precincts,
            packets: self.packets + other.packets,
            significance: self.significance + other.significance,
            counts: self.counts + other.counts,
            data: self.data + other.data,
            signs: self.signs + other.signs,
            filler: self.filler + other.filler,
            spoilt: self.spoilt + other.spoilt,
        }
    }

    // These, where what has them is read. Of what is refused nothing is counted.
    pub fn by(self, v: Verdict) -> Bytes
        ensures { result ≡ bytes_by v self }
    {
        match v {
            Ok(()) => self,
            Err(_) => NOTHING,
        }
    }
}
