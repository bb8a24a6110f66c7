// Gains and priorities by band.
ghost use Rattle.std.specs.Prelude.{◌≡◌, cond, ◌<◌, ◌^◌};
ghost use Rattle.bits.specs.Fields.{field_at};
ghost use Rattle.picture.specs.Picture.{Built};
ghost use Rattle.header.specs.Header.{band_is, weights_of};

use picture::picture::Picture;
use segments::weights::{band_count, band_exists};

// By band: 0 where it does not exist. No picture has more than 40 bands.
#[derive(Clone, Copy)]
pub struct Weights {
    pub gains: [u8; 40],
    pub priorities: [u8; 40],
}

// Whether band b is one of the picture's, and exists.
fn is_band(s: &[u8], h: Picture, cdt: usize, b: usize) -> bool
    requires { Built h × (cdt < 2 ^ 32) }
    ensures { result ≡ band_is s.now h cdt b }
{
    b < band_count(h) && band_exists(s, h, cdt, b)
}

// The byte at a place, or 0.
fn byte_if(s: &[u8], is: bool, place: usize) -> u8
    ensures { result ≡ cond is (field_at s.now place 8) 0 }
{
    if is { bits::u8_at(s, place) as u8 } else { 0 }
}

impl Weights {
    // By the component table at `cdt` and the weights table at `wgt`.
    pub(crate) fn read(s: &[u8], h: Picture, cdt: usize, wgt: usize) -> Self
        requires { Built h × (cdt < 2 ^ 32) × (wgt < 2 ^ 32) }
        ensures { result ≡ weights_of s.now h cdt wgt }
    {
        let mut gains = [0u8; 40];
        let mut priorities = [0u8; 40];
        let mut k = 0;
        for b in 0..40 {
            let is = is_band(s, h, cdt, b);
            gains[b] = byte_if(s, is, wgt + 4 + 2 * k);
            priorities[b] = byte_if(s, is, wgt + 5 + 2 * k);
            k += usize::from(is);
        }
        Self { gains, priorities }
    }
}
