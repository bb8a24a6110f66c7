// Document 01, distance rule 1: the largest T of each band.
ghost use Rattle.std.specs.Prelude.{◌≡◌, ◌<◌};
ghost use Rattle.layout.specs.Bands.{NL};
ghost use Rattle.layout.specs.Precincts.{Npy};
ghost use Rattle.packets.specs.Ready.{Settled};
ghost use Rattle.slices.specs.Precinct.{raised_by, raised};

use layout::headers::band_count;
use layout::lines::has_lines;
use packets::bands::truncation_of;
use packets::{Precinct, Setting};

// The largest T of a band so far, and the band's T in this precinct where it has coefficients there.
fn raised_at(c: Setting, p: Precinct, b: usize, top: usize) -> usize
    requires { Settled c × (p.row < Npy c.shape) × (b < NL c.shape) }
    ensures { result ≡ raised_by c p b top }
{
    if has_lines(c.shape, p.row, b) {
        top.max(truncation_of(c, p, b))
    } else {
        top
    }
}

// The largest T of all bands, with those of one precinct more.
pub fn raised(c: Setting, p: Precinct, tops: [usize; 40]) -> [usize; 40]
    requires { Settled c × (p.row < Npy c.shape) }
    ensures { result ≡ raised c p (NL c.shape) tops }
{
    let mut out = tops;
    for b in 0..band_count(c.shape) {
        out[b] = raised_at(c, p, b, tops[b]);
    }
    out
}
