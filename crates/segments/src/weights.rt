// The weights table.
ghost use Rattle.std.specs.Prelude.{◌≡◌, ◌≤◌, ◌<◌, ◌^◌};
ghost use Rattle.rows.specs.Rows.{first};
ghost use Rattle.picture.specs.Picture.{Built};
ghost use Rattle.segments.specs.Bands.{bands};
ghost use Rattle.segments.specs.Weights.{band_in, bands_in, gain_row, gain_checks};

use crate::components::sy_at;
use layout::bands::{filter_type, filter_types, first_line_divides};
use picture::picture::Picture;
use rows::{Check, Field, Row, Verdict};

// The number of bands, existing or not.
pub fn band_count(h: Picture) -> usize
    requires { Built h }
    ensures { (result ≡ bands h.nc h.nlx h.nly) × (result ≤ 40) }
{
    h.nc * filter_types(h.nlx, h.nly)
}

// Whether band b exists, by the component table at `cdt`.
pub fn band_exists(s: &[u8], h: Picture, cdt: usize, b: usize) -> bool
    requires { Built h × (cdt < 2 ^ 32) × (b < bands h.nc h.nlx h.nly) }
    ensures { result ≡ band_in s.now h cdt b }
{
    let nc = h.nc;
    let f = filter_type(h.nlx, h.nly, b / nc);
    first_line_divides(f, h.nly, sy_at(s, cdt, b % nc))
}

// The number of existing bands.
pub(crate) fn existing_bands(s: &[u8], h: Picture, cdt: usize) -> usize
    requires { Built h × (cdt < 2 ^ 32) }
    ensures { (result ≡ bands_in s.now h cdt) × (result ≤ 40) }
{
    let mut n = 0;
    for b in 0..band_count(h) {
        n += usize::from(band_exists(s, h, cdt, b));
    }
    n
}

// The gain of the existing band k.
fn gain_row(s: &[u8], p: usize, k: usize) -> Verdict
    requires { (p < 2 ^ 32) × (k < 256) }
    ensures { result ≡ first (gain_row s.now p k) }
{
    let place = p + 4 + 2 * k;
    let gain = bits::u8_at(s, place);
    rows::first(&[Check(Row::Value, place, Field::G, gain, 0, 15)])
}

// The gains of n bands in the table at p.
pub(crate) fn gains_row(s: &[u8], p: usize, n: usize) -> Verdict
    requires { (p < 2 ^ 32) × (n < 256) }
    ensures { result ≡ first (gain_checks s.now p n) }
{
    for k in 0..n {
        gain_row(s, p, k)?;
    }
    Ok(())
}
