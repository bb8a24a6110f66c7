// The fields of a precinct header that stand once for each band (Table C.1), and what they make of a band's weights (Table C.12).
ghost use Rattle.std.specs.Prelude.{◌≡◌, count_by, ◌+◌, ◌*◌, ◌<◌, ◌≤◌, ◌^◌};
ghost use Rattle.std.specs.List.{range_with_len};
ghost use Rattle.layout.specs.Bands.{NL, band_exists};
ghost use Rattle.layout.specs.Built.{Built};
ghost use Rattle.layout.specs.Headers.{mode_bit, mode_bits, header_bytes_of, truncation};
ghost use Rattle.layout.specs.Sizes.{mode_width};

use crate::Shape;
use crate::bands::{band_of, filter_types};
use crate::numbers::power;

// How many bands there are, existing or not.
pub fn band_count(s: Shape) -> usize
    requires { Built s }
    ensures { (result ≡ NL s) × (result ≤ 40) }
{
    s.nc * filter_types(s.nlx, s.nly)
}

pub fn band_exists(s: Shape, b: usize) -> bool
    requires { Built s × (b < NL s) }
    ensures { result ≡ band_exists s b }
{
    band_of(s, b / s.nc, b % s.nc).exists
}

// How many of the bands below b exist.
fn modes_before(s: Shape, b: usize) -> usize
    requires { Built s × (b ≤ NL s) }
    ensures { result ≡ count_by (λ k. band_exists s k) (range_with_len 0 b) }
{
    (0..b).filter(|k| band_exists(s, *k)).count()
}

// The first bit, in a precinct header, of a band's coding mode.
pub fn bit_of_mode(s: Shape, b: usize) -> usize
    requires { Built s × (b ≤ NL s) }
    ensures { (result ≡ mode_bit s b) × (result ≤ 40 + 2 * b) }
{
    40 + 2 * modes_before(s, b)
}

// The bits of band b's coding mode, where there is such a band and it has one.
fn mode_width(s: Shape, b: usize) -> usize
    requires { Built s }
    ensures { result ≡ mode_width s b }
{
    if b < band_count(s) {
        return 2 * usize::from(band_exists(s, b));
    }
    0
}

// The first bits of all bands' coding modes, worked out once for a page: to count them anew for each line took a sixth of the time of a small page.
pub fn bits_of_modes(s: Shape) -> [u8; 40]
    requires { Built s }
    ensures { result ≡ mode_bits s }
{
    let mut bits: [u8; 40] = [0; 40];
    let mut bit = 40;
    for (b, place) in bits.iter_mut().enumerate() {
        *place = bit as u8;
        bit += mode_width(s, b);
    }
    bits
}

pub fn bytes_of_header(s: Shape) -> usize
    requires { Built s }
    ensures { (result ≡ header_bytes_of s) × (result ≤ 15) }
{
    bit_of_mode(s, band_count(s)).div_ceil(8)
}

// A band's truncation position, from a precinct's quantization q and refinement r.
pub fn truncation_of(q: usize, r: usize, gain: usize, priority: usize, br: usize) -> usize
    requires { (gain < 2 ^ 8) × (br ≤ 5) }
    ensures { (result ≡ truncation q r gain priority br) × (result ≤ 31) }
{
    let most = power(br) - 1;
    q.saturating_sub(gain + usize::from(priority < r)).min(most)
}
