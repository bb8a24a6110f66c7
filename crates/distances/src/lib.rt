// Document 01's distance rule: how far a component's samples may be from those of the coefficients that were coded.
#![tactic(auto)]

ghost use Rattle.std.specs.Prelude.{◌≡◌, cond, ◌+◌, ◌-◌, ◌≤◌, ◌<◌, ◌^◌, ltb, get_or};
ghost use Rattle.whole.specs.Cells.{listed};
ghost use Rattle.quantiser.specs.Distance.{band_number};
ghost use Rattle.wavelet.specs.Transform.{LL, HL, down};
ghost use Rattle.wavelet.specs.Distance.{joined};
ghost use Rattle.output.specs.Linear.{distance, Precisions};
ghost use Rattle.layout.specs.Bands.{Nβ, band};
ghost use Rattle.layout.specs.Built.{Built};
ghost use Rattle.distances.specs.Rule.{type_of, number_of, component_number_of, coloured_number, of_four, distances_of, Stated};
ghost use Rattle.distances.specs.Steps.{across_turn, both_turn, Numbered, EachBelow};

use colour::Pixel;
use layout::Shape;
use layout::bands::component_of;

// Rule 1: the number of component i's band of filter type beta.
fn number_of(s: Shape, fq: usize, tops: [usize; 40], i: usize, beta: usize) -> u64
    requires { Numbered s fq tops × (i < s.nc) × (beta < Nβ s) }
    ensures { (result ≡ band_number (get_or tops (band s beta i) 0) fq) × (result < 2 ^ 46) }
{
    let b = s.nc * beta + i;
    quantiser::band_number(tops[b] as u64, fq as u64)
}

// Rule 2: a filter that joins a low part with number a and a high part with number h.
fn joined(a: u64, h: u64) -> u64
    requires { (a < 2 ^ 60) × (h < 2 ^ 60) }
    ensures { result ≡ joined a h }
{
    a + h + h.div_ceil(2)
}

// The filter type HL at depth d across.
fn type_across(s: Shape, d: usize) -> usize
    requires { Built s × (d ≤ s.nlx) }
    ensures { result ≡ type_of s HL d }
{
    if s.nly < d {
        return s.nlx - d + 1;
    }
    s.nlx - s.nly + 1 + 3 * (s.nly - d)
}

// The first loop of Table E.1: the levels across alone, from the band LL on.
fn across_numbers(s: Shape, fq: usize, tops: [usize; 40], i: usize, ny: usize) -> u64
    requires { Numbered s fq tops × (i < s.nc) × (ny ≤ s.nlx) }
    ensures { (result ≡ down (across_turn s fq tops i ny) ny (s.nlx - ny) (number_of s fq tops i LL s.nlx ny)) × (result < 2 ^ 52) }
{
    let mut low = number_of(s, fq, tops, i, 0);
    for d in (ny + 1..=s.nlx).rev() {
        let hl = number_of(s, fq, tops, i, type_across(s, d));
        low = joined(low, hl);
    }
    low
}

// A level of both directions: HL, LH and HH follow one another.
fn both_number(s: Shape, fq: usize, tops: [usize; 40], i: usize, d: usize, low: u64) -> u64
    requires { Numbered s fq tops × (i < s.nc) × (0 < d) × (d ≤ s.nly) × (low < 2 ^ 54) }
    ensures { (result ≡ both_turn s fq tops i d low) × (result < low + 2 ^ 49) }
{
    let beta = type_across(s, d);
    let hl = number_of(s, fq, tops, i, beta);
    let lh = number_of(s, fq, tops, i, beta + 1);
    let hh = number_of(s, fq, tops, i, beta + 2);
    joined(joined(low, hl), joined(lh, hh))
}

// The second loop of Table E.1: the levels of both directions.
fn both_numbers(s: Shape, fq: usize, tops: [usize; 40], i: usize, ny: usize, first: u64) -> u64
    requires { Numbered s fq tops × (i < s.nc) × (ny ≤ s.nly) × (first < 2 ^ 52) }
    ensures { result ≡ down (both_turn s fq tops i) 0 ny first }
{
    let mut low = first;
    for d in (1..=ny).rev() {
        low = both_number(s, fq, tops, i, d, low);
    }
    low
}

// Rules 1 and 2: component i's number, 0 where there is none.
fn component_number(s: Shape, fq: usize, tops: [usize; 40], i: usize) -> u64
    requires { Numbered s fq tops }
    ensures { result ≡ cond (ltb i s.nc) (component_number_of s fq tops i) 0 }
{
    if s.nc <= i {
        return 0;
    }
    let c = component_of(s, i);
    both_numbers(s, fq, tops, i, c.ny, across_numbers(s, fq, tops, i, c.ny))
}

// The numbers of four components.
fn component_numbers(s: Shape, fq: usize, tops: [usize; 40]) -> [u64; 4]
    requires { Numbered s fq tops }
    ensures { result ≡ of_four s.nc (component_number_of s fq tops) }
{
    let mut e = [0; 4];
    for (i, n) in e.iter_mut().enumerate() {
        *n = component_number(s, fq, tops, i);
    }
    e
}

// Rule 3.
fn coloured_numbers(e: [u64; 4], cpih: usize) -> [u64; 4]
    requires { EachBelow (2 ^ 52) e }
    ensures { result ≡ listed 4 (coloured_number cpih (λ i. get_or e i 0)) }
{
    if cpih == 1 {
        let r = colour::numbers_rct(Pixel {
            c0: e[0],
            c1: e[1],
            c2: e[2],
        });
        return [r.c0, r.c1, r.c2, e[3]];
    }
    e
}

// Rules 4 and 5: the distance of component i, whose number is e; 0 where there is none.
fn distance_at(nc: usize, i: usize, e: u64, bw: usize, b: usize) -> usize
    requires { (e < 2 ^ 60) × (i < nc → Precisions bw b) }
    ensures { result ≡ cond (ltb i nc) (distance bw b e) 0 }
{
    if nc <= i {
        return 0;
    }
    output::distance_of(e, bw as u64, b as u64) as usize
}

// The distance of each component, by all five rules: 0 where there is none.
pub fn distances(
    s: Shape,
    fq: usize,
    cpih: usize,
    bw: usize,
    depth: [usize; 4],
    tops: [usize; 40],
) -> [usize; 4]
    requires { Stated s fq cpih bw depth tops }
    ensures { result ≡ distances_of s fq cpih bw (λ i. get_or depth i 0) tops }
{
    let e = coloured_numbers(component_numbers(s, fq, tops), cpih);
    let mut r = [0; 4];
    for (i, d) in r.iter_mut().enumerate() {
        *d = distance_at(s.nc, i, e[i], bw, depth[i]);
    }
    r
}
