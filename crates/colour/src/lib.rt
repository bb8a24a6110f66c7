// Annex F of ISO/IEC 21122-1, as far as it is built: the inverse reversible colour transform of F.3, on components 0 to 2, in place.
// Samples and distance numbers (`Kind`) go the same way, and one loop serves each kind.
#![tactic(auto)]

ghost use Rattle.std.specs.Prelude.{◌≡◌, ◌^◌, ◌≤◌, ◌<◌, length};
ghost use Rattle.whole.specs.declared.Kind.TheVariants.{Numbers};
ghost use Rattle.colour.specs.Rct.{inverse_rct, numbers_rct, Small};
ghost use Rattle.colour.specs.Kinds.{Holds, raised_rct, rct_of};
ghost use Rattle.colour.specs.Pass.{pixel, put, Stretches, HoldingNumbers, TransformedBy};

use whole::Kind;

// A value for each of a pixel's components 0, 1 and 2: what stands in its cells (i64), or its distance numbers (u64).
#[derive(Clone, Copy)]
pub struct Pixel<T> {
    pub c0: T,
    pub c1: T,
    pub c2: T,
}

// Table F.2 at one pixel.
fn inverse(i: Pixel<i64>) -> Pixel<i64>
    requires { Small (2 ^ 60) i }
    ensures { result ≡ inverse_rct i }
{
    let green = i.c0 - ((i.c1 + i.c2) >> 2);
    Pixel {
        c0: green + i.c2,
        c1: green,
        c2: green + i.c1,
    }
}

// Document 01's distance rule 3: the numbers of red, green and blue.
pub fn numbers_rct(e: Pixel<u64>) -> Pixel<u64>
    requires { (e.c0 ≤ 2 ^ 60) × (e.c1 ≤ 2 ^ 60) × (e.c2 ≤ 2 ^ 60) }
    ensures { result ≡ numbers_rct e }
{
    let green = e.c0 + (e.c1 + e.c2).div_ceil(4);
    Pixel {
        c0: green + e.c2,
        c1: green,
        c2: green + e.c1,
    }
}

// The same at a pixel that holds numbers.
fn raise(i: Pixel<i64>) -> Pixel<i64>
    requires { Small (2 ^ 60) i × Holds i }
    ensures { result ≡ raised_rct i }
{
    let e = numbers_rct(Pixel {
        c0: i.c0 as u64,
        c1: i.c1 as u64,
        c2: i.c2 as u64,
    });
    Pixel {
        c0: e.c0 as i64,
        c1: e.c1 as i64,
        c2: e.c2 as i64,
    }
}

// A kind's pixel. The kind is the same in every turn of a loop, so that the choice leaves it.
fn pixel_of(kind: Kind, i: Pixel<i64>) -> Pixel<i64>
    requires { Small (2 ^ 60) i × (kind ≡ Numbers → Holds i) }
    ensures { result ≡ rct_of kind i }
{
    match kind {
        Kind::Samples => inverse(i),
        Kind::Numbers => raise(i),
    }
}

// F.3 at the pixel whose components are the cells p, q and r.
fn pixel_at(work: &mut [i64], kind: Kind, p: usize, q: usize, r: usize)
    requires p_in_bounds { (p < length work.old) × (q < length work.old) × (r < length work.old) }
    requires small { Small (2 ^ 60) (pixel work.old p q r) × (kind ≡ Numbers → Holds (pixel work.old p q r)) }
    ensures { work.new ≡ put work.old p q r (rct_of kind (pixel work.old p q r)) }
{
    let o = pixel_of(
        kind,
        Pixel {
            c0: work[p],
            c1: work[q],
            c2: work[r],
        },
    );
    // A signed number is stored from a local of its own.
    let red = o.c0;
    let green = o.c1;
    let blue = o.c2;
    work[p] = red;
    work[q] = green;
    work[r] = blue;
}

// F.3 at n pixels of a kind, Table F.2 or document 01's distance rule 3: component 0 stands in the n cells from first on, component 1 from second on,
// component 2 from third on.
pub fn inverse_rct(
    work: &mut [i64],
    kind: Kind,
    first: usize,
    second: usize,
    third: usize,
    n: usize,
)
    requires stretches { Stretches first second third n work.old }
    requires holding_numbers { kind ≡ Numbers → HoldingNumbers first second third n work.old }
    ensures { TransformedBy (rct_of kind) first second third n work.old work.new }
{
    for x in 0..n {
        pixel_at(work, kind, first + x, second + x, third + x);
    }
}
