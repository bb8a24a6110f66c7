// From the coefficients in the work cells to samples: Annexes E and F in place, and Annex G into the lent samples.
// Distance numbers, and marks with them, go the same way (`Kind`).
#![tactic(auto)]

ghost use Rattle.std.specs.Prelude.{◌≡◌, map, ℕ, ◌^◌, ◌≤◌, ◌<◌, length, get_or};
ghost use Rattle.whole.specs.declared.Kind.TheVariants.{Numbers};
ghost use Rattle.layout.specs.Built.{Built};
ghost use Rattle.layout.specs.Cells.{samples};
ghost use Rattle.output.specs.Linear.{output_of, Precisions};
ghost use Rattle.planes.specs.Values.{planes};
ghost use Rattle.planes.specs.Places.{values_in, Colours, Ready, Holding, Depths};
ghost use Rattle.planes.specs.Numbers.{NumbersOne, HoldingNumbers, filtered_of, coloured_of, outputs_of};
ghost use Rattle.planes.specs.Marks.{cell_mark, marks_in, marked_distances};
ghost use Rattle.planes.specs.Components.{ReadyOne, HoldingOne, with_plane};

use layout::Shape;
use layout::bands::component_of;
use layout::lines::{area_of, samples_before};
use whole::Kind;

// Annex E of component i, whose coefficients are lent on.
fn component_values(work: &mut [i64], kind: Kind, s: Shape, i: usize)
    requires { ReadyOne s (2 ^ 40) i work.old × (kind ≡ Numbers → NumbersOne s i work.old) }
    ensures { HoldingOne s i (filtered_of kind s work.old i) work.old work.new }
{
    let c = component_of(s, i);
    let at = 2 * samples_before(s, i);
    let end = at + area_of(s, i);
    wavelet::inverse(&mut work[at..end], kind, c.w, c.h, s.nlx, c.ny);
}

// Annex E of every component.
fn all_values(work: &mut [i64], kind: Kind, s: Shape)
    requires { Ready s (2 ^ 40) work.old × (kind ≡ Numbers → HoldingNumbers s work.old) }
    ensures { Holding s (filtered_of kind s work.old) work.old work.new }
{
    for i in 0..s.nc {
        component_values(work, kind, s, i);
    }
}

// Annex F.
fn colours(work: &mut [i64], kind: Kind, s: Shape, cpih: usize)
    requires { Ready s (2 ^ 45) work.old × (kind ≡ Numbers → HoldingNumbers s work.old) × Colours s cpih }
    ensures { Holding s (coloured_of kind cpih (values_in s work.old)) work.old work.new }
{
    if cpih != 1 {
        return;
    }
    let second = 2 * samples_before(s, 1);
    let third = 2 * samples_before(s, 2);
    let n = area_of(s, 0);
    colour::inverse_rct(work, kind, 0, second, third, n);
}

// Annex E, and Annex F over what it leaves: from the coefficients in the work cells to the values that Annex G is given, in their places. Of distance numbers
// these are document 01's rules 2 and 3, place by place, and a number that is not 0 serves as a mark too (proofs/Marking).
pub fn values(work: &mut [i64], kind: Kind, s: Shape, cpih: usize)
    requires { Ready s (2 ^ 40) work.old × (kind ≡ Numbers → HoldingNumbers s work.old) × Colours s cpih }
    ensures { Holding s (coloured_of kind cpih (filtered_of kind s work.old)) work.old work.new }
{
    all_values(work, kind, s);
    colours(work, kind, s, cpih);
}

// Annex G of component i, whose values and samples are lent on.
fn component_output(
    work: &[i64],
    out: &mut [u16],
    kind: Kind,
    s: Shape,
    i: usize,
    bw: usize,
    b: usize,
)
    requires { ReadyOne s (2 ^ 60) i work.now × (kind ≡ Numbers → NumbersOne s i work.now) × Precisions bw b × (length out.old ≡ samples s s.nc) }
    ensures { out.new ≡ with_plane s i (λ x y. output_of kind bw b (values_in s work.now i x y)) out.old }
{
    let at = samples_before(s, i);
    let n = area_of(s, i);
    let from = 2 * at;
    let to = from + n;
    let end = at + n;
    output::linear_output(
        &work[from..to],
        &mut out[at..end],
        kind,
        bw as u64,
        b as u64,
    );
}

// Annex G, which fills `out`: the samples of all components, or of distance numbers document 01's rules 4 and 5, the distance of each sample's place.
pub fn outputs(work: &[i64], out: &mut [u16], kind: Kind, s: Shape, bw: usize, depth: [usize; 4])
    requires { Ready s (2 ^ 60) work.now × (kind ≡ Numbers → HoldingNumbers s work.now) × Depths s bw depth × (length out.old ≡ samples s s.nc) }
    ensures { out.new ≡ planes s (outputs_of kind bw (λ i. get_or depth i 0) (values_in s work.now)) s.nc }
{
    for i in 0..s.nc {
        component_output(work, out, kind, s, i, bw, depth[i]);
    }
}

// The lost samples of component i, whose marks and distances are lent on.
fn component_lost(marks: &[u8], out: &mut [u16], s: Shape, i: usize, b: usize)
    requires { Built s × (i < s.nc) × (b ≤ 16) × (length marks.now ≡ samples s s.nc) × (length out.old ≡ samples s s.nc) }
    ensures { out.new ≡ with_plane s i (marked_distances s (λ _. b) marks.now out.old i) out.old }
{
    let at = samples_before(s, i);
    let end = at + area_of(s, i);
    output::lost_output(&marks[at..end], &mut out[at..end], b as u64);
}

// Of a damaged page: the samples that are marked have 2^B − 1 instead.
pub fn lost_distances(marks: &[u8], out: &mut [u16], s: Shape, depth: [usize; 4])
    requires { Built s × ((i : ℕ) → i < s.nc → get_or depth i 0 ≤ 16) × (length marks.now ≡ samples s s.nc) × (length out.old ≡ samples s s.nc) }
    ensures { out.new ≡ planes s (marked_distances s (λ i. get_or depth i 0) marks.now out.old) s.nc }
{
    for i in 0..s.nc {
        component_lost(marks, out, s, i, depth[i]);
    }
}

// The mark of a cell: 1 where its number is not 0.
fn mark_of(z: i64) -> u8
    ensures { result ≡ cell_mark z }
{
    u8::from(z != 0)
}

// The marks of a component's cells, in the same order.
fn cell_marks(work: &[i64], out: &mut [u8])
    requires { length work.now ≡ length out.old }
    ensures { out.new ≡ map cell_mark work.now }
{
    for (x, mark) in out.iter_mut().enumerate() {
        *mark = mark_of(work[x]);
    }
}

// The marks of component i, whose cells and marks are lent on.
fn component_marks(work: &[i64], out: &mut [u8], s: Shape, i: usize)
    requires { ReadyOne s (2 ^ 60) i work.now × (length out.old ≡ samples s s.nc) }
    ensures { out.new ≡ with_plane s i (marks_in s work.now i) out.old }
{
    let at = samples_before(s, i);
    let n = area_of(s, i);
    let first = 2 * at;
    let last = first + n;
    let end = at + n;
    cell_marks(&work[first..last], &mut out[at..end]);
}

// The marks of all components, which fill `out` as the samples fill theirs.
pub fn marks(work: &[i64], out: &mut [u8], s: Shape)
    requires { Ready s (2 ^ 60) work.now × (length out.old ≡ samples s s.nc) }
    ensures { out.new ≡ planes s (marks_in s work.now) s.nc }
{
    for i in 0..s.nc {
        component_marks(work, out, s, i);
    }
}
