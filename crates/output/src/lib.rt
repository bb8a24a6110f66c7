// Annex G of ISO/IEC 21122-1, as far as it is built: linear output scaling (G.3), from the work buffer's values to samples, and
// from distance numbers to distances.
#![tactic(auto)]

ghost use Rattle.std.specs.Prelude.{◌≡◌, map, cond, ◌^◌, ◌≤◌, ◌<◌, min, eqb, pos, nat_abs, length, get_or};
ghost use Rattle.whole.specs.Cells.{map_at};
ghost use Rattle.whole.specs.declared.Kind.TheVariants.{Numbers};
ghost use Rattle.output.specs.Linear.{clamp, distance, output_of, lost_distance, Precisions, Lent, HoldingNumbers};
ghost use Rattle.output.specs.Constants.{scale_of, by_scale, number_by_scale, output_by_scale, Usable};

use whole::Kind;

// What Table G.2 works out once for a component: both terms that it adds, in one; the shift; the largest sample.
#[derive(Clone, Copy)]
struct Scale {
    lift: u64,
    shift: u64,
    top: u64,
}

// The constants for the precisions bw and b.
fn scale_of(bw: u64, b: u64) -> Scale
    requires { Precisions bw b }
    ensures { result ≡ scale_of bw b }
{
    let shift = bw - b;
    Scale {
        lift: ((1 << bw) >> 1) + ((1 << shift) >> 1),
        shift,
        top: (1 << b) - 1,
    }
}

// Table G.2's clamp of q to 0 .. top.
fn clamp_of(q: i64, top: u64) -> u16
    requires { top < 2 ^ 16 }
    ensures { result ≡ clamp top q }
{
    q.clamp(0, top as i64) as u16
}

// The sample of one value.
fn sample_of(v: i64, s: Scale) -> u16
    requires { (nat_abs v ≤ 2 ^ 60) × Usable s }
    ensures { result ≡ by_scale s v }
{
    clamp_of((v + (s.lift as i64)) >> s.shift, s.top)
}

// Document 01's distance rules 4 and 5 for one number. A shift and no `div_ceil`, since this is done for every sample and 2^k divides by shifting.
fn near_of(e: u64, s: Scale) -> u16
    requires { (e ≤ 2 ^ 60) × Usable s }
    ensures { result ≡ number_by_scale s e }
{
    ((e + ((1 << s.shift) - 1)) >> s.shift).min(s.top) as u16
}

// The distance of a component whose number before the output step is e.
pub fn distance_of(e: u64, bw: u64, b: u64) -> u16
    requires { (e ≤ 2 ^ 60) × Precisions bw b }
    ensures { result ≡ distance bw b e }
{
    let s = scale_of(bw, b);
    near_of(e, s)
}

// What a value of a kind is given as: the sample, or of a distance number the distance.
fn output_of(kind: Kind, v: i64, s: Scale) -> u16
    requires { (nat_abs v ≤ 2 ^ 60) × Usable s × (kind ≡ Numbers → v ≡ pos (nat_abs v)) }
    ensures { result ≡ output_by_scale kind s v }
{
    match kind {
        Kind::Samples => sample_of(v, s),
        Kind::Numbers => near_of(v as u64, s),
    }
}

// Table G.2 for one component, and document 01's rules 4 and 5 for one, place by place: what each value is given as, in the same order.
pub fn linear_output(work: &[i64], out: &mut [u16], kind: Kind, bw: u64, b: u64)
    requires { Lent bw b work.now out.old × (kind ≡ Numbers → HoldingNumbers work.now) }
    ensures { out.new ≡ map (output_of kind bw b) work.now }
{
    let s = scale_of(bw, b);
    for (x, o) in out.iter_mut().enumerate() {
        *o = output_of(kind, work[x], s);
    }
}

// The distance d, or top where the sample is marked.
fn unless_lost(mark: u8, d: u16, top: u16) -> u16
    ensures { result ≡ cond (eqb mark 0) d top }
{
    if mark == 0 { d } else { top }
}

// A sample that is marked has 2^b − 1 in the place of its distance.
pub fn lost_output(marks: &[u8], out: &mut [u16], b: u64)
    requires { (b ≤ 16) × (length marks.now ≡ length out.old) }
    ensures { out.new ≡ map_at (λ n d. lost_distance b (get_or marks.now n 0) d) out.old }
{
    let top = ((1u64 << b) - 1) as u16;
    for (x, d) in out.iter_mut().enumerate() {
        *d = unless_lost(marks[x], *d, top);
    }
}
