// The passes over the lines of a packet: Tables C.6, C.8, C.9 and C.10. A candidate of the slot that the precinct does not have is passed over.
ghost use Rattle.std.specs.Prelude.{◌≡◌, true, ◌≤◌, ◌<◌, ◌^◌, length};
ghost use Rattle.layout.specs.Bands.{NL};
ghost use Rattle.layout.specs.Cells.{start};
ghost use Rattle.layout.specs.Slots.{candidates};
ghost use Rattle.values.specs.Lanes.{IsPairs};
ghost use Rattle.packets.specs.Passes.{line, mode_of, coding_of, packet_counts, packet_values};
ghost use Rattle.packets.specs.Packets.{any_line};
ghost use Rattle.packets.specs.Ready.{Settled, Standing, Slotted};
ghost use Rattle.packets.specs.Steps.{Within, Working, Lies, IsMarks, AllMarks, count_line, value_line};

use crate::bands::{mode_of, truncation_of};
use crate::{Precinct, Setting};
use counts::group::{Coding, Fault, Mode};
use counts::{Counted, Place};
use layout::Line;
use values::Next;

// Candidate j of a slot.
fn candidate(c: Setting, p: Precinct, slot: usize, j: usize) -> Line
    requires { Slotted c p slot × (j < candidates c.shape slot) }
    ensures { result ≡ line c p slot j }
{
    let shape = c.shape;
    layout::lines::line_at(shape, p.row, p.column, slot, j)
}

// Does the precinct have a line of the slot? A packet without lines has no header.
pub fn any_line(c: Setting, p: Precinct, slot: usize) -> bool
    requires { Slotted c p slot }
    ensures { result ≡ any_line c p slot (candidates c.shape slot) }
{
    let shape = c.shape;
    let n = layout::lines::candidate_count(shape, slot);
    for j in 0..n {
        if candidate(c, p, slot, j).present {
            return true;
        }
    }
    false
}

// The significance flags of a line.
fn marks_of(s: &[u8], c: Setting, p: Precinct, l: Line, raw: bool) -> usize
    requires { Settled c × (p.at < 2 ^ 32) × (l.present ≡ true → Lies c.shape p.row l) }
    ensures { IsMarks s.now c p raw l result }
{
    if raw {
        return 0;
    }
    if l.present {
        if mode_of(s, c, p, l.band) / 2 == 1 {
            return l.marks;
        }
    }
    0
}

// The significance flags of candidate j. Most packets have none, so that its line is only worked out where its band has some.
fn marks_at(s: &[u8], c: Setting, p: Precinct, slot: usize, j: usize, raw: bool) -> usize
    requires { Within s.now c p slot × (j < candidates c.shape slot) }
    ensures { IsMarks s.now c p raw (line c p slot j) result }
{
    if raw {
        return 0;
    }
    let shape = c.shape;
    let b = layout::lines::candidate_band(shape, slot, j);
    if mode_of(s, c, p, b) / 2 == 1 {
        return marks_of(s, c, p, candidate(c, p, slot, j), raw);
    }
    0
}

// The significance flags of all lines.
pub(crate) fn all_marks(s: &[u8], c: Setting, p: Precinct, slot: usize, raw: bool) -> usize
    requires { Within s.now c p slot }
    ensures { AllMarks s.now c p slot raw result }
{
    let shape = c.shape;
    let n = layout::lines::candidate_count(shape, slot);
    let mut sum: usize = 0;
    for j in 0..n {
        sum += marks_at(s, c, p, slot, j, raw);
    }
    sum
}

// Table C.8.
fn mode_by(raw: bool, d: usize) -> Mode
    ensures { result ≡ mode_of raw d }
{
    if raw {
        return Mode::Raw;
    }
    if d % 2 == 0 {
        Mode::NoPrediction
    } else {
        Mode::Vertical
    }
}

fn coding_of(s: &[u8], c: Setting, p: Precinct, b: usize, raw: bool) -> Coding
    requires { Settled c × (p.at < 2 ^ 32) × (b < NL c.shape) }
    ensures { result ≡ coding_of s.now c p raw b }
{
    let d = mode_of(s, c, p, b);
    Coding {
        mode: mode_by(raw, d),
        flags: d / 2 == 1,
        run: c.rm,
        fs: c.fs,
        t: truncation_of(c, p, b),
        br: c.br,
    }
}

// The counts of a line, from the bit `at` of their stretch and the flag z of theirs on.
fn count_line(
    s: &[u8],
    cnt: &[u8],
    sig: &[u8],
    cells: &mut [i64],
    c: Setting,
    p: Precinct,
    l: Line,
    raw: bool,
    at: usize,
    z: usize,
) -> Result<Counted, Fault>
    requires { Settled c × Standing s.now c p (length cells.old) × (l.present ≡ true → Lies c.shape p.row l) × (length cnt.now < 2 ^ 56) × (z < 2 ^ 60) }
    ensures { count_line s.now c p cnt.now sig.now raw l at z cells.old ≡ (result, cells.new) }
{
    if l.present {
        let coding = coding_of(s, c, p, l.band, raw);
        let place = Place {
            first: l.cell,
            stride: l.stride,
            width: l.width,
            area: l.area,
            up: l.up,
        };
        return counts::line_counts(cnt, sig, cells, coding, place, at, z);
    }
    Ok(Counted { next: at, need: 0 })
}

// The counts of all lines, from their stretch and that of the significance flags.
pub(crate) fn packet_counts(
    s: &[u8],
    cnt: &[u8],
    sig: &[u8],
    cells: &mut [i64],
    c: Setting,
    p: Precinct,
    slot: usize,
    raw: bool,
) -> Result<Counted, Fault>
    requires { Working s.now c p slot (length cells.old) × (length cnt.now < 2 ^ 56) }
    ensures { packet_counts s.now c p slot cnt.now sig.now raw cells.old ≡ (result, cells.new) }
{
    let shape = c.shape;
    let n = layout::lines::candidate_count(shape, slot);
    let mut at: usize = 0;
    let mut need: usize = 0;
    let mut z: usize = 0;
    for j in 0..n {
        let l = candidate(c, p, slot, j);
        let counted = count_line(s, cnt, sig, cells, c, p, l, raw, at, z)?;
        at = counted.next;
        need += counted.need;
        z += marks_of(s, c, p, l, raw);
    }
    Ok(Counted { next: at, need })
}

// The values of a line.
fn value_line(
    pairs: &[usize; 256],
    dat: &[u8],
    sgn: &[u8],
    cells: &mut [i64],
    c: Setting,
    p: Precinct,
    l: Line,
    from: Next,
) -> Next
    requires { Settled c × (l.present ≡ true → Lies c.shape p.row l) × (start c.shape c.shape.nc ≤ length cells.old) × (from.at < 2 ^ 62) × (from.sign < 2 ^ 62) × IsPairs pairs.now }
    ensures { value_line c p dat.now sgn.now l from cells.old ≡ (result, cells.new) }
{
    if l.present {
        let how = values::Coding {
            uniform: c.uniform,
            fs: c.fs,
            fq: c.fq,
        };
        let line = values::Line {
            first: l.cell,
            stride: l.stride,
            width: l.width,
            area: l.area,
            t: truncation_of(c, p, l.band),
        };
        return values::line_values(pairs, dat, sgn, cells, how, line, from);
    }
    from
}

// The values of all lines, from the stretches of the data and of the signs.
pub(crate) fn packet_values(
    dat: &[u8],
    sgn: &[u8],
    cells: &mut [i64],
    c: Setting,
    p: Precinct,
    slot: usize,
) -> Next
    requires { Slotted c p slot × (start c.shape c.shape.nc ≤ length cells.old) }
    ensures { packet_values c p slot dat.now sgn.now cells.old ≡ (result, cells.new) }
{
    let shape = c.shape;
    let n = layout::lines::candidate_count(shape, slot);
    let pairs = values::pairs::table();
    let mut next = Next { at: 0, sign: 0 };
    for j in 0..n {
        let l = candidate(c, p, slot, j);
        next = value_line(&pairs, dat, sgn, cells, c, p, l, next);
    }
    next
}
