// Judges a page without reading it: the verdict with its check, the header, and each band's largest T. No sample is written, so none has to be lent.
ghost use Rattle.std.specs.Prelude.{◌≡◌, ◌*◌, ◌^◌, ◌≤◌, pos, length, replicate};
ghost use Rattle.rows.specs.Rows.{Fine};
ghost use Rattle.header.specs.Header.{reading_of};
ghost use Rattle.reader.specs.Settings.{N};
ghost use Rattle.reader.specs.Page.{work_by};
ghost use Rattle.reader.specs.Steps.{Opened};
ghost use Rattle.reader.specs.Judging.{Judges, JudgedBehind};

use crate::{clear, decode_slices, room_row};
use header::header::Header;
use layout::lines::samples_before;
use rows::Verdict;

// What a reading finds before it shows anything: the verdict, the header, and the bands' largest T. Side by side, since `Judges` says header and largest T of a
// refused page too.
#[derive(Clone, Copy)]
pub struct Judged {
    pub verdict: Verdict,
    pub header: Header,
    pub tops: [usize; 40],
}

// The slices behind an accepted header, by 2N work cells, which are 0 afterwards.
fn judge_slices(damaged: bool, stream: &[u8], cells: &mut [i64], h: Header) -> Judged
    requires { Opened stream.now h × (length cells.old ≡ 2 * N h) }
    ensures { JudgedBehind damaged stream.now h Fine result × (cells.new ≡ replicate (length cells.old) (pos 0)) }
{
    let r = decode_slices(damaged, stream, cells, h);
    let v = r.verdict;
    let tops = r.tops;
    clear(cells);
    Judged {
        verdict: v,
        header: h,
        tops,
    }
}

// Where row 5 has passed, by the first 2N work cells.
fn judge_lent(
    v: Verdict,
    damaged: bool,
    stream: &[u8],
    work: &mut [i64],
    h: Header,
    n: usize,
) -> Judged
    requires { Opened stream.now h × (n ≡ N h) × (n ≤ 2 ^ 30) × ((v ≡ Fine) → (2 * n ≤ length work.old)) }
    ensures { JudgedBehind damaged stream.now h v result × (work.new ≡ work_by v (2 * N h) work.old) }
{
    match v {
        Ok(()) => {
            let cells = 2 * n;
            judge_slices(damaged, stream, &mut work[..cells], h)
        }
        Err(_) => Judged {
            verdict: v,
            header: h,
            tops: [0; 40],
        },
    }
}

// Behind an accepted header.
fn judge_behind(
    damaged: bool,
    placed: bool,
    stream: &[u8],
    samples: usize,
    work: &mut [i64],
    marks: usize,
    distances: usize,
    h: Header,
) -> Judged
    requires { ((reading_of stream.now).verdict ≡ Fine) × (h ≡ (reading_of stream.now).header) }
    ensures { Judges damaged placed stream.now samples work.old marks distances result work.new }
{
    let s = shapes::shape_of(h);
    let n = samples_before(s, s.nc);
    let w = room_row(damaged, placed, h, n, samples, work.len(), marks, distances);
    judge_lent(w, damaged, stream, work, h, n)
}

// Judges a page as `read`, `read_damaged`, `read_places` and `read_damaged_places` do, by `damaged` and `placed`. Samples, marks and distances are lent by
// their number only, since nothing is written to them; the work cells are left as those leave them. Nothing is asked of the stream or of the numbers.
pub fn judge(
    damaged: bool,
    placed: bool,
    stream: &[u8],
    samples: usize,
    work: &mut [i64],
    marks: usize,
    distances: usize,
) -> Judged
    ensures { Judges damaged placed stream.now samples work.old marks distances result work.new }
{
    match header::read(stream) {
        Ok(h) => judge_behind(damaged, placed, stream, samples, work, marks, distances, h),
        Err(c) => Judged {
            verdict: Err(c),
            header: Header::none(),
            tops: [0; 40],
        },
    }
}
