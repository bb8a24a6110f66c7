// Document 02, C-19: why a page is refused, or where one that is read is coarsest.
#![tactic(auto)]

mod search;

ghost use Rattle.std.specs.Prelude.{◌≡◌};
ghost use Rattle.rows.specs.Rows.{Fine};
ghost use Rattle.reasons.specs.Why.{why_read, why_refused, why_by, Explains};
ghost use Rattle.reasons.specs.Steps.{Told};

use crate::search::{coarsest_of, nowhere};
use header::header::Header;
use reader::judging::judge;
use reader::settings::setting_of;
use rows::Verdict;

// Where a component, as it is coded, is coarsest: the lowest band with its largest T, the lowest precinct that holds the band with that T, and the T.
#[derive(Clone, Copy)]
pub struct Coarse {
    pub band: usize,
    pub precinct: usize,
    pub truncation: usize,
}

// Why a page is refused: the verdict with the check that decided, and its place. Of a page that is read instead, where each component is coarsest. All else is 0.
// One record for both, since C is given it so (`Explains`, `coarsest_cells`).
#[derive(Clone, Copy)]
pub struct Why {
    pub verdict: Verdict,
    pub place: usize,
    pub components: usize,
    pub coarsest: [Coarse; 4],
}

// Of a page that is read, where `tops` has the largest T of each band.
fn read_why(stream: &[u8], h: Header, tops: [usize; 40]) -> Why
    requires { Told stream.now h tops }
    ensures { result ≡ why_read stream.now h }
{
    let c = setting_of(h);
    let p = h.picture;
    let at = h.slice;
    let c0 = coarsest_of(stream, c, at, tops, 0);
    let c1 = coarsest_of(stream, c, at, tops, 1);
    let c2 = coarsest_of(stream, c, at, tops, 2);
    let c3 = coarsest_of(stream, c, at, tops, 3);
    Why {
        verdict: Ok(()),
        place: p.lcod,
        components: p.nc,
        coarsest: [c0, c1, c2, c3],
    }
}

// Of a refused page: the check that decided, with its place.
fn refused_why(v: Verdict) -> Why
    ensures { result ≡ why_refused v }
{
    Why {
        verdict: v,
        place: rows::place(v, 0),
        components: 0,
        coarsest: [nowhere(); 4],
    }
}

fn why_by(v: Verdict, stream: &[u8], h: Header, tops: [usize; 40]) -> Why
    requires { v ≡ Fine → Told stream.now h tops }
    ensures { result ≡ why_by v stream.now h }
{
    match v {
        Ok(()) => read_why(stream, h, tops),
        Err(_) => refused_why(v),
    }
}

// Judges a page as `read` does with as many sample cells, which are lent by their number only, and says why it is refused, or where it is coarsest. The work
// cells are left as `read` leaves them. Nothing is asked of the stream or of the buffers.
pub fn explain(stream: &[u8], samples: usize, work: &mut [i64]) -> Why
    ensures { Explains stream.now samples work.old result work.new }
{
    let r = judge(false, false, stream, samples, work, 0, 0);
    let v = r.verdict;
    let h = r.header;
    let tops = r.tops;
    why_by(v, stream, h, tops)
}
