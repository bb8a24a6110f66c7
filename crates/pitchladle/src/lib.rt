// What C calls: include/pitchladle.h says it in C's words. A slice is a pointer and a count there, an array a pointer. Nothing is asked of what the
// buffers hold.
#![tactic(auto)]

ghost use Rattle.std.specs.Prelude.{◌≡◌};
ghost use Rattle.pitchladle.specs.Exported.{cells_of, Handed, HandedDamaged, HandedPlaces, HandedDamagedPlaces, needed, IsReason, Explained, coarsest_cells, HandedCoarsest};

use layout::lines::samples_before;
use reader::judging::judge;
use reader::page::Page;
use reasons::Why;
use rows::Verdict;
use shapes::shape_of;

// The record as it crosses: answer, place, component count, caption, width, height, precision and distance of each of four components, and the nine totals of
// bytes.
fn cells_of(p: Page) -> [u64; 29]
    ensures { result ≡ cells_of p }
{
    let w = p.width;
    let h = p.height;
    let b = p.precision;
    let d = p.distance;
    let t = p.bytes;
    [
        p.answer as u64,
        p.place as u64,
        p.components as u64,
        u64::from(p.caption),
        w[0] as u64,
        h[0] as u64,
        b[0] as u64,
        d[0] as u64,
        w[1] as u64,
        h[1] as u64,
        b[1] as u64,
        d[1] as u64,
        w[2] as u64,
        h[2] as u64,
        b[2] as u64,
        d[2] as u64,
        w[3] as u64,
        h[3] as u64,
        b[3] as u64,
        d[3] as u64,
        t.markers as u64,
        t.precincts as u64,
        t.packets as u64,
        t.significance as u64,
        t.counts as u64,
        t.data as u64,
        t.signs as u64,
        t.filler as u64,
        t.spoilt as u64,
    ]
}

// Reads a page, or refuses it. Each of the four ways to read is a function of its own, since C calls it by name (include/pitchladle.h).
#[unsafe(no_mangle)]
pub extern "C" fn pitchladle_read(
    stream: &[u8],
    samples: &mut [u16],
    work: &mut [i64],
    cells: &mut [u64; 29],
)
    ensures { Handed stream.now samples.old work.old cells.new samples.new work.new }
{
    let page = reader::read(stream, samples, work);
    *cells = cells_of(page);
}

// Reads a page whose slices may be spoilt, and marks the samples that depend on what is lost; or refuses it.
#[unsafe(no_mangle)]
pub extern "C" fn pitchladle_read_damaged(
    stream: &[u8],
    samples: &mut [u16],
    work: &mut [i64],
    marks: &mut [u8],
    cells: &mut [u64; 29],
)
    ensures { HandedDamaged stream.now samples.old work.old marks.old cells.new samples.new work.new marks.new }
{
    let page = reader::read_damaged(stream, samples, work, marks);
    *cells = cells_of(page);
}

// Reads a page with a distance for each sample, or refuses it.
#[unsafe(no_mangle)]
pub extern "C" fn pitchladle_read_places(
    stream: &[u8],
    samples: &mut [u16],
    work: &mut [i64],
    distances: &mut [u16],
    cells: &mut [u64; 29],
)
    ensures { HandedPlaces stream.now samples.old work.old distances.old cells.new samples.new work.new distances.new }
{
    let page = reader::read_places(stream, samples, work, distances);
    *cells = cells_of(page);
}

// Both: marks, and a distance for each sample.
#[unsafe(no_mangle)]
pub extern "C" fn pitchladle_read_damaged_places(
    stream: &[u8],
    samples: &mut [u16],
    work: &mut [i64],
    marks: &mut [u8],
    distances: &mut [u16],
    cells: &mut [u64; 29],
)
    ensures { HandedDamagedPlaces stream.now samples.old work.old marks.old distances.old cells.new samples.new work.new marks.new distances.new }
{
    let page = reader::read_damaged_places(stream, samples, work, marks, distances);
    *cells = cells_of(page);
}

// Why a page is refused, as it crosses: number and place, the value found, least and most expected, and whether these three are codes, which are written in
// hexadecimal; and the field's name, with zeros behind it. Of a page that is read all is 0 but the place.
#[derive(Clone, Copy)]
struct Reason {
    cells: [u64; 6],
    name: [u8; 40],
}

fn reason_of(v: Verdict, end: usize) -> Reason
    ensures { IsReason v end result }
{
    match v {
        Ok(()) => Reason {
            cells: [0, end as u64, 0, 0, 0, 0],
            name: [0; 40],
        },
        Err(c) => {
            let row = c.0;
            let field = c.2;
            Reason {
                cells: [
                    row.number() as u64,
                    c.1 as u64,
                    c.3 as u64,
                    c.4 as u64,
                    c.5 as u64,
                    u64::from(fields::are_codes(row, field)),
                ],
                name: fields::padded_name(field),
            }
        }
    }
}

// Why a page is refused by the call that the two lowest bits of `mode` tell: the lowest for one that marks what is lost, the next for one that gives each sample
// a distance. Samples, marks and distances are lent by their number.
#[unsafe(no_mangle)]
pub extern "C" fn pitchladle_why(
    stream: &[u8],
    mode: u64,
    samples: usize,
    work: &mut [i64],
    marks: usize,
    distances: usize,
    cells: &mut [u64; 6],
    name: &mut [u8; 40],
)
    ensures { Explained stream.now mode samples work.old marks distances work.new cells.new name.new }
{
    let r = judge(
        mode % 2 == 1,
        mode / 2 % 2 == 1,
        stream,
        samples,
        work,
        marks,
        distances,
    );
    let v = r.verdict;
    let h = r.header;
    let p = h.picture;
    let reason = reason_of(v, p.lcod);
    let told = reason.cells;
    let letters = reason.name;
    *cells = told;
    *name = letters;
}

// Where a page is coarsest, as it crosses: the number of components, and band, precinct and truncation of each of four.
fn coarsest_of(w: Why) -> [u64; 13]
    ensures { result ≡ coarsest_cells w }
{
    let c = w.coarsest;
    [
        w.components as u64,
        c[0].band as u64,
        c[0].precinct as u64,
        c[0].truncation as u64,
        c[1].band as u64,
        c[1].precinct as u64,
        c[1].truncation as u64,
        c[2].band as u64,
        c[2].precinct as u64,
        c[2].truncation as u64,
        c[3].band as u64,
        c[3].precinct as u64,
        c[3].truncation as u64,
    ]
}

// Where a page that `pitchladle_read` reads is coarsest, component by component; of a refused one all is 0.
#[unsafe(no_mangle)]
pub extern "C" fn pitchladle_coarsest(
    stream: &[u8],
    samples: usize,
    work: &mut [i64],
    cells: &mut [u64; 13],
)
    ensures { HandedCoarsest stream.now samples work.old work.new cells.new }
{
    let w = reasons::explain(stream, samples, work);
    *cells = coarsest_of(w);
}

// N, how many samples the page has; 0 where its header is refused.
#[unsafe(no_mangle)]
pub extern "C" fn pitchladle_needs(stream: &[u8]) -> u64
    ensures { result ≡ needed stream.now }
{
    match header::read(stream) {
        Ok(h) => {
            let s = shape_of(h);
            samples_before(s, s.nc) as u64
        }
        Err(_) => 0,
    }
}
