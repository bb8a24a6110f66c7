// Reads a page: the header, row 5, the slices into the work cells, then samples and distances; where they are asked for, marks, and a distance for each sample.
#![tactic(auto)]

pub mod judging;
pub mod page;
mod records;
pub mod settings;

ghost use Rattle.std.specs.Prelude.{◌≡◌, true, cond, [], ◌∷◌, ◌*◌, ◌^◌, ◌≤◌, pos, length, replicate};
ghost use Rattle.rows.specs.Rows.{check, ample, first, then, Fine};
ghost use Rattle.rows.specs.declared.Row.TheVariants.{Lent};
ghost use Rattle.header.specs.Header.{reading_of};
ghost use Rattle.reader.specs.Settings.{N};
ghost use Rattle.reader.specs.Page.{Reads};
ghost use Rattle.reader.specs.Modes.{verdict_in, ReadsDamaged};
ghost use Rattle.reader.specs.Places.{room_checks_by, LeavesBy, ReadsBy, ReadsPlaces, ReadsDamagedPlaces};
ghost use Rattle.reader.specs.Steps.{Opened, Sliced, Decoded, Shows, Markable, Marked, MarkedIn, Placeable, PlaceableBy, Placed, PlacedIn, DecodesBy};

use crate::page::Page;
use crate::records::{refused, shown};
use crate::settings::setting_of;
use damage::lost::lost_numbers;
use header::header::Header;
use layout::lines::samples_before;
use pieces::Bytes;
use rows::{AMPLE, Check, Field, Row, Verdict};
use slices::Reading;
use whole::Kind;

// All cells 0.
pub(crate) fn clear(cells: &mut [i64])
    ensures { cells.new ≡ replicate (length cells.old) (pos 0) }
{
    cells.fill(0);
}

// Samples and distances of a page whose slices are decoded into the cells.
fn show(samples: &mut [u16], cells: &mut [i64], h: Header, tops: [usize; 40], bytes: Bytes) -> Page
    requires { Decoded h (length samples.old) tops cells.old }
    ensures { Shows Fine h tops bytes samples.old cells.old result samples.new cells.new }
{
    let s = shapes::shape_of(h);
    let p = h.picture;
    let depth = h.depth;
    planes::values(cells, Kind::Samples, s, p.cpih);
    planes::outputs(cells, samples, Kind::Samples, s, p.bw, depth);
    let d = distances::distances(s, p.fq, p.cpih, p.bw, depth, tops);
    shown(h, d, bytes)
}

// The same, and nothing where the slices are refused.
fn show_by(
    v: Verdict,
    samples: &mut [u16],
    cells: &mut [i64],
    h: Header,
    tops: [usize; 40],
    bytes: Bytes,
) -> Page
    requires { Decoded h (length samples.old) tops cells.old }
    ensures { Shows v h tops bytes samples.old cells.old result samples.new cells.new }
{
    match v {
        Ok(()) => show(samples, cells, h, tops, bytes),
        Err(_) => refused(v),
    }
}

// The marks of a page, from the count cells of its lost coefficients. The coefficient cells are free by now: they take the numbers that the marks are made of.
fn mark(cells: &mut [i64], marks: &mut [u8], h: Header)
    requires { Markable h (length marks.old) cells.old }
    ensures { Marked h cells.old cells.new marks.new }
{
    let s = shapes::shape_of(h);
    let p = h.picture;
    lost_numbers(cells, s);
    planes::values(cells, Kind::Numbers, s, p.cpih);
    planes::marks(cells, marks, s);
}

// The same where the page is read as a damaged one, and nothing else.
fn mark_in(damaged: bool, cells: &mut [i64], marks: &mut [u8], h: Header)
    requires { Markable h (N h) cells.old × (length marks.old ≡ cond damaged (N h) 0) }
    ensures { MarkedIn Fine damaged h cells.old cells.new marks.old marks.new }
{
    if damaged {
        mark(cells, marks, h);
    }
}

// And nothing where the slices are refused.
fn mark_by(v: Verdict, damaged: bool, cells: &mut [i64], marks: &mut [u8], h: Header)
    requires { Markable h (N h) cells.old × (length marks.old ≡ cond damaged (N h) 0) }
    ensures { MarkedIn v damaged h cells.old cells.new marks.old marks.new }
{
    match v {
        Ok(()) => mark_in(damaged, cells, marks, h),
        Err(_) => {}
    }
}

// The distance of each sample of a page in which nothing is lost. The coefficient cells are free again: they take each coefficient's number.
fn place(stream: &[u8], cells: &mut [i64], distances: &mut [u16], h: Header)
    requires { Placeable stream.now h (length cells.old) (length distances.old) }
    ensures { Placed stream.now h cells.old cells.new distances.new }
{
    let c = setting_of(h);
    let s = shapes::shape_of(h);
    let p = h.picture;
    let depth = h.depth;
    places::fill(stream, cells, c, h.slice);
    planes::values(cells, Kind::Numbers, s, p.cpih);
    planes::outputs(cells, distances, Kind::Numbers, s, p.bw, depth);
}

// The same, and of a damaged page the largest distance where the sample is marked.
fn place_lost(
    damaged: bool,
    stream: &[u8],
    cells: &mut [i64],
    marks: &[u8],
    distances: &mut [u16],
    h: Header,
)
    requires { PlaceableBy Fine damaged true stream.now h (length cells.old) marks.now (length distances.old) }
    ensures { PlacedIn Fine damaged true stream.now h cells.old cells.new distances.old distances.new }
{
    place(stream, cells, distances, h);
    if damaged {
        let s = shapes::shape_of(h);
        let depth = h.depth;
        planes::lost_distances(marks, distances, s, depth);
    }
}

// The same where a plane is asked for, and nothing else.
fn place_in(
    damaged: bool,
    placed: bool,
    stream: &[u8],
    cells: &mut [i64],
    marks: &[u8],
    distances: &mut [u16],
    h: Header,
)
    requires { PlaceableBy Fine damaged placed stream.now h (length cells.old) marks.now (length distances.old) }
    ensures { PlacedIn Fine damaged placed stream.now h cells.old cells.new distances.old distances.new }
{
    if placed {
        place_lost(damaged, stream, cells, marks, distances, h);
    }
}

// And nothing where the slices are refused.
fn place_by(
    v: Verdict,
    damaged: bool,
    placed: bool,
    stream: &[u8],
    cells: &mut [i64],
    marks: &[u8],
    distances: &mut [u16],
    h: Header,
)
    requires { PlaceableBy v damaged placed stream.now h (length cells.old) marks.now (length distances.old) }
    ensures { PlacedIn v damaged placed stream.now h cells.old cells.new distances.old distances.new }
{
    match v {
        Ok(()) => place_in(damaged, placed, stream, cells, marks, distances, h),
        Err(_) => {}
    }
}

// All slices behind an accepted header and the end of the stream, by 2N work cells. These may hold anything before.
pub(crate) fn decode_slices(damaged: bool, stream: &[u8], cells: &mut [i64], h: Header) -> Reading
    requires { Opened stream.now h × (length cells.old ≡ 2 * N h) }
    ensures { Sliced damaged stream.now h result cells.new }
{
    let c = setting_of(h);
    clear(cells);
    damage::stream(damaged, stream, cells, c, h.slice, [0; 40])
}

// The page behind an accepted header, into N samples, of a damaged page N marks and, where a plane is asked for, N distances, by 2N work cells.
// There is one way out, past the last `clear`.
fn decode(
    damaged: bool,
    placed: bool,
    stream: &[u8],
    samples: &mut [u16],
    cells: &mut [i64],
    marks: &mut [u8],
    distances: &mut [u16],
    h: Header,
) -> Page
    requires { Opened stream.now h × (length samples.old ≡ N h) × (length cells.old ≡ 2 * N h) × (length marks.old ≡ cond damaged (N h) 0) × (length distances.old ≡ cond placed (N h) 0) }
    ensures { DecodesBy damaged placed stream.now h samples.old cells.old marks.old distances.old result samples.new cells.new marks.new distances.new }
{
    let r = decode_slices(damaged, stream, cells, h);
    let v = r.verdict;
    let tops = r.tops;
    let behind = r.bytes;
    let header = Bytes::of_markers(h.slice);
    let page = show_by(v, samples, cells, h, tops, header.and(behind));
    mark_by(v, damaged, cells, marks, h);
    place_by(v, damaged, placed, stream, cells, marks, distances, h);
    clear(cells);
    page
}

// Row 5, at the first slice header: N cells of a plane, where it is asked for.
fn plane_row(asked: bool, h: Header, plane: Field, n: usize, cells: usize) -> Verdict
    requires { n ≡ N h }
    ensures { result ≡ first (cond asked (check Lent h.slice plane cells (N h) ample ∷ []) []) }
{
    if asked {
        return rows::first(&[Check(Row::Lent, h.slice, plane, cells, n, AMPLE)]);
    }
    Ok(())
}

// Before the planes N sample cells, and 2N work cells.
pub(crate) fn room_row(
    damaged: bool,
    placed: bool,
    h: Header,
    n: usize,
    samples: usize,
    work: usize,
    marks: usize,
    distances: usize,
) -> Verdict
    requires { (n ≡ N h) × (n ≤ 2 ^ 30) }
    ensures { result ≡ first (room_checks_by damaged placed h samples work marks distances) }
{
    rows::first(&[
        Check(Row::Lent, h.slice, Field::Samples, samples, n, AMPLE),
        Check(Row::Lent, h.slice, Field::Work, work, 2 * n, AMPLE),
    ])?;
    plane_row(damaged, h, Field::Marks, n, marks)?;
    plane_row(placed, h, Field::Distances, n, distances)
}

// As many cells as a plane has, where it is asked for.
fn asked(asked: bool, n: usize) -> usize
    ensures { result ≡ cond asked n 0 }
{
    if asked { n } else { 0 }
}

// Where row 5 has passed, the first N samples, the first 2N work cells and, of each plane that is asked for, the first N cells are lent on.
fn decode_by(
    v: Verdict,
    damaged: bool,
    placed: bool,
    stream: &[u8],
    samples: &mut [u16],
    work: &mut [i64],
    marks: &mut [u8],
    distances: &mut [u16],
    h: Header,
    n: usize,
) -> Page
    requires { Opened stream.now h × (n ≡ N h) × (n ≤ 2 ^ 30) × (v ≡ first (room_checks_by damaged placed h (length samples.old) (length work.old) (length marks.old) (length distances.old))) }
    ensures { LeavesBy damaged placed stream.now h v (then v (verdict_in stream.now h damaged)) samples.old work.old marks.old distances.old result samples.new work.new marks.new distances.new }
{
    match v {
        Ok(()) => {
            let cells = 2 * n;
            let marked = asked(damaged, n);
            let planed = asked(placed, n);
            decode(
                damaged,
                placed,
                stream,
                &mut samples[..n],
                &mut work[..cells],
                &mut marks[..marked],
                &mut distances[..planed],
                h,
            )
        }
        Err(_) => refused(v),
    }
}

// Behind an accepted header: row 5, and then the page.
fn read_behind(
    damaged: bool,
    placed: bool,
    stream: &[u8],
    samples: &mut [u16],
    work: &mut [i64],
    marks: &mut [u8],
    distances: &mut [u16],
    h: Header,
) -> Page
    requires { ((reading_of stream.now).verdict ≡ Fine) × (h ≡ (reading_of stream.now).header) }
    ensures { ReadsBy damaged placed stream.now samples.old work.old marks.old distances.old result samples.new work.new marks.new distances.new }
{
    let s = shapes::shape_of(h);
    let n = samples_before(s, s.nc);
    let w = room_row(
        damaged,
        placed,
        h,
        n,
        samples.len(),
        work.len(),
        marks.len(),
        distances.len(),
    );
    decode_by(
        w, damaged, placed, stream, samples, work, marks, distances, h, n,
    )
}

// Reads a page in either mode, with a plane of distances or without one. Every entry point is a call of this.
fn read_in(
    damaged: bool,
    placed: bool,
    stream: &[u8],
    samples: &mut [u16],
    work: &mut [i64],
    marks: &mut [u8],
    distances: &mut [u16],
) -> Page
    ensures { ReadsBy damaged placed stream.now samples.old work.old marks.old distances.old result samples.new work.new marks.new distances.new }
{
    match header::read(stream) {
        Ok(h) => read_behind(damaged, placed, stream, samples, work, marks, distances, h),
        Err(c) => refused(Err(c)),
    }
}

// Reads a page, or refuses it. Nothing is asked of the stream or of the buffers lent.
pub fn read(stream: &[u8], samples: &mut [u16], work: &mut [i64]) -> Page
    ensures { Reads stream.now samples.old work.old result samples.new work.new }
{
    let mut marks: [u8; 0] = [0; 0];
    let mut plane: [u16; 0] = [0; 0];
    read_in(false, false, stream, samples, work, &mut marks, &mut plane)
}

// Reads a page whose slices may be spoilt: their coefficients are lost, and each sample that depends on one is marked. Nothing is asked here either.
pub fn read_damaged(stream: &[u8], samples: &mut [u16], work: &mut [i64], marks: &mut [u8]) -> Page
    ensures { ReadsDamaged stream.now samples.old work.old marks.old result samples.new work.new marks.new }
{
    let mut plane: [u16; 0] = [0; 0];
    read_in(true, false, stream, samples, work, marks, &mut plane)
}

// Reads a page as `read` does, and gives each sample its own distance.
pub fn read_places(
    stream: &[u8],
    samples: &mut [u16],
    work: &mut [i64],
    distances: &mut [u16],
) -> Page
    ensures { ReadsPlaces stream.now samples.old work.old distances.old result samples.new work.new distances.new }
{
    let mut marks: [u8; 0] = [0; 0];
    read_in(false, true, stream, samples, work, &mut marks, distances)
}

// Reads a page as `read_damaged` does, and gives each sample its own distance, the largest where it is marked.
pub fn read_damaged_places(
    stream: &[u8],
    samples: &mut [u16],
    work: &mut [i64],
    marks: &mut [u8],
    distances: &mut [u16],
) -> Page
    ensures { ReadsDamagedPlaces stream.now samples.old work.old marks.old distances.old result samples.new work.new marks.new distances.new }
{
    read_in(true, true, stream, samples, work, marks, distances)
}
