// The text of a page, as document 01 says: the answer, then for each component a heading and its rows of samples. Of a page that was read in spite of damage
// then, in the same way, the marks, and of one that was read with a plane of distances last the distances; or behind the samples a line that tells where the
// stream's bytes went. The text goes into a lent buffer; what does not fit is left out, so no caller has to reckon first.
#![tactic(auto)]

pub mod modes;
pub mod why;

ghost use Rattle.std.specs.Prelude.{[], ◌∷◌, ◌≡◌, ◌+◌, ◌<◌, ◌≤◌, length, get_or};
ghost use Rattle.io.specs.Counts.{IsPrefixLen};
ghost use Rattle.show.specs.Planes.{cells_of, kind_of};
ghost use Rattle.show.specs.Text.{decimal, field, line, answer_line, gap, row_text, next_row, rows, heading, title, component, components};
ghost use Rattle.show.specs.Text.{page_text, damaged_text, distances_text, bytes_text};
ghost use Rattle.show.specs.Buffer.{Put, Shown, PageText, DamagedText, PlacesText, DamagedPlacesText, CountedText};

use pieces::Bytes;
use reader::page::Page;

// A byte at `at`, where there is room. Answers the place behind it, as all of these do.
fn put_byte(out: &mut [u8], at: usize, b: u8) -> usize
    ensures { Put (b ∷ []) at out.old result out.new }
{
    if at < out.len() {
        out[at] = b;
        return at + 1;
    }
    at
}

// Bytes from `from` on, as many as there is room for.
pub fn put(out: &mut [u8], from: usize, bytes: &[u8]) -> usize
    ensures { Put bytes.now from out.old result out.new }
{
    let mut at = from;
    for b in bytes {
        at = put_byte(out, at, *b);
    }
    at
}

fn put_number(out: &mut [u8], at: usize, n: u64) -> usize
    ensures { Put (decimal n) at out.old result out.new }
{
    let mut digits = [0u8; 20];
    let k = io::decimal(n, &mut digits);
    put(out, at, &digits[..k])
}

// A word and a number.
fn put_field(out: &mut [u8], at: usize, name: &[u8], n: u64) -> usize
    ensures { Put (field name.now n) at out.old result out.new }
{
    let end = put(out, at, name);
    put_number(out, end, n)
}

// The same, alone on a line.
fn put_line(out: &mut [u8], at: usize, name: &[u8], n: u64) -> usize
    ensures { Put (line name.now n) at out.old result out.new }
{
    let end = put_field(out, at, name, n);
    put_byte(out, end, b'\n')
}

// The line that every text begins with.
fn put_answer(out: &mut [u8], answer: u64, place: u64) -> usize
    ensures { Put (answer_line answer place) 0 out.old result out.new }
{
    let end = put_field(out, 0, b"answer ", answer);
    put_line(out, end, b" at ", place)
}

// What stands in rows, component by component: the samples, the marks of those that are lost, or the distance of each.
#[derive(Clone, Copy)]
enum Plane<'a> {
    Samples(&'a [u16]),
    Marks(&'a [u8]),
    Distances(&'a [u16]),
}

impl Plane<'_> {
    fn len(self) -> usize
        ensures { result ≡ length (cells_of self.entry) }
    {
        match self {
            Plane::Samples(words) | Plane::Distances(words) => words.len(),
            Plane::Marks(marks) => marks.len(),
        }
    }

    fn cell(self, at: usize) -> u64
        requires { at < length (cells_of self) }
        ensures { result ≡ get_or (cells_of self.entry) at 0 }
    {
        match self {
            Plane::Samples(words) | Plane::Distances(words) => u64::from(words[at]),
            Plane::Marks(marks) => u64::from(marks[at]),
        }
    }
}

// The space before cell x of a row, which the first has not. Marks have none.
fn put_gap(out: &mut [u8], at: usize, plane: Plane, x: usize) -> usize
    ensures { Put (gap (kind_of plane.entry) x) at out.old result out.new }
{
    if x == 0 {
        return at;
    }
    match plane {
        Plane::Samples(_) | Plane::Distances(_) => put_byte(out, at, b' '),
        Plane::Marks(_) => at,
    }
}

// One row: `width` cells from `next` on.
fn put_row(out: &mut [u8], from: usize, plane: Plane, next: usize, width: usize) -> usize
    requires { next + width ≤ length (cells_of plane) }
    ensures { Put (row_text (kind_of plane.entry) (cells_of plane.entry) next width) from out.old result out.new }
{
    let mut at = from;
    for x in 0..width {
        let gap = put_gap(out, at, plane, x);
        at = put_number(out, gap, plane.cell(next + x));
    }
    put_byte(out, at, b'\n')
}

// How far the text and the plane are used up: two places that move together, and no cursor over one of them.
#[derive(Clone, Copy)]
struct Progress {
    at: usize,
    next: usize,
}

// The row of `width` cells from `p.next` on, where there are so many.
fn put_next_row(out: &mut [u8], p: Progress, plane: Plane, width: usize) -> Progress
    ensures { Shown (next_row (kind_of plane.entry) (cells_of plane.entry) width p.next) p.at out.old result out.new }
{
    let all = plane.len();
    match p.next.checked_add(width) {
        Some(next) if next <= all => Progress {
            at: put_row(out, p.at, plane, p.next, width),
            next,
        },
        _ => p,
    }
}

fn put_rows(out: &mut [u8], p: Progress, plane: Plane, width: usize, height: usize) -> Progress
    ensures { Shown (rows (kind_of plane.entry) (cells_of plane.entry) width p.next height) p.at out.old result out.new }
{
    let mut done = p;
    for y in 0..height {
        done = put_next_row(out, done, plane, width);
    }
    done
}

fn put_heading(out: &mut [u8], at: usize, page: Page, i: usize) -> usize
    requires { i < 4 }
    ensures { Put (heading page i) at out.old result out.new }
{
    let a = put_field(out, at, b"component ", i as u64);
    let b = put_field(out, a, b" width ", page.width[i] as u64);
    let c = put_field(out, b, b" height ", page.height[i] as u64);
    let d = put_field(out, c, b" distance ", page.distance[i] as u64);
    put_byte(out, d, b'\n')
}

// The line above the rows of component i.
fn put_title(out: &mut [u8], at: usize, plane: Plane, page: Page, i: usize) -> usize
    requires { i < 4 }
    ensures { Put (title page (kind_of plane.entry) i) at out.old result out.new }
{
    match plane {
        Plane::Samples(_) => put_heading(out, at, page, i),
        Plane::Marks(_) => put_line(out, at, b"marks ", i as u64),
        Plane::Distances(_) => put_line(out, at, b"distances ", i as u64),
    }
}

// Component i, where the page has so many: its title, and its rows.
fn put_component(out: &mut [u8], p: Progress, plane: Plane, page: Page, i: usize) -> Progress
    requires { i < 4 }
    ensures { Shown (component page (kind_of plane.entry) (cells_of plane.entry) i p.next) p.at out.old result out.new }
{
    if page.components <= i {
        return p;
    }
    let rows = Progress {
        at: put_title(out, p.at, plane, page, i),
        next: p.next,
    };
    put_rows(out, rows, plane, page.width[i], page.height[i])
}

fn put_components(out: &mut [u8], from: usize, plane: Plane, page: Page) -> Progress
    ensures { Shown (components page (kind_of plane.entry) (cells_of plane.entry) 4) from out.old result out.new }
{
    let mut done = Progress { at: from, next: 0 };
    for i in 0..4 {
        done = put_component(out, done, plane, page, i);
    }
    done
}

// The answer, and the samples of each component.
fn put_page(out: &mut [u8], p: Page, samples: &[u16]) -> usize
    ensures { Put (page_text p samples.now) 0 out.old result out.new }
{
    let a = put_answer(out, p.answer as u64, p.place as u64);
    let done = put_components(out, a, Plane::Samples(samples), p);
    done.at
}

// Then the marks of each.
fn put_damaged(out: &mut [u8], p: Page, samples: &[u16], marks: &[u8]) -> usize
    ensures { Put (damaged_text p samples.now marks.now) 0 out.old result out.new }
{
    let a = put_page(out, p, samples);
    let done = put_components(out, a, Plane::Marks(marks), p);
    done.at
}

// The distances of each, behind either.
fn put_distances(out: &mut [u8], at: usize, p: Page, distances: &[u16]) -> usize
    ensures { Put (distances_text p distances.now) at out.old result out.new }
{
    let done = put_components(out, at, Plane::Distances(distances), p);
    done.at
}

// Where the bytes of the stream went, on one line.
fn put_bytes(out: &mut [u8], at: usize, b: Bytes) -> usize
    ensures { Put (bytes_text b) at out.old result out.new }
{
    let markers = put_field(out, at, b"bytes markers ", b.markers as u64);
    let precincts = put_field(out, markers, b" precincts ", b.precincts as u64);
    let packets = put_field(out, precincts, b" packets ", b.packets as u64);
    let significance = put_field(out, packets, b" significance ", b.significance as u64);
    let counts = put_field(out, significance, b" counts ", b.counts as u64);
    let data = put_field(out, counts, b" data ", b.data as u64);
    let signs = put_field(out, data, b" signs ", b.signs as u64);
    let filler = put_field(out, signs, b" filler ", b.filler as u64);
    put_line(out, filler, b" spoilt ", b.spoilt as u64)
}

// The text of a page and its samples, as far as there is room. Answers how many bytes that is.
pub fn page_text(p: Page, samples: &[u16], out: &mut [u8]) -> usize
    ensures prefix_len { IsPrefixLen result out.new }
    ensures leads { PageText p samples.now out.old result out.new }
{
    put_page(out, p, samples)
}

// The same, and then the marks of each component.
pub fn damaged_text(p: Page, samples: &[u16], marks: &[u8], out: &mut [u8]) -> usize
    ensures prefix_len { IsPrefixLen result out.new }
    ensures leads { DamagedText p samples.now marks.now out.old result out.new }
{
    put_damaged(out, p, samples, marks)
}

// The text of a page and its samples, and then the distances of each component.
pub fn places_text(p: Page, samples: &[u16], distances: &[u16], out: &mut [u8]) -> usize
    ensures prefix_len { IsPrefixLen result out.new }
    ensures leads { PlacesText p samples.now distances.now out.old result out.new }
{
    let shown = put_page(out, p, samples);
    put_distances(out, shown, p, distances)
}

// All three: samples, marks and distances.
pub fn damaged_places_text(
    p: Page,
    samples: &[u16],
    marks: &[u8],
    distances: &[u16],
    out: &mut [u8],
) -> usize
    ensures prefix_len { IsPrefixLen result out.new }
    ensures leads { DamagedPlacesText p samples.now marks.now distances.now out.old result out.new }
{
    let marked = put_damaged(out, p, samples, marks);
    put_distances(out, marked, p, distances)
}

// The text of a page and its samples, and then where the bytes of its stream went.
pub fn counted_text(p: Page, samples: &[u16], out: &mut [u8]) -> usize
    ensures prefix_len { IsPrefixLen result out.new }
    ensures leads { CountedText p samples.now out.old result out.new }
{
    let shown = put_page(out, p, samples);
    put_bytes(out, shown, p.bytes)
}
