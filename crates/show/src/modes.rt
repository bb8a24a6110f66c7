// The modes of reading for the programs, each with its text. Lent are 2,048 sample cells, 4,096 work cells, 2,048 marks and 2,048 distances.
// The longest text, that of a damaged page with its distances, has 2,048 samples and as many distances of five digits, and as many marks, each with a space or a
// line's end, and twelve headings: less than 30,000 bytes.
ghost use Rattle.io.specs.Counts.{IsPrefixLen};
ghost use Rattle.show.specs.Buffer.{Leads};
ghost use Rattle.show.specs.Modes.{ReadsAs, text_as, TextOf};

use crate::{counted_text, damaged_places_text, damaged_text, page_text, places_text};
use reader::page::Page;

#[derive(Clone, Copy)]
pub enum Mode {
    Plain,
    Damaged,
    Places,
    DamagedPlaces,
    Bytes,
    DamagedBytes,
}

// What is told of a stream beside its text: how many bytes that has, and whether the record says that a caption is there.
#[derive(Clone, Copy)]
pub struct Told {
    pub size: usize,
    pub caption: bool,
}

// What a mode does not have stays as it was.
fn read_as(
    mode: Mode,
    stream: &[u8],
    samples: &mut [u16],
    work: &mut [i64],
    marks: &mut [u8],
    distances: &mut [u16],
) -> Page
    ensures { ReadsAs mode stream.now samples.old work.old marks.old distances.old result samples.new work.new marks.new distances.new }
{
    match mode {
        Mode::Plain | Mode::Bytes => reader::read(stream, samples, work),
        Mode::Damaged | Mode::DamagedBytes => reader::read_damaged(stream, samples, work, marks),
        Mode::Places => reader::read_places(stream, samples, work, distances),
        Mode::DamagedPlaces => reader::read_damaged_places(stream, samples, work, marks, distances),
    }
}

fn text_as(
    mode: Mode,
    page: Page,
    samples: &[u16],
    marks: &[u8],
    distances: &[u16],
    out: &mut [u8],
) -> usize
    ensures prefix_len { IsPrefixLen result out.new }
    ensures leads { Leads (text_as mode page samples.now marks.now distances.now) out.old result out.new }
{
    match mode {
        Mode::Plain => page_text(page, samples, out),
        Mode::Damaged => damaged_text(page, samples, marks, out),
        Mode::Places => places_text(page, samples, distances, out),
        Mode::DamagedPlaces => damaged_places_text(page, samples, marks, distances, out),
        Mode::Bytes | Mode::DamagedBytes => counted_text(page, samples, out),
    }
}

// Reads a stream in a mode, and puts its text into a buffer, as far as there is room.
pub fn text_of(mode: Mode, stream: &[u8], out: &mut [u8]) -> Told
    ensures prefix_len { IsPrefixLen result.size out.new }
    ensures text_of { TextOf mode stream.now out.old result out.new }
{
    let mut samples = [0u16; 2048];
    let mut work = [0i64; 4096];
    let mut marks = [0u8; 2048];
    let mut distances = [0u16; 2048];
    let page = read_as(
        mode,
        stream,
        &mut samples,
        &mut work,
        &mut marks,
        &mut distances,
    );
    let caption = page.caption;
    Told {
        size: text_as(mode, page, &samples, &marks, &distances, out),
        caption,
    }
}
