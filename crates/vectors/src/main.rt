// Reads the stream NAME.jxs of each name that is given, and compares the page's text with the stored one, byte by byte, and where NAME.caption is there, what the
// record says of a caption with that. A word before names says how they are read, until the next such word:
//   --damaged         in spite of damage: the text has the marks too
//   --places          with a distance for each sample: the text has the distances too
//   --damaged-places  both
//   --bytes           as a page: the text has a line that tells where the stream's bytes went
//   --damaged-bytes   in spite of damage: the text has that line too, and no marks
// Stored is NAME.txt, and for --damaged-places and --damaged-bytes NAME.damaged.txt, since a stream of --places or --bytes has its answer beside it. Prints the
// names of those that differ, how many agreed, and how many had a caption's yes or no stored.
#![tactic(auto)]

ghost use Rattle.std.specs.Prelude.{◌≡◌, ◌<◌, ◌≤◌, ◌++◌, IfOk, string_bytes};
ghost use Rattle.std.specs.Io.{ReadsAtMost};
ghost use Rattle.io.specs.Counts.{IsPrefixLen};

use input::{not_opened, read_full};
use show::modes::{Mode, Told, text_of};
use std::alloc::{AllocError, Global};
use std::fs::Files;
use std::{fs, io};

fn path_of(alloc: Global, name: &str, ending: &str) -> Result<String, AllocError>
    ensures { IfOk result (λ path. string_bytes path ≡ name.now ++ ending.now) }
{
    let mut path = String::from_str(alloc, name)?;
    path.push_str(ending)?;
    Ok(path)
}

// The file NAME.ENDING: as much of it as `to` takes. Nothing where it cannot be opened, which standard error then says if it is needed.
fn read_file(
    rt: &(impl Files + Eprint + AllocGlobal),
    name: &str,
    ending: &str,
    needed: bool,
    to: &mut [u8],
) -> io::Result<usize>
    ensures { ReadsAtMost result to.new }
{
    let path = path_of(rt.alloc(), name, ending)?;
    match fs::open(rt, path.as_str()) {
        Ok(mut file) => read_full(&mut file, to),
        Err(e) => {
            if needed {
                eprintln!(rt; "{}", not_opened(rt.alloc(), path.as_str(), e)?)?;
            }
            Ok(0)
        }
    }
}

// The mode that a word names. Any other word is a stream's name.
fn mode_of(word: &str) -> Option<Mode> {
    match word {
        "--damaged" => Some(Mode::Damaged),
        "--places" => Some(Mode::Places),
        "--damaged-places" => Some(Mode::DamagedPlaces),
        "--bytes" => Some(Mode::Bytes),
        "--damaged-bytes" => Some(Mode::DamagedBytes),
        _ => None,
    }
}

fn read_stored(
    rt: &(impl Files + Eprint + AllocGlobal),
    mode: Mode,
    name: &str,
    to: &mut [u8],
) -> io::Result<usize>
    ensures { ReadsAtMost result to.new }
{
    match mode {
        Mode::Plain | Mode::Damaged | Mode::Places | Mode::Bytes => read_file(
            rt, name, ".txt", true, to,
        ),
        Mode::DamagedPlaces | Mode::DamagedBytes => read_file(rt, name, ".damaged.txt", true, to),
    }
}

fn page_of(
    rt: &(impl Files + Eprint + AllocGlobal),
    mode: Mode,
    name: &str,
    out: &mut [u8],
) -> io::Result<Told>
    ensures { IfOk result (λ told. IsPrefixLen told.size out.new) }
{
    let mut stream = [0u8; 65536];
    let n = read_file(rt, name, ".jxs", true, &mut stream)?;
    Ok(text_of(mode, &stream[..n], out))
}

// How many bytes stand before the first line's end.
fn first_line(bytes: &[u8]) -> usize
    ensures { IsPrefixLen result bytes.now }
{
    bytes
        .iter()
        .position(|b| *b == b'\n')
        .unwrap_or(bytes.len())
}

fn print_line(rt: &impl Print, bytes: &[u8]) -> io::Result<()> {
    let n = first_line(bytes);
    rt.write_all(&bytes[..n])
}

fn print_difference(rt: &impl Print, name: &str, page: &[u8], stored: &[u8]) -> io::Result<()> {
    print!(rt; "{name}: ")?;
    print_line(rt, page)?;
    print!(rt; ", not ")?;
    print_line(rt, stored)?;
    println!(rt; "")
}

// Whether an answer is the stored one.
fn compared(rt: &impl Print, name: &str, answer: &[u8], stored: &[u8]) -> io::Result<bool> {
    if answer == stored {
        return Ok(true);
    }
    print_difference(rt, name, answer, stored)?;
    Ok(false)
}

fn compared_caption(rt: &impl Print, name: &str, caption: bool, stored: &[u8]) -> io::Result<bool> {
    if caption {
        compared(rt, name, b"caption yes\n", stored)
    } else {
        compared(rt, name, b"caption no\n", stored)
    }
}

// Of one stream: whether what is said of it is what is stored, and whether a caption's yes or no is stored.
#[derive(Clone, Copy)]
struct Outcome {
    agreed: bool,
    told: bool,
}

fn outcome_of(
    rt: &(impl Files + Print + Eprint + AllocGlobal),
    mode: Mode,
    name: &str,
) -> io::Result<Outcome> {
    let mut page = [0u8; 65536];
    let said = page_of(rt, mode, name, &mut page)?;
    let size = said.size;
    let mut stored = [0u8; 65536];
    let wanted = read_stored(rt, mode, name, &mut stored)?;
    let same = compared(rt, name, &page[..size], &stored[..wanted])?;
    let mut line = [0u8; 4096];
    let told = read_file(rt, name, ".caption", false, &mut line)?;
    if told == 0 {
        return Ok(Outcome {
            agreed: same,
            told: false,
        });
    }
    let yes = compared_caption(rt, name, said.caption, &line[..told])?;
    Ok(Outcome {
        agreed: same & yes,
        told: true,
    })
}

// The mode that the words have come to, and of the streams before how many there were, how many agreed, and of how many a caption's yes or no was stored.
#[derive(Clone, Copy)]
struct Tally {
    mode: Mode,
    streams: usize,
    agreed: usize,
    told: usize,
}

// And word i.
fn with_word(
    rt: &(impl Files + Print + Eprint + AllocGlobal),
    t: Tally,
    i: usize,
    word: &str,
) -> io::Result<Tally>
    requires { (t.agreed ≤ t.streams) × (t.told ≤ t.streams) × (t.streams < i) }
    ensures { IfOk result (λ r. (r.agreed ≤ r.streams) × (r.told ≤ r.streams) × (r.streams ≤ i)) }
{
    if let Some(mode) = mode_of(word) {
        return Ok(Tally { mode, ..t });
    }
    let o = outcome_of(rt, t.mode, word)?;
    Ok(Tally {
        mode: t.mode,
        streams: t.streams + 1,
        agreed: t.agreed + usize::from(o.agreed),
        told: t.told + usize::from(o.told),
    })
}

fn print_tally(rt: &impl Print, agreed: usize, differing: usize, told: usize) -> io::Result<()> {
    println!(rt; "{agreed} agreed, {differing} differing; {told} with a caption's yes or no")
}

fn main(rt: HostRuntime) -> io::Result<()> {
    let mut t = Tally {
        mode: Mode::Plain,
        streams: 0,
        agreed: 0,
        told: 0,
    };
    // not `each_file`: a word may be a mode's, and the tally grows from word to word. The words are counted, since one that is not UTF-8 ends the program when its
    // turn comes, and `std::env::args` would before the first
    for i in 1..usize::MAX {
        let Some(word) = input::word(&rt, i)? else {
            break;
        };
        t = with_word(&rt, t, i, word.as_str())?;
    }
    print_tally(&rt, t.agreed, t.streams - t.agreed, t.told)
}
