// Reads a page from standard input in the mode that a letter before the stream names, and prints what the mode gives. The stream has at most 16,384 bytes.
//   d  the page in spite of damage: its text, and its marks
//   p  the page with a distance for each sample: its text, and the distances
//   q  both: its text, its marks, and the distances
//   b  the page and where the bytes of its stream went: its text, and a line of the nine totals
//   c  the same in spite of damage, without its marks
#![tactic(auto)]

use input::{print_text, read_full};
use show::modes::{Mode, text_of};
use std::io;

fn print_page(rt: &impl Print, mode: Mode, stream: &[u8]) -> io::Result<()> {
    print_text(rt, stream, |given, out| text_of(mode, given, out).size)
}

// The letter is judged first, then the stream's length.
fn print_mode(rt: &impl Print, letter: u8, stream: &[u8]) -> io::Result<()> {
    match letter {
        b'd' => print_page(rt, Mode::Damaged, stream),
        b'p' => print_page(rt, Mode::Places, stream),
        b'q' => print_page(rt, Mode::DamagedPlaces, stream),
        b'b' => print_page(rt, Mode::Bytes, stream),
        b'c' => print_page(rt, Mode::DamagedBytes, stream),
        _ => println!(rt; "unknown mode"),
    }
}

fn main(rt: HostRuntime) -> io::Result<()> {
    let mut input = [0u8; 65536];
    let n = read_full(&mut rt.reader(), &mut input)?;
    if n == 0 {
        return println!(rt; "unknown mode");
    }
    let letter = input[0];
    print_mode(&rt, letter, &input[1..n])
}
