// Reads a page from standard input, of at most 16,384 bytes and 2,048 samples, and prints it.
#![tactic(auto)]

use input::{print_text, read_full};
use show::modes::{Mode, text_of};
use std::io;

fn main(rt: HostRuntime) -> io::Result<()> {
    let mut stream = [0u8; 65536];
    let n = read_full(&mut rt.reader(), &mut stream)?;
    print_text(&rt, &stream[..n], |given, out| {
        text_of(Mode::Plain, given, out).size
    })
}
