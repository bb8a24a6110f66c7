// Reads a page from standard input, of at most 16,384 bytes, and prints why it is refused, or where it is coarsest.
#![tactic(auto)]

use input::{print_text, read_full};
use show::why::why_of;
use std::io;

fn main(rt: HostRuntime) -> io::Result<()> {
    let mut stream = [0u8; 65536];
    let n = read_full(&mut rt.reader(), &mut stream)?;
    print_text(&rt, &stream[..n], |given, out| why_of(given, out))
}
