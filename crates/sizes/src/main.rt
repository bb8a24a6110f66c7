// Reads lines `M T v size` from the file that is named, and holds each size against the uniform inverse quantiser's. Prints the lines that differ, and how
// many agreed.
#![tactic(auto)]

ghost use Rattle.std.specs.Prelude.{◌≤◌, ◌<◌, length};
ghost use Rattle.std.specs.Io.{ReadsAtMost};

use input::{not_opened, read_full, word};
use quantiser::scaled_coefficient;
use std::fs::Files;
use std::{fs, io};

// The four numbers of a line.
#[derive(Clone, Copy)]
struct Line {
    m: u64,
    t: u64,
    v: u64,
    size: u64,
}

// The value with one digit more. From 2^32 on it stays as it is: no number of the text is as large. So no number is refused, as `parse` would.
fn appended(value: u64, digit: u8) -> u64 {
    if value >> 32 == 0 {
        value * 10 + digit as u64 % 16
    } else {
        value
    }
}

// The words of a text that are left. A byte that is no digit ends a word.
#[derive(Drop)]
struct Words<'a> {
    left: &'a [u8],
}

impl Words<'_> {
    // The number of the next word, and 0 behind the last.
    fn next_number(&mut self) -> u64
        ensures { (length self.new.left.now ≤ length self.old.left.now) × (0 < length self.old.left.now → length self.new.left.now < length self.old.left.now) }
    {
        let mut value = 0;
        // no `for`: the byte that ends the word is taken, and what is behind it stays
        while let Some((b, left)) = self.left.split_first() {
            self.left = left;
            if !b.is_ascii_digit() {
                break;
            }
            value = appended(value, *b);
        }
        value
    }

    // A line ends with its fourth number, wherever that stands.
    fn next_line(&mut self) -> Line
        requires { 0 < length self.now.left.now }
        ensures { length self.new.left.now < length self.old.left.now }
    {
        Line {
            m: self.next_number(),
            t: self.next_number(),
            v: self.next_number(),
            size: self.next_number(),
        }
    }
}

// Whether M - T planes, of at most 31, carry v, and the quantiser gives the size.
fn agrees(l: Line) -> bool {
    if 31 < l.m {
        return false;
    }
    if l.m <= l.t {
        return false;
    }
    if 1 << (l.m - l.t) <= l.v {
        return false;
    }
    if l.size >> 31 != 0 {
        return false;
    }
    scaled_coefficient(true, l.m, l.t, 0, l.v as i64) == l.size as i64
}

fn print_line(rt: &impl Print, l: Line) -> io::Result<()> {
    println!(rt; "{} {} {} {} differs", l.m, l.t, l.v, l.size)
}

fn judged(rt: &impl Print, l: Line) -> io::Result<bool> {
    let same = agrees(l);
    if !same {
        print_line(rt, l)?;
    }
    Ok(same)
}

fn print_tally(rt: &impl Print, agreed: usize, differing: usize) -> io::Result<()> {
    println!(rt; "{agreed} agreed, {differing} differing")
}

fn compare(rt: &impl Print, lines: &[u8]) -> io::Result<()> {
    let mut words = Words { left: lines };
    let mut agreed = 0;
    let mut differing = 0;
    // no `for`: a line takes as much of the text as its numbers have
    while !words.left.is_empty() {
        if judged(rt, words.next_line())? {
            agreed += 1;
        } else {
            differing += 1;
        }
    }
    print_tally(rt, agreed, differing)
}

// The file of this name: as much of it as `to` takes. Nothing where it cannot be opened, which standard error then says.
fn read_named(
    rt: &(impl Files + Eprint + AllocGlobal),
    name: &str,
    to: &mut [u8],
) -> io::Result<usize>
    ensures { ReadsAtMost result to.new }
{
    match fs::open(rt, name) {
        Ok(mut file) => read_full(&mut file, to),
        Err(e) => {
            eprintln!(rt; "{}", not_opened(rt.alloc(), name, e)?)?;
            Ok(0)
        }
    }
}

// The first argument names the file.
fn main(rt: HostRuntime) -> io::Result<()> {
    let name = word(&rt, 1)?;
    let mut lines = [0u8; 65536];
    let n = read_named(&rt, name.as_ref().map_or("", |s| s.as_str()), &mut lines)?;
    compare(&rt, &lines[..n])
}
