// What the programs read: standard input, or a file, into a lent buffer, and the words of their command line.
#![tactic(auto)]

ghost use Rattle.std.specs.Prelude.{◌≡◌, ◌+◌, ◌<◌, ◌≤◌, [], ◌∷◌, ◌++◌, length, take, IfOk, IfSome, string_bytes};
ghost use Rattle.std.specs.Io.{ReadsAtMost};
ghost use Rattle.std.specs.Io.KnownBytes.{Consumes, IsAtEnd};

use std::alloc::{AllocError, Global};
use std::env::{Env, FillError};
use std::fs::Files;
use std::io::{ErrorKind, Read};
use std::{fs, io};

// Reads until the buffer is full or the input ends, and answers how many bytes that is: they stand at the buffer's start.
pub fn read_full<R: Read>(reader: &mut R, buf: &mut [u8]) -> io::Result<usize>
    ensures in_bounds { ReadsAtMost result buf.new }
    ensures bytes { IfOk result (λ n. Consumes (R.remaining reader.old) (R.remaining reader.new) (take n buf.new)) }
    ensures end { IfOk result (λ n. n < length buf.new → IsAtEnd (R.remaining reader.new)) }
{
    let mut done = 0;
    // by as many bytes as each read gives; the library's `read_exact` takes an early end for an error, and `read_to_end` fills a `Vec`
    while done < buf.len() {
        let n = reader.read(&mut buf[done..])?;
        if n == 0 {
            return Ok(done);
        }
        done += n;
    }
    Ok(done)
}

// Word i of the command line, and none behind the last. One of more than 4,096 bytes counts as the empty word.
pub fn word(rt: &(impl Env + AllocGlobal), i: usize) -> io::Result<Option<String>>
    ensures { IfOk result (λ w. IfSome w (λ s. length (string_bytes s) ≤ 4096)) }
{
    let mut bytes = [0u8; 4096];
    match rt.arg(i, &mut bytes) {
        Ok(n) => {
            let text = str::from_utf8(&bytes[..n]).map_err(|_| io::Error::from(
                ErrorKind::InvalidData,
            ))?;
            Ok(Some(String::from_str(rt.alloc(), text)?))
        }
        Err(FillError::TooLong) => Ok(Some(String::new(rt.alloc()))),
        Err(FillError::NotPresent) => Ok(None),
    }
}

// What is said of a file that was not opened: its name, and the system's words without the number that an error's text ends with.
pub fn not_opened(alloc: Global, name: &str, e: io::Error) -> Result<String, AllocError>
    ensures { IfOk result (λ line. take (length name.now + 2) (string_bytes line) ≡ name.now ++ (58 ∷ 32 ∷ [])) }
{
    let text = format!(in alloc; "{e}")?;
    let mut line = String::from_str(alloc, name)?;
    line.push_str(": ")?;
    match text.as_str().rsplit_once(" (os error ") {
        Some((words, _)) => line.push_str(words)?,
        None => line.push_str(text.as_str())?,
    }
    Ok(line)
}

// The file of this name goes to `show`, with its name: what it holds, at most 65,535 bytes, or none where it is longer. Where it cannot be opened, standard error
// says so.
fn show_file<F: Fn(&str, Option<&[u8]>) -> io::Result<()>>(
    rt: &(impl Files + Eprint + AllocGlobal),
    name: &str,
    show: &F,
) -> io::Result<()>
    requires { (said : _) (held : _) → said.now ≡ name.now → IfSome held (λ s. length s.now ≤ 65535) → F.pre show.now said held }
{
    let mut file = match fs::open(rt, name) {
        Ok(file) => file,
        Err(e) => return eprintln!(rt; "{}", not_opened(rt.alloc(), name, e)?),
    };
    let mut buffer = [0u8; 65536];
    let size = read_full(&mut file, &mut buffer)?;
    // a buffer that is full may not hold the whole file
    if 65535 < size {
        return show(name, None);
    }
    show(name, Some(&buffer[..size]))
}

// So does each file that the command line names, in order.
pub fn each_file<F: Fn(&str, Option<&[u8]>) -> io::Result<()>>(
    rt: &(impl Env + Files + Eprint + AllocGlobal),
    show: F,
) -> io::Result<()>
    requires { (said : _) (held : _) → IfSome held (λ s. length s.now ≤ 65535) → F.pre show said held }
{
    // the words are counted, since one that is not UTF-8 ends the program when its turn comes, and `std::env::args` would before the first
    for i in 1..usize::MAX {
        match word(rt, i)? {
            Some(name) => show_file(rt, name.as_str(), &show)?,
            None => return Ok(()),
        }
    }
    Ok(())
}

// What `text` makes of a stream of at most 16,384 bytes goes to standard output. Of a longer one that says only that it is too long. Where that
// succeeds, the text was made of this stream.
pub fn print_text<F: Fn(&[u8], &mut [u8]) -> usize>(
    rt: &impl Print,
    stream: &[u8],
    text: F,
) -> io::Result<()>
    requires taken { (given : _) (out : _) → length given.now ≤ 16384 → F.pre text given out }
    requires bounded { (given : _) (out : _) (size : _) (after : _) → F.post text given out size after → size ≤ length after.now }
    ensures { IfOk result (λ _. length stream.now ≤ 16384 → (given : _) × (out : _) × (size : _) × (after : _) × (given.now ≡ stream.now) × F.post text given out size after) }
{
    if 16384 < stream.len() {
        return println!(rt; "input too long");
    }
    let mut out = [0u8; 65536];
    let size = text(stream, &mut out);
    rt.write_all(&out[..size])
}

#[cfg(test)]
mod tests {
    use super::*;
    use std::test::Fail;

    // Gives a byte at each of four reads, and then nothing. Read `fails` fails.
    #[derive(Drop)]
    struct Slow {
        reads: u8,
        fails: u8,
    }

    impl Read for Slow {
        fn read(&mut self, buf: &mut [u8]) -> io::Result<usize> {
            self.reads = self.reads.saturating_add(1);
            if self.reads == self.fails {
                return Err(io::Error::from(ErrorKind::NotConnected));
            }
            if self.reads >= 5 || buf.is_empty() {
                return Ok(0);
            }
            buf[0] = self.reads;
            Ok(1)
        }
    }

    #[test]
    fn reads_to_the_end(rt: HostRuntime) -> Result<(), Fail> {
        let mut buf = [0u8; 6];
        let n = read_full(&mut Slow { reads: 0, fails: 0 }, &mut buf)?;
        assert_eq!(rt; n, 4);
        assert_eq!(rt; buf.as_slice(), [1, 2, 3, 4, 0, 0].as_slice());
        Ok(())
    }

    #[test]
    fn reads_until_full(rt: HostRuntime) -> Result<(), Fail> {
        let mut buf = [0u8; 3];
        let mut text = b"page".as_slice();
        let n = read_full(&mut text, &mut buf)?;
        assert_eq!(rt; n, 3);
        assert_eq!(rt; buf.as_slice(), b"pag".as_slice());
        assert_eq!(rt; text, b"e".as_slice());
        Ok(())
    }

    #[test]
    fn hands_on_a_failed_read(rt: HostRuntime) {
        let mut buf = [0u8; 6];
        let answer = read_full(&mut Slow { reads: 0, fails: 3 }, &mut buf);
        assert!(rt; answer.is_err_and(|e| e.kind() == ErrorKind::NotConnected));
    }

    #[test]
    fn says_what_the_system_says(rt: HostRuntime) -> Result<(), Fail> {
        let line = not_opened(rt.alloc(), "page", io::Error::from_raw_os_error(2))?;
        assert_eq!(rt; line.as_str(), "page: No such file or directory");
        Ok(())
    }

    // Fails in one way where the file is empty, in another where it is too long, and in a third at any other.
    fn kind_of(held: Option<&[u8]>) -> ErrorKind {
        match held {
            Some(bytes) => {
                if bytes.is_empty() {
                    ErrorKind::NotConnected
                } else {
                    ErrorKind::InvalidData
                }
            }
            None => ErrorKind::OutOfMemory,
        }
    }

    #[test]
    fn shows_what_a_file_holds(rt: HostRuntime) {
        let show = |_: &str, held: Option<&[u8]>| Err(io::Error::from(kind_of(held)));
        let empty = show_file(&rt, "/dev/null", &show);
        assert!(rt; empty.is_err_and(|e| e.kind() == ErrorKind::NotConnected));
        let long = show_file(&rt, "/dev/zero", &show);
        assert!(rt; long.is_err_and(|e| e.kind() == ErrorKind::OutOfMemory));
    }

    #[test]
    fn goes_on_without_a_file(rt: HostRuntime) -> Result<(), Fail> {
        let show = |_: &str, held: Option<&[u8]>| Err(io::Error::from(kind_of(held)));
        show_file(&rt, "/dev/null/none", &show)?;
        Ok(())
    }

    #[test]
    fn goes_through_the_command_line(rt: HostRuntime) -> Result<(), Fail> {
        each_file(&rt, |_: &str, _: Option<&[u8]>| Ok(()))?;
        Ok(())
    }

    #[test]
    fn prints_what_a_stream_makes(rt: HostRuntime) -> Result<(), Fail> {
        let letter = |given: &[u8], out: &mut [u8]| -> usize {
            if given.is_empty() || out.is_empty() {
                return 0;
            }
            out[0] = given[0];
            1
        };
        print_text(&rt, b"\n".as_slice(), letter)?;
        print_text(&rt, [0u8; 16385].as_slice(), letter)?;
        Ok(())
    }
}
