// Request C-19's text: why a page was refused, or where one that is read is coarsest. A refused page has four lines; the longest name has 33 letters and a number
// 20 digits. One that is read has at most five, of at most four numbers each. So 1,024 bytes hold every text.
ghost use Rattle.std.specs.Prelude.{◌≡◌, ◌<◌};
ghost use Rattle.io.specs.Counts.{IsPrefixLen};
ghost use Rattle.reasons.specs.Why.{why_of};
ghost use Rattle.show.specs.Buffer.{Put, Leads};
ghost use Rattle.show.specs.Why.{hexadecimal, numeral, expected, tells, field_line, found_line, expected_line, number_lines, check_text, coarsest_line, coarsest_of, coarsest_lines, reason_text, why_text};

use crate::{put, put_answer, put_byte, put_field, put_line, put_number};
use reasons::Why;
use rows::{AMPLE, Check, Field, Row, Verdict};

// `0x` and four digits.
fn put_code(out: &mut [u8], at: usize, n: u64) -> usize
    ensures { Put (hexadecimal n) at out.old result out.new }
{
    let mut digits = [0u8; 16];
    let k = io::hex(n % 65536, 4, &mut digits);
    let end = put(out, at, b"0x");
    put(out, end, &digits[..k])
}

fn put_numeral(out: &mut [u8], at: usize, code: bool, n: u64) -> usize
    ensures { Put (numeral code n) at out.old result out.new }
{
    if code {
        return put_code(out, at, n);
    }
    put_number(out, at, n)
}

// What a value may be: one number, any from a least on, or from a least to a most.
fn put_expected(out: &mut [u8], at: usize, code: bool, least: u64, most: u64) -> usize
    ensures { Put (expected code least most) at out.old result out.new }
{
    if least == most {
        return put_numeral(out, at, code, least);
    }
    if most == AMPLE as u64 {
        let from = put(out, at, b"at least ");
        return put_numeral(out, from, code, least);
    }
    let to = put_numeral(out, at, code, least);
    let end = put(out, to, b" to ");
    put_numeral(out, end, code, most)
}

fn put_found_line(out: &mut [u8], at: usize, code: bool, found: u64) -> usize
    ensures { Put (found_line code found) at out.old result out.new }
{
    let value = put(out, at, b"found ");
    let end = put_numeral(out, value, code, found);
    put_byte(out, end, b'\n')
}

fn put_expected_line(out: &mut [u8], at: usize, code: bool, least: u64, most: u64) -> usize
    ensures { Put (expected_line code least most) at out.old result out.new }
{
    let range = put(out, at, b"expected ");
    let end = put_expected(out, range, code, least, most);
    put_byte(out, end, b'\n')
}

// What the numbers of a check are: bytes that are left and needed, cells that are lent and needed, or the value found and those that it may be.
#[derive(Clone, Copy)]
enum Tells {
    Bytes,
    Cells,
    Values,
}

fn tells_of(row: Row) -> Tells
    ensures { result ≡ tells row }
{
    match row {
        Row::Cut => Tells::Bytes,
        Row::Lent => Tells::Cells,
        _ => Tells::Values,
    }
}

fn put_number_lines(
    out: &mut [u8],
    at: usize,
    kind: Tells,
    code: bool,
    found: u64,
    least: u64,
    most: u64,
) -> usize
    ensures { Put (number_lines kind code found least most) at out.old result out.new }
{
    match kind {
        Tells::Bytes => {
            let end = put_line(out, at, b"bytes left ", found);
            put_line(out, end, b"bytes needed ", least)
        }
        Tells::Cells => {
            let end = put_line(out, at, b"cells lent ", found);
            put_line(out, end, b"cells needed ", least)
        }
        Tells::Values => {
            let end = put_found_line(out, at, code, found);
            put_expected_line(out, end, code, least, most)
        }
    }
}

fn put_field_line(out: &mut [u8], at: usize, f: Field) -> usize
    ensures { Put (field_line f) at out.old result out.new }
{
    let start = put(out, at, b"field ");
    let end = put(out, start, fields::name(f).as_bytes());
    put_byte(out, end, b'\n')
}

fn put_check(out: &mut [u8], at: usize, c: Check) -> usize
    ensures { Put (check_text c) at out.old result out.new }
{
    let row = c.0;
    let f = c.2;
    let end = put_field_line(out, at, f);
    put_number_lines(
        out,
        end,
        tells_of(row),
        fields::are_codes(row, f),
        c.3 as u64,
        c.4 as u64,
        c.5 as u64,
    )
}

fn put_coarsest_line(out: &mut [u8], at: usize, w: Why, i: usize) -> usize
    requires { i < 4 }
    ensures { Put (coarsest_line w i) at out.old result out.new }
{
    let there = w.coarsest[i];
    let a = put_field(out, at, b"component ", i as u64);
    let b = put_field(out, a, b" band ", there.band as u64);
    let c = put_field(out, b, b" precinct ", there.precinct as u64);
    put_line(out, c, b" truncation ", there.truncation as u64)
}

// The same, where the page has so many components.
fn put_coarsest_of(out: &mut [u8], at: usize, w: Why, i: usize) -> usize
    requires { i < 4 }
    ensures { Put (coarsest_of w i) at out.old result out.new }
{
    if w.components <= i {
        return at;
    }
    put_coarsest_line(out, at, w, i)
}

fn put_coarsest(out: &mut [u8], from: usize, w: Why) -> usize
    ensures { Put (coarsest_lines w 4) from out.old result out.new }
{
    let mut at = from;
    for i in 0..4 {
        at = put_coarsest_of(out, at, w, i);
    }
    at
}

// What follows the answer.
fn put_reason(out: &mut [u8], at: usize, v: Verdict, w: Why) -> usize
    ensures { Put (reason_text v w) at out.old result out.new }
{
    match v {
        Ok(()) => put_coarsest(out, at, w),
        Err(c) => put_check(out, at, c),
    }
}

// The text of why a page was refused, or where it is coarsest, as far as there is room. Answers how many bytes that is.
pub fn why_text(w: Why, out: &mut [u8]) -> usize
    ensures prefix_len { IsPrefixLen result out.new }
    ensures leads { Leads (why_text w) out.old result out.new }
{
    let v = w.verdict;
    let end = put_answer(out, rows::answer(v) as u64, w.place as u64);
    put_reason(out, end, v, w)
}

// Judges a stream, with 2,048 sample cells and 4,096 work cells, and puts the text into a buffer, as far as there is room.
pub fn why_of(stream: &[u8], out: &mut [u8]) -> usize
    ensures prefix_len { IsPrefixLen result out.new }
    ensures leads { Leads (why_text (why_of stream.now 2048 4096)) out.old result out.new }
{
    let mut work = [0i64; 4096];
    let w = reasons::explain(stream, 2048, &mut work);
    why_text(w, out)
}
