// Reads the header of each file that is named, and prints what Annex B makes of it: components, slices, precincts, packets and their lines.
#![tactic(auto)]

ghost use Rattle.std.specs.Prelude.{◌<◌};
ghost use Rattle.layout.specs.Built.{Built};
ghost use Rattle.layout.specs.Precincts.{Npx, Npy, slices};
ghost use Rattle.layout.specs.Slots.{slots};

use input::each_file;
use layout::bands::component_of;
use layout::lines::{candidate_count, line_at, slot_count};
use layout::numbers::product;
use layout::precincts::{precinct_columns, precinct_rows, precincts_in_slice, slice_count};
use layout::{Line, Shape};
use std::io;

fn print_component(rt: &impl Print, s: Shape, i: usize) -> io::Result<()>
    requires { Built s × (i < s.nc) }
{
    let c = component_of(s, i);
    println!(rt; "component {i} width {} height {}", c.w, c.h)
}

fn print_components(rt: &impl Print, s: Shape) -> io::Result<()>
    requires { Built s }
{
    for i in 0..s.nc {
        print_component(rt, s, i)?;
    }
    Ok(())
}

// Slice t, whose first row of precincts is t times Hsl.
fn print_slice(rt: &impl Print, s: Shape, t: usize) -> io::Result<()>
    requires { Built s × (t < slices s) }
{
    let count = precincts_in_slice(s, t);
    let columns = precinct_columns(s);
    let top = product(t, s.hsl);
    let first = product(top, columns);
    println!(rt; "slice {t} first {first} count {count}")
}

fn print_slices(rt: &impl Print, s: Shape) -> io::Result<()>
    requires { Built s }
{
    for t in 0..slice_count(s) {
        print_slice(rt, s, t)?;
    }
    Ok(())
}

// How many of the lines that slot k can have the precinct has.
fn line_count(s: Shape, row: usize, column: usize, k: usize) -> usize
    requires { Built s × (row < Npy s) × (column < Npx s) × (k < slots s) }
{
    (0..candidate_count(s, k))
        .filter(|j| line_at(s, row, column, k, *j).present)
        .count()
}

fn print_line(rt: &impl Print, l: Line) -> io::Result<()> {
    if !l.present {
        return Ok(());
    }
    print!(rt; "line band {} component {} y {}", l.band, l.component, l.y)?;
    println!(rt; " width {} cell {}", l.width, l.cell)
}

fn print_lines(rt: &impl Print, s: Shape, row: usize, column: usize, k: usize) -> io::Result<()>
    requires { Built s × (row < Npy s) × (column < Npx s) × (k < slots s) }
{
    for j in 0..candidate_count(s, k) {
        print_line(rt, line_at(s, row, column, k, j))?;
    }
    Ok(())
}

// Slot k, the packet with this number if it is one. Whether it is.
fn print_packet(
    rt: &impl Print,
    s: Shape,
    row: usize,
    column: usize,
    k: usize,
    number: usize,
) -> io::Result<bool>
    requires { Built s × (row < Npy s) × (column < Npx s) × (k < slots s) }
{
    let lines = line_count(s, row, column, k);
    if lines == 0 {
        return Ok(false);
    }
    println!(rt; "packet {number} lines {lines}")?;
    print_lines(rt, s, row, column, k)?;
    Ok(true)
}

fn print_packets(rt: &impl Print, s: Shape, row: usize, column: usize) -> io::Result<()>
    requires { Built s × (row < Npy s) × (column < Npx s) }
{
    let mut number = 0;
    for k in 0..slot_count(s) {
        number += usize::from(print_packet(rt, s, row, column, k, number)?);
    }
    Ok(())
}

fn print_precinct(rt: &impl Print, s: Shape, row: usize, column: usize) -> io::Result<()>
    requires { Built s × (row < Npy s) × (column < Npx s) }
{
    let columns = precinct_columns(s);
    let first = product(row, columns);
    println!(rt; "precinct {} row {row} column {column}", first + column)?;
    print_packets(rt, s, row, column)
}

fn print_row(rt: &impl Print, s: Shape, row: usize) -> io::Result<()>
    requires { Built s × (row < Npy s) }
{
    for column in 0..precinct_columns(s) {
        print_precinct(rt, s, row, column)?;
    }
    Ok(())
}

fn print_rows(rt: &impl Print, s: Shape) -> io::Result<()>
    requires { Built s }
{
    for row in 0..precinct_rows(s) {
        print_row(rt, s, row)?;
    }
    Ok(())
}

fn print_layout(rt: &impl Print, s: Shape) -> io::Result<()>
    requires { Built s }
{
    print_components(rt, s)?;
    println!(rt; "columns {} rows {}", precinct_columns(s), precinct_rows(s))?;
    print_slices(rt, s)?;
    print_rows(rt, s)
}

fn print_stream(rt: &impl Print, name: &str, stream: &[u8]) -> io::Result<()> {
    println!(rt; "stream {name}")?;
    match header::read(stream) {
        Ok(h) => print_layout(rt, shapes::shape_of(h)),
        Err(c) => println!(rt; "answer {} at {}", c.0.number(), c.1),
    }
}

fn main(rt: HostRuntime) -> io::Result<()> {
    each_file(&rt, |name, held| match held {
        Some(stream) => print_stream(&rt, name, stream),
        None => println!(rt; "stream {name}\nlonger than 65535 bytes"),
    })
}
