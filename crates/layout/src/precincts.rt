// B.5 and B.11: precincts and slices.
ghost use Rattle.std.specs.Prelude.{◌≡◌, ◌*◌, ◌<◌, ◌≤◌, ◌^◌};
ghost use Rattle.layout.specs.Built.{Built};
ghost use Rattle.layout.specs.Precincts.{Npx, Npy, slices, slice_rows, Np};
ghost use Rattle.layout.specs.Sizes.{IsLargest, IsColumnWidth, IsColumn};

use crate::Shape;
use crate::numbers::{low_size, power, product};

// A column of precincts on the sampling grid.
#[derive(Clone, Copy)]
pub struct Column {
    pub x: usize,
    pub width: usize,
}

// The entries past the components are 0.
fn largest_sx(s: Shape) -> usize
    requires { Built s }
    ensures { IsLargest s result }
{
    let [a, b, c, d] = s.sx;
    a.max(b).max(c).max(d)
}

fn column_width(s: Shape) -> usize
    requires { Built s }
    ensures { IsColumnWidth s result }
{
    let cw = s.cw;
    if 0 < cw {
        let most = largest_sx(s);
        let wide = product(8 * cw, most);
        return product(wide, power(s.nlx));
    }
    s.wf
}

pub fn precinct_columns(s: Shape) -> usize
    requires { Built s }
    ensures { (result ≡ Npx s) × (result ≤ 16384) }
{
    s.wf.div_ceil(column_width(s))
}

pub fn precinct_rows(s: Shape) -> usize
    requires { Built s }
    ensures { (result ≡ Npy s) × (result ≤ 16384) }
{
    low_size(s.hf, s.nly)
}

pub(crate) fn column_of(s: Shape, column: usize) -> Column
    requires { Built s × (column < Npx s) }
    ensures { IsColumn s column result }
{
    let cs = column_width(s);
    let n = precinct_columns(s);
    let x = product(column, cs);
    if column < n - 1 {
        return Column { x, width: cs };
    }
    Column {
        x,
        width: (s.wf - 1) % cs + 1,
    }
}

// The rows of precincts in slice t.
fn rows_in_slice(s: Shape, t: usize) -> usize
    requires { Built s × (t < 2 ^ 16) }
    ensures { (result ≡ slice_rows s t) × (result < 2 ^ 16) }
{
    let n = precinct_rows(s);
    let hsl = s.hsl;
    let end = product(t + 1, hsl);
    if n < end {
        return n % hsl;
    }
    hsl
}

pub fn precincts_in_slice(s: Shape, t: usize) -> usize
    requires { Built s × (t < 2 ^ 16) }
    ensures { result ≡ Np s t }
{
    let n = precinct_columns(s);
    product(n, rows_in_slice(s, t))
}

pub fn slice_count(s: Shape) -> usize
    requires { Built s }
    ensures { (result ≡ slices s) × (result ≤ 16384) }
{
    precinct_rows(s).div_ceil(s.hsl)
}
