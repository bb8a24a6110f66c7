// What a spoilt slice leaves in the cells.
ghost use Rattle.std.specs.Prelude.{◌≡◌, ◌+◌, ◌*◌, ◌≤◌, ◌<◌, min, length};
ghost use Rattle.whole.specs.Cells.{map_at};
ghost use Rattle.layout.specs.Built.{Built};
ghost use Rattle.layout.specs.Cells.{start};
ghost use Rattle.layout.specs.Precincts.{slices};
ghost use Rattle.damage.specs.Lost.{lost_cell, lose};
ghost use Rattle.damage.specs.Steps.{lost_number, LostNumbers, IsRows, NumberedBy};

use layout::Shape;
use layout::bands::component_of;
use layout::lines::{area_of, samples_before};
use layout::numbers::power;
use std::ops::Range;

// The rows of component i that slice t has: 2^NLy / sy for each row of precincts, as far as there are so many.
fn rows_of(s: Shape, i: usize, t: usize) -> Range<usize>
    requires { Built s × (i < s.nc) × (t < slices s) }
    ensures { IsRows s i t result }
{
    let c = component_of(s, i);
    let tall = s.hsl * (power(s.nly) / c.sy);
    let top = t * tall;
    top.min(c.h)..(top + tall).min(c.h)
}

// The coefficients of component i that slice t has become 0, and their counts −1.
fn lose_rows(cells: &mut [i64], s: Shape, i: usize, t: usize)
    requires { Built s × (i < s.nc) × (t < slices s) × (start s s.nc ≤ length cells.old) }
    ensures { cells.new ≡ map_at (lost_cell s t i) cells.old }
{
    let c = component_of(s, i);
    let r = rows_of(s, i, t);
    let coefficients = 2 * samples_before(s, i);
    let counts = coefficients + area_of(s, i);
    let from = r.start * c.w;
    let to = r.end * c.w;
    cells[coefficients + from..coefficients + to].fill(0);
    cells[counts + from..counts + to].fill(-1);
}

// All coefficients of slice t are lost.
pub fn lose(cells: &mut [i64], s: Shape, t: usize)
    requires { Built s × (t < slices s) × (start s s.nc ≤ length cells.old) }
    ensures { cells.new ≡ lose s t cells.old }
{
    for i in 0..s.nc {
        lose_rows(cells, s, i, t);
    }
}

fn lost_number(count: i64) -> i64
    ensures { result ≡ lost_number count }
{
    i64::from(count < 0)
}

// The numbers of `size` coefficients from `from` on. Their counts lie `size` cells behind them.
fn numbers_from(cells: &mut [i64], from: usize, size: usize)
    requires { from + 2 * size ≤ length cells.old }
    ensures { NumberedBy from size size cells.old cells.new }
{
    for k in 0..size {
        cells[from + k] = lost_number(cells[from + size + k]);
    }
}

// Each coefficient becomes the number that tells whether it is lost. The counts stay.
pub fn lost_numbers(cells: &mut [i64], s: Shape)
    requires { Built s × (start s s.nc ≤ length cells.old) }
    ensures { LostNumbers s cells.old cells.new }
{
    for i in 0..s.nc {
        numbers_from(cells, 2 * samples_before(s, i), area_of(s, i));
    }
}
