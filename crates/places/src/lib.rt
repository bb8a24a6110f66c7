// Document 01's distance rule 1, coefficient by coefficient: the number of each coefficient, into the cell where the coefficient stands.
#![tactic(auto)]

ghost use Rattle.std.specs.Prelude.{◌≡◌, ◌≤◌, ◌<◌, pos, length};
ghost use Rattle.whole.specs.Cells.{OntoLine};
ghost use Rattle.rows.specs.Rows.{Fine};
ghost use Rattle.layout.specs.Bands.{NL};
ghost use Rattle.layout.specs.Precincts.{Npx, Npy, slices};
ghost use Rattle.layout.specs.Cells.{start};
ghost use Rattle.layout.specs.Slots.{candidates};
ghost use Rattle.values.specs.Steps.{InCells};
ghost use Rattle.packets.specs.Ready.{Settled, Slotted};
ghost use Rattle.slices.specs.Steps.{Lent};
ghost use Rattle.slices.specs.Walk.{walk_slice, walk_stream};
ghost use Rattle.places.specs.Writes.{number_in, line_writes, slot_writes, precinct_writes, slice_writes, Written};
ghost use Rattle.places.specs.Steps.{Filled};

use layout::Line;
use layout::lines::{candidate_count, line_at, slot_count};
use layout::precincts::{precincts_in_slice, slice_count};
use packets::bands::truncation_of;
use packets::{Precinct, Setting};
use slices::precincts::precinct_in;

// One number into every cell of a line.
fn fill_line(cells: &mut [i64], l: Line, number: i64)
    requires { InCells l.cell l.stride l.width (length cells.old) × (0 < l.stride) }
    ensures { OntoLine l.cell l.stride l.width (λ _. number) cells.old cells.new }
{
    for x in 0..l.width {
        cells[l.cell + x * l.stride] = number;
    }
}

// The number of each coefficient of band b, whatever the coefficient is.
fn number_in(c: Setting, p: Precinct, b: usize) -> i64
    requires { Settled c × (b < NL c.shape) }
    ensures { result ≡ pos (number_in c p b) }
{
    let t = truncation_of(c, p, b);
    quantiser::band_number(t as u64, c.fq as u64) as i64
}

// Candidate j of a slot, which the precinct has or does not have.
fn fill_candidate(cells: &mut [i64], c: Setting, p: Precinct, slot: usize, j: usize)
    requires { Slotted c p slot × (j < candidates c.shape slot) × (start c.shape c.shape.nc ≤ length cells.old) }
    ensures { Written (line_writes c p slot j) cells.old cells.new }
{
    let l = line_at(c.shape, p.row, p.column, slot, j);
    if l.present {
        fill_line(cells, l, number_in(c, p, l.band));
    }
}

fn fill_slot(cells: &mut [i64], c: Setting, p: Precinct, slot: usize)
    requires { Slotted c p slot × (start c.shape c.shape.nc ≤ length cells.old) }
    ensures { Written (slot_writes c p slot) cells.old cells.new }
{
    for j in 0..candidate_count(c.shape, slot) {
        fill_candidate(cells, c, p, slot, j);
    }
}

fn fill_precinct(cells: &mut [i64], c: Setting, p: Precinct)
    requires { Settled c × (p.row < Npy c.shape) × (p.column < Npx c.shape) × (start c.shape c.shape.nc ≤ length cells.old) }
    ensures { Written (precinct_writes c p) cells.old cells.new }
{
    for slot in 0..slot_count(c.shape) {
        fill_slot(cells, c, p, slot);
    }
}

// Slice t, whose header stands at `at`. The place behind it is handed over.
fn fill_slice(s: &[u8], cells: &mut [i64], c: Setting, t: usize, at: usize) -> usize
    requires { Lent s.now c at (length cells.old) × (t < slices c.shape) × ((walk_slice s.now c t at).0 ≡ Fine) }
    ensures { (result ≡ (walk_slice s.now c t at).1) × Written (slice_writes s.now c t at) cells.old cells.new }
{
    let mut place = at + 6;
    for n in 0..precincts_in_slice(c.shape, t) {
        let p = precinct_in(s, c, t, n, place);
        fill_precinct(cells, c, p);
        place = p.end;
    }
    place
}

// Document 01's distance rule 1, coefficient by coefficient: the number of each coefficient, into the cell where the coefficient stands. The walk by
// declared lengths finds the precincts.
pub fn fill(s: &[u8], cells: &mut [i64], c: Setting, at: usize)
    requires { Lent s.now c at (length cells.old) × ((walk_stream s.now c at).0 ≡ Fine) }
    ensures { Filled s.now c at cells.old cells.new }
{
    let mut place = at;
    for t in 0..slice_count(c.shape) {
        place = fill_slice(s, cells, c, t, place);
    }
}
