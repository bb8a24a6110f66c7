// C.2: a precinct, its header and its packets.
ghost use Rattle.std.specs.Prelude.{◌≡◌, cond, [], ◌∷◌, ◌+◌, ◌*◌, ◌-◌, ◌/◌, ◌%◌, ◌≤◌, ◌<◌, ◌^◌, length};
ghost use Rattle.bits.specs.Fields.{field};
ghost use Rattle.rows.specs.Rows.{check, first, each};
ghost use Rattle.rows.specs.declared.Row.TheVariants.{Mode, Length};
ghost use Rattle.rows.specs.declared.Field.TheVariants.{D as ModeField, Rest};
ghost use Rattle.layout.specs.Bands.{NL};
ghost use Rattle.layout.specs.Precincts.{Np, slices};
ghost use Rattle.layout.specs.Slots.{slots};
ghost use Rattle.packets.specs.Ready.{Settled, Standing};
ghost use Rattle.slices.specs.Precinct.{field_checks, mode_checks, header_checks, packets, precinct};
ghost use Rattle.slices.specs.Slice.{row_of, column_in};
ghost use Rattle.slices.specs.Steps.{Lent, Placed, IsPrecinct, Passed, IsPacked};

use layout::headers::{band_count, band_exists};
use layout::lines::slot_count;
use layout::precincts::precinct_columns;
use packets::passes::any_line;
use packets::{Precinct, Setting};
use picture::segment::left;
use pieces::{Bytes, NOTHING};
use rows::{AMPLE, Check, Field, Row, Verdict};

// What a slot of a precinct leaves beside the cells: the next place, the raw flags of the slots so far, and where the slot's bytes went.
#[derive(Clone, Copy)]
struct Flags {
    at: usize,
    raws: [usize; 10],
    bytes: Bytes,
}

// The precinct in this row and column whose header stands at `at`, whether it is accepted or not.
fn precinct_at(s: &[u8], c: Setting, row: usize, column: usize, at: usize) -> Precinct
    requires { Settled c × (length s.now < 2 ^ 32) × (at ≤ length s.now) }
    ensures { IsPrecinct s.now c row column at result }
{
    let body = at + c.head;
    Precinct {
        row,
        column,
        at,
        end: body + bits::u24_at(s, at),
        q: bits::u8_at(s, at + 3),
        r: bits::u8_at(s, at + 4),
    }
}

// Precinct n of slice t, whose header stands at `at`.
pub fn precinct_in(s: &[u8], c: Setting, t: usize, n: usize, at: usize) -> Precinct
    requires { Settled c × (length s.now < 2 ^ 32) × (at ≤ length s.now) × (t < slices c.shape) × (n < Np c.shape t) }
    ensures { IsPrecinct s.now c (row_of s.now c t n) (column_in s.now c t n) at result }
{
    let shape = c.shape;
    let columns = precinct_columns(shape);
    let down = n / columns;
    let row = t * shape.hsl + down;
    precinct_at(s, c, row, n % columns, at)
}

// Lprc, Q and R.
fn field_row(s: &[u8], c: Setting, p: Precinct) -> Verdict
    requires { Settled c × (p.at < 2 ^ 32) × IsPrecinct s.now c p.row p.column p.at p }
    ensures { result ≡ first (field_checks s.now c p.row p.column p.at) }
{
    let shape = c.shape;
    let at = p.at;
    let there = left(s, at);
    let lprc = bits::u24_at(s, at);
    let size = p.end - at;
    let most = 2 * band_count(shape) - 1;
    rows::first(&[
        Check(Row::Cut, at, Field::Lprc, there, 3, AMPLE),
        Check(Row::Value, at, Field::Lprc, lprc, 1, 0xfffff),
        Check(Row::Length, at, Field::Precinct, size, 0, there),
        Check(Row::Value, at + 3, Field::Q, p.q, 0, 31),
        Check(Row::Value, at + 4, Field::R, p.r, 0, most),
    ])
}

// D of a band whose field, where it has one, stands at a bit of the header.
fn mode_row(s: &[u8], at: usize, bit: usize, exists: bool) -> Verdict
    requires { (at < 2 ^ 32) × (bit < 2 ^ 32) }
    ensures { result ≡ first (cond exists (check Mode (at + bit / 8) ModeField (field s.now (8 * at + bit) 2 % 2) 0 0 ∷ []) []) }
{
    if exists {
        let d = bits::field(s, 8 * at + bit, 2);
        return rows::first(&[Check(Row::Mode, at + bit / 8, Field::D, d % 2, 0, 0)]);
    }
    Ok(())
}

// The D of all bands. Below the top row of a slice each may be what it is.
fn mode_rows(s: &[u8], c: Setting, p: Precinct, top: bool) -> Verdict
    requires { Settled c × (p.at < 2 ^ 32) × IsPrecinct s.now c p.row p.column p.at p }
    ensures { result ≡ first (each (NL c.shape) (mode_checks s.now c p.row p.column p.at top)) }
{
    if !top {
        return Ok(());
    }
    let shape = c.shape;
    let at = p.at;
    let n = band_count(shape);
    let mut bit = 40;
    for b in 0..n {
        let exists = band_exists(shape, b);
        mode_row(s, at, bit, exists)?;
        bit += 2 * usize::from(exists);
    }
    Ok(())
}

fn header_row(s: &[u8], c: Setting, p: Precinct, top: bool) -> Verdict
    requires { Settled c × (p.at < 2 ^ 32) × IsPrecinct s.now c p.row p.column p.at p }
    ensures { result ≡ first (header_checks s.now c p.row p.column p.at top) }
{
    field_row(s, c, p)?;
    mode_rows(s, c, p, top)
}

// The packet of a slot, which has none where the precinct has none of its lines.
fn packet_turn(
    s: &[u8],
    cells: &mut [i64],
    c: Setting,
    p: Precinct,
    slot: usize,
    at: usize,
    raws: [usize; 10],
) -> Result<Flags, Check>
    requires { Settled c × Standing s.now c p (length cells.old) × (at ≤ p.end) × (slot < slots c.shape) × IsPrecinct s.now c p.row p.column p.at p }
    ensures { Passed s.now c p slot at raws cells.old result cells.new }
{
    if any_line(c, p, slot) {
        let o = packets::packet(s, cells, c, p, slot, at, raws);
        o.verdict?;
        let bytes = o.bytes;
        let mut flags = raws;
        flags[slot] = o.dr;
        return Ok(Flags {
            at: o.past,
            raws: flags,
            bytes,
        });
    }
    Ok(Flags {
        at,
        raws,
        bytes: NOTHING,
    })
}

fn rest_row(p: Precinct, place: usize) -> Verdict
    requires { place ≤ p.end }
    ensures { result ≡ first (check Length p.at Rest (p.end - place) 0 0 ∷ []) }
{
    rows::first(&[Check(Row::Length, p.at, Field::Rest, p.end - place, 0, 0)])
}

// The packets, which stand behind the header and fill the precinct: where its bytes went.
fn packets(s: &[u8], cells: &mut [i64], c: Setting, p: Precinct) -> Result<Bytes, Check>
    requires { Settled c × Standing s.now c p (length cells.old) × IsPrecinct s.now c p.row p.column p.at p }
    ensures { IsPacked s.now c p (packets s.now c p.row p.column p.at cells.old) cells.old result cells.new }
{
    let shape = c.shape;
    let mut at = p.end - bits::u24_at(s, p.at);
    let mut raws: [usize; 10] = [0; 10];
    let mut bytes = Bytes::of_precincts(at - p.at);
    for slot in 0..slot_count(shape) {
        let f = packet_turn(s, cells, c, p, slot, at, raws)?;
        at = f.at;
        let flags = f.raws;
        raws = flags;
        let more = f.bytes;
        bytes = bytes.and(more);
    }
    rest_row(p, at)?;
    Ok(bytes)
}

// A precinct, `top` where it stands in the top row of its slice: where its bytes went.
pub(crate) fn precinct(
    s: &[u8],
    cells: &mut [i64],
    c: Setting,
    p: Precinct,
    top: bool,
) -> Result<Bytes, Check>
    requires { Lent s.now c p.at (length cells.old) × Placed c p top × IsPrecinct s.now c p.row p.column p.at p }
    ensures { IsPacked s.now c p (precinct s.now c p.row p.column p.at top cells.old) cells.old result cells.new }
{
    header_row(s, c, p, top)?;
    packets(s, cells, c, p)
}
