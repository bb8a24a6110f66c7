// The component table.
ghost use Rattle.std.specs.Prelude.{◌≡◌, cond, [], ◌∷◌, ◌&&◌, ◌+◌, ◌*◌, ◌%◌, ◌≤◌, ◌<◌, ◌^◌, eqb, ltb};
ghost use Rattle.rows.specs.Rows.{first};
ghost use Rattle.bits.specs.Fields.{IsField};
ghost use Rattle.picture.specs.Picture.{Built};
ghost use Rattle.segments.specs.Components.{widest, depth_checks, level_checks, filter_checks, column_check, sx_checks, sy_checks, across_checks, down_checks, component_checks, components_checks, IsComponent};

use crate::numbers::{ceil, remainder};
use layout::numbers::{low_size, power};
use picture::picture::Picture;
use rows::{AMPLE, Check, Field, Row, Verdict};

// A component as the table has it.
#[derive(Clone, Copy)]
pub struct Component {
    pub depth: usize,
    pub sx: usize,
    pub sy: usize,
}

// The sampling factors of component c of the table at p, which share a byte.
pub(crate) fn sx_at(s: &[u8], p: usize, c: usize) -> usize
    requires { (p < 2 ^ 32) × (c < 256) }
    ensures { IsField s.now (8 * (p + 5 + 2 * c)) 4 result }
{
    bits::u8_at(s, p + 5 + 2 * c) / 16
}

pub(crate) fn sy_at(s: &[u8], p: usize, c: usize) -> usize
    requires { (p < 2 ^ 32) × (c < 256) }
    ensures { IsField s.now (8 * (p + 5 + 2 * c) + 4) 4 result }
{
    bits::u8_at(s, p + 5 + 2 * c) % 16
}

impl Component {
    // Component c of the table at p.
    pub fn read(s: &[u8], p: usize, c: usize) -> Self
        requires { (p < 2 ^ 32) × (c < 256) }
        ensures { IsComponent s.now p c result }
    {
        Self {
            depth: bits::u8_at(s, p + 4 + 2 * c),
            sx: sx_at(s, p, c),
            sy: sy_at(s, p, c),
        }
    }
}

// The greatest sx of n components.
fn widest(s: &[u8], p: usize, n: usize) -> usize
    requires { (p < 2 ^ 32) × (n < 256) }
    ensures { (result ≡ widest s.now p n) × (result < 16) }
{
    let mut m = 0;
    for c in 0..n {
        m = m.max(sx_at(s, p, c));
    }
    m
}

// The precision of component c of the table at p.
fn depth_row(s: &[u8], h: Picture, p: usize, c: usize) -> Verdict
    requires { (p < 2 ^ 32) × (c < 256) }
    ensures { result ≡ first (depth_checks s.now h p c) }
{
    let place = p + 4 + 2 * c;
    let depth = bits::u8_at(s, place);
    let (least, most) = if h.fq == 0 { (h.bw, h.bw) } else { (8, 16) };
    rows::first(&[
        Check(Row::Value, place, Field::B, depth, 8, 16),
        Check(Row::Value, place, Field::B, depth, least, most),
    ])
}

// Two samples to each filter: n samples, halved from level to level.
fn filter_row(field: Field, place: usize, n: usize, levels: usize) -> Verdict
    requires { (n < 2 ^ 32) × (levels ≤ 5) }
    ensures { result ≡ first (filter_checks field place n levels) }
{
    for d in 0..levels {
        level_row(field, place, n, d)?;
    }
    Ok(())
}

// The filter behind d others.
fn level_row(field: Field, place: usize, n: usize, d: usize) -> Verdict
    requires { (n < 2 ^ 32) × (d ≤ 5) }
    ensures { result ≡ first (level_checks field place n d) }
{
    rows::first(&[Check(Row::Lacking, place, field, low_size(n, d), 2, AMPLE)])
}

// Precinct columns are multiples of this many grid points, for the greatest sx.
fn column_unit(h: Picture, m: usize) -> usize
    requires { Built h × (m < 16) }
    ensures { (result ≡ m * 2 ^ h.nlx) × (result < 512) }
{
    m * power(h.nlx)
}

// What is left of the width for the last column.
fn last_column(h: Picture, unit: usize) -> usize
    requires { Built h × (unit < 512) }
    ensures { result ≡ h.wf % (8 * h.cw * unit) }
{
    remainder(h.wf, 8 * h.cw * unit)
}

// A precinct column's least width: at the last component the unit, and nothing before.
fn least_column(h: Picture, c: usize, unit: usize) -> usize
    requires { c < 256 }
    ensures { result ≡ cond (eqb (c + 1) h.nc && ltb 0 h.cw) unit 0 }
{
    if c + 1 == h.nc && 0 < h.cw { unit } else { 0 }
}

// The rule of Cw, which joins it with every sx: m is the greatest.
fn column_row(s: &[u8], h: Picture, p: usize, c: usize, m: usize) -> Verdict
    requires { Built h × (p < 2 ^ 32) × (c < 256) × (m ≡ widest s.now p h.nc) × (m < 16) }
    ensures { result ≡ first (column_check s.now h p c ∷ []) }
{
    let unit = column_unit(h, m);
    let last = last_column(h, unit);
    let least = least_column(h, c, unit);
    rows::first(&[Check(Row::Value, p + 5 + 2 * c, Field::Cw, last, least, AMPLE)])
}

// The rules of sx, and at the last component that of Cw: m is the greatest sx.
fn sx_row(s: &[u8], h: Picture, p: usize, c: usize, m: usize) -> Verdict
    requires { Built h × (p < 2 ^ 32) × (c < 256) × (m ≡ widest s.now p h.nc) × (m < 16) }
    ensures { result ≡ first (sx_checks s.now h p c) }
{
    let place = p + 5 + 2 * c;
    let sx = sx_at(s, p, c);
    let most = if c == 1 || c == 2 { 2 } else { 1 };
    let colour = if h.cpih == 1 { 1 } else { 2 };
    rows::first(&[
        Check(Row::Value, place, Field::Sx, sx, 1, most),
        Check(Row::Value, place, Field::Sx, sx, 1, colour),
    ])?;
    column_row(s, h, p, c, m)
}

// All that is checked at sx.
fn across_row(s: &[u8], h: Picture, p: usize, c: usize, m: usize) -> Verdict
    requires { Built h × (p < 2 ^ 32) × (c < 256) × (m ≡ widest s.now p h.nc) × (m < 16) }
    ensures { result ≡ first (across_checks s.now h p c) }
{
    let samples = ceil(h.wf, sx_at(s, p, c));
    sx_row(s, h, p, c, m)?;
    filter_row(Field::Across, p + 5 + 2 * c, samples, h.nlx)
}

// The rules of sy.
fn sy_row(s: &[u8], h: Picture, p: usize, c: usize) -> Verdict
    requires { Built h × (p < 2 ^ 32) × (c < 256) }
    ensures { result ≡ first (sy_checks s.now h p c) }
{
    let place = p + 5 + 2 * c;
    let sx = sx_at(s, p, c);
    let sy = sy_at(s, p, c);
    let colour = if h.cpih == 1 { 1 } else { 2 };
    let levels = power(h.nly);
    rows::first(&[
        Check(Row::Value, place, Field::Sy, sy, 1, sx),
        Check(Row::Value, place, Field::Sy, sy, 1, colour),
        Check(Row::Value, place, Field::Sy, sy, 1, levels),
    ])
}

// All that is checked at sy.
fn down_row(s: &[u8], h: Picture, p: usize, c: usize) -> Verdict
    requires { Built h × (p < 2 ^ 32) × (c < 256) }
    ensures { result ≡ first (down_checks s.now h p c) }
{
    let sy = sy_at(s, p, c);
    let samples = ceil(h.hf, sy);
    let levels = h.nly.saturating_sub(sy / 2);
    sy_row(s, h, p, c)?;
    filter_row(Field::Down, p + 5 + 2 * c, samples, levels)
}

// One component.
fn component_row(s: &[u8], h: Picture, p: usize, c: usize, m: usize) -> Verdict
    requires { Built h × (p < 2 ^ 32) × (c < 256) × (m ≡ widest s.now p h.nc) × (m < 16) }
    ensures { result ≡ first (component_checks s.now h p c) }
{
    depth_row(s, h, p, c)?;
    across_row(s, h, p, c, m)?;
    down_row(s, h, p, c)
}

// All components of the table at p.
pub(crate) fn components_row(s: &[u8], h: Picture, p: usize) -> Verdict
    requires { Built h × (p < 2 ^ 32) }
    ensures { result ≡ first (components_checks s.now h p) }
{
    let m = widest(s, p, h.nc);
    for c in 0..h.nc {
        component_row(s, h, p, c, m)?;
    }
    Ok(())
}
