// C.6.3 to C.6.6: the bitplane count of one code group.
ghost use Rattle.std.specs.Prelude.{◌≡◌, ◌+◌, ◌/◌, ◌^◌, ◌≤◌, ◌<◌, pos, length};
ghost use Rattle.counts.specs.Groups.{counted, coded, unpack_raw, unpack_vertical, Limit};

use crate::group::{Coding, Count, Fault};

// A count m, if it is one.
fn in_range(m: usize, next: usize) -> Result<Count, Fault>
    ensures { result ≡ counted (pos m) next }
{
    if m <= 31 {
        Ok(Count { m, next })
    } else {
        Err(Fault::High(m))
    }
}

// 2^(Br+1), the number of 1-bits that is too many.
fn too_many(br: usize) -> usize
    requires { br ≤ 5 }
    ensures { Limit br result }
{
    1 << (br + 1)
}

// The predictor mtop, moved by the code at the bit i, byte after byte.
fn walk_code(s: &[u8], br: usize, mtop: usize, t: usize, i: usize) -> Result<Count, Fault>
    requires { (length s.now < 2 ^ 56) × (br ≤ 5) × (mtop ≤ 31) }
    ensures { result ≡ coded s.now br mtop t i }
{
    let all = 8 * s.len();
    if all <= i {
        return Err(Fault::Cut);
    }
    let limit = too_many(br);
    let n = crate::code::ones_from(s, i, limit);
    if limit <= n {
        return Err(Fault::Long(n));
    }
    if all <= i + n {
        return Err(Fault::Cut);
    }
    in_range(crate::code::moved(mtop, t, n), i + n + 1)
}

// The same where the eight bytes from that of bit i on are there. If they hold the whole code, as they nearly always do, no end cuts it.
fn code_ahead(s: &[u8], br: usize, mtop: usize, t: usize, i: usize) -> Result<Count, Fault>
    requires { (length s.now < 2 ^ 56) × (br ≤ 5) × (mtop ≤ 31) × (i / 8 + 8 ≤ length s.now) }
    ensures { result ≡ coded s.now br mtop t i }
{
    let limit = too_many(br);
    let n = crate::code::ones_ahead(s, i);
    let short = (n < limit) & (n < 32);
    if short {
        return in_range(crate::code::moved(mtop, t, n), i + n + 1);
    }
    walk_code(s, br, mtop, t, i)
}

// The predictor mtop, moved by the code at the bit i.
fn read_code(s: &[u8], br: usize, mtop: usize, t: usize, i: usize) -> Result<Count, Fault>
    requires { (length s.now < 2 ^ 56) × (br ≤ 5) × (mtop ≤ 31) }
    ensures { result ≡ coded s.now br mtop t i }
{
    if i / 8 + 8 <= s.len() {
        code_ahead(s, br, mtop, t, i)
    } else {
        walk_code(s, br, mtop, t, i)
    }
}

// Table C.14.
pub fn read_raw(s: &[u8], br: usize, i: usize) -> Result<Count, Fault>
    requires { (length s.now < 2 ^ 56) × (br ≤ 5) }
    ensures { result ≡ unpack_raw s.now br i }
{
    let all = 8 * s.len();
    if all < i {
        return Err(Fault::Cut);
    }
    if all - i < br {
        return Err(Fault::Cut);
    }
    in_range(bits::field(s, i, br), i + br)
}

// Table C.15, below a group with the count m_above and the truncation position t_above.
pub fn read_vertical(
    s: &[u8],
    c: Coding,
    insignificant: bool,
    m_above: usize,
    t_above: usize,
    i: usize,
) -> Result<Count, Fault>
    requires { (length s.now < 2 ^ 56) × (c.br ≤ 5) × (c.t ≤ 31) × (m_above ≤ 31) × (t_above ≤ 31) }
    ensures { result ≡ unpack_vertical s.now c insignificant m_above t_above i }
{
    let mtop = m_above.max(c.t.max(t_above));
    if insignificant {
        if c.run {
            in_range(c.t, i)
        } else {
            in_range(mtop, i)
        }
    } else {
        read_code(s, c.br, mtop, c.t, i)
    }
}
