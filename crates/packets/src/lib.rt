// Annex C: one packet of a precinct, from its header to the coefficients and counts in the work cells.
#![tactic(auto)]

pub mod bands;
pub mod passes;

ghost use Rattle.std.specs.Prelude.{◌≡◌, true, cond, [], ◌∷◌, ◌+◌, ◌-◌, ◌^◌, ◌≤◌, ◌<◌, length};
ghost use Rattle.whole.specs.Numbers.{ceil_div};
ghost use Rattle.rows.specs.Rows.{check, first, Fine};
ghost use Rattle.rows.specs.declared.Row.TheVariants.{Count};
ghost use Rattle.rows.specs.declared.Field.TheVariants.{Ones};
ghost use Rattle.bits.specs.Packet.{IsHeader};
ghost use Rattle.layout.specs.Slots.{slots, candidates};
ghost use Rattle.counts.specs.Lines.{Founded};
ghost use Rattle.packets.specs.Packets.{any_line, counts_of};
ghost use Rattle.packets.specs.Ready.{Settled, Standing};
ghost use Rattle.packets.specs.Steps.{
  Within,
  Working,
  Holds,
  part_bytes,
  data_row,
  IsParts,
  Opening,
  IsSigned,
  IsContent,
  IsPassed,
  Decoded,
  bound_flag,
};

use bits::packet::{PacketHeader, Widths};
use counts::Counted;
use counts::group::Fault;
use layout::Shape;
use pieces::{Bytes, NOTHING};
use rows::{AMPLE, Check, Field, Row, Verdict};

// What Annex C needs of the headers: Annex B's shape, the widths of a packet header, Br, Fq, whether Qpih selects the uniform quantiser, whether Fs, Rm
// and Rl are 1, and gain and priority of each band. The rest follows from the shape and is worked out once for a page, since every line asks for it: the first
// bit of each band's D in a precinct header, and the bytes of that header.
#[derive(Clone, Copy)]
pub struct Setting {
    pub shape: Shape,
    pub widths: Widths,
    pub br: usize,
    pub fq: usize,
    pub uniform: bool,
    pub fs: bool,
    pub rm: bool,
    pub rl: bool,
    pub gains: [u8; 40],
    pub priorities: [u8; 40],
    pub modes: [u8; 40],
    pub head: usize,
}

// A precinct whose header is accepted: its row and column, the place of its header and the one past its last byte, Q[p] and R[p].
#[derive(Clone, Copy)]
pub struct Precinct {
    pub row: usize,
    pub column: usize,
    pub at: usize,
    pub end: usize,
    pub q: usize,
    pub r: usize,
}

// Where the parts of a packet stand, whether they fit or not: its header, the four subpackets, and the place behind them. `raw` where Dr = 1.
#[derive(Clone, Copy)]
struct Parts {
    at: usize,
    raw: bool,
    sig: usize,
    cnt: usize,
    dat: usize,
    sgn: usize,
    past: usize,
}

// A packet header that is read and judged. No Result: `packet` tells Dr and the place behind a refused packet too (Decoded), and takes them from here.
#[derive(Clone, Copy)]
struct Opened {
    verdict: Verdict,
    dr: usize,
    parts: Parts,
}

// The bytes that the content of the counts, of the data and of the signs takes.
#[derive(Clone, Copy)]
struct Content {
    counts: usize,
    data: usize,
    signs: usize,
}

// What a packet leaves beside the cells: the verdict, its raw flag, the place behind it, and where its bytes went.
// No Result: `packet` promises Dr and the place behind of a refused packet too (Decoded).
#[derive(Clone, Copy)]
pub struct Outcome {
    pub verdict: Verdict,
    pub dr: usize,
    pub past: usize,
    pub bytes: Bytes,
}

// The bytes that so many bits take.
fn bytes_of_bits(n: usize) -> usize
    ensures { result ≡ ceil_div n 8 }
{
    n.div_ceil(8)
}

// And so many nibbles.
fn bytes_of_nibbles(n: usize) -> usize
    ensures { result ≡ ceil_div n 2 }
{
    n.div_ceil(2)
}

// The raw flag of the packet before that shares bands with this one, where there is one and Rl = 0.
fn bound_flag(c: Setting, slot: usize, raws: [usize; 10], free: usize) -> usize
    requires { slot < 10 }
    ensures { result ≡ bound_flag c slot raws free }
{
    if c.rl {
        return free;
    }
    if slot < 7 {
        return free;
    }
    raws[slot - 3]
}

// The length of the signs: with Fs = 0 the header's is ignored (Table C.4).
fn sign_length(fs: bool, lsgn: usize) -> usize
    ensures { result ≡ cond fs lsgn 0 }
{
    if fs { lsgn } else { 0 }
}

// The places, by the lengths that the header declares.
fn parts_of(s: &[u8], c: Setting, p: Precinct, slot: usize, at: usize, h: PacketHeader) -> Parts
    requires { Within s.now c p slot × (at ≤ p.end) × IsHeader s.now at c.widths h }
    ensures { IsParts s.now c p slot at result }
{
    let widths = c.widths;
    let raw = h.dr == 1;
    let sig = at + widths.bytes();
    let cnt = sig + bytes_of_bits(passes::all_marks(s, c, p, slot, raw));
    let dat = cnt + h.lcnt;
    let sgn = dat + h.ldat;
    Parts {
        at,
        raw,
        sig,
        cnt,
        dat,
        sgn,
        past: sgn + sign_length(c.fs, h.lsgn),
    }
}

// The header of a packet, judged as far as the length of the counts.
fn open(s: &[u8], c: Setting, p: Precinct, slot: usize, at: usize, raws: [usize; 10]) -> Opened
    requires { Within s.now c p slot × (at ≤ p.end) × (any_line c p slot (candidates c.shape slot) ≡ true) }
    ensures { Opening s.now c p slot at raws result }
{
    let widths = c.widths;
    let h = PacketHeader::read(s, at, widths);
    let parts = parts_of(s, c, p, slot, at, h);
    let least = bound_flag(c, slot, raws, 0);
    let most = bound_flag(c, slot, raws, 1);
    let bytes = widths.bytes();
    let end = p.end;
    let sig = parts.sig;
    let cnt = parts.cnt;
    let left = end.saturating_sub(sig);
    let rest = end.saturating_sub(cnt);
    let v = rows::first(&[
        Check(Row::Length, p.at, Field::Packet, bytes, 0, end - at),
        Check(Row::Mode, at, Field::Dr, h.dr, least, most),
        Check(Row::Length, sig, Field::Significance, cnt - sig, 0, left),
        Check(Row::Length, cnt, Field::Counts, h.lcnt, 0, rest),
    ]);
    Opened {
        verdict: v,
        dr: h.dr,
        parts,
    }
}

// The data and the signs, each from its own stretch, and then whether the signs' stretch was long enough: the bytes of the signs.
fn values(
    s: &[u8],
    cells: &mut [i64],
    c: Setting,
    p: Precinct,
    slot: usize,
    parts: Parts,
) -> Result<usize, Check>
    requires { Working s.now c p slot (length cells.old) × IsParts s.now c p slot parts.at parts × (parts.past ≤ length s.now) }
    ensures { IsSigned s.now c p slot parts.at cells.old result cells.new }
{
    let a = parts.dat;
    let b = parts.sgn;
    let e = parts.past;
    let dat = &s[a..b];
    let sgn = &s[b..e];
    let next = passes::packet_values(dat, sgn, cells, c, p, slot);
    let used = bytes_of_bits(next.sign);
    rows::first(&[Check(Row::Length, b, Field::Signs, e - b, used, AMPLE)])?;
    Ok(used)
}

// The length of the data, which hold `bytes` bytes, and that of the signs.
fn data_row(p: Precinct, parts: Parts, bytes: usize) -> Verdict
    requires { (parts.dat ≤ p.end) × (parts.dat ≤ parts.sgn) × (parts.sgn ≤ parts.past) }
    ensures { result ≡ first (data_row p parts bytes) }
{
    let dat = parts.dat;
    let sgn = parts.sgn;
    let size = sgn - dat;
    let left = p.end.saturating_sub(sgn);
    let signs = parts.past - sgn;
    rows::first(&[
        Check(Row::Length, dat, Field::Data, size, 0, p.end - dat),
        Check(Row::Length, dat, Field::Data, size, bytes, AMPLE),
        Check(Row::Length, sgn, Field::Signs, signs, 0, left),
    ])
}

// So many 1-bits stand where a code of a count stood: one of them is too many.
fn long_code(cnt: usize, n: usize, br: usize) -> Check
    requires { br ≤ 5 }
    ensures { result ≡ check Count cnt Ones n 0 (2 ^ (br + 1) - 1) }
{
    let all: usize = 1 << (br + 1);
    Check(Row::Count, cnt, Field::Ones, n, 0, all - 1)
}

// What follows the counts: the check that their fault breaks, or the lengths of the data and of the signs, and then the values.
fn after_counts(
    line: Result<Counted, Fault>,
    s: &[u8],
    cells: &mut [i64],
    c: Setting,
    p: Precinct,
    slot: usize,
    parts: Parts,
) -> Result<Content, Check>
    requires { Working s.now c p slot (length cells.old) × IsParts s.now c p slot parts.at parts × (parts.dat ≤ p.end) × Founded c.br line }
    ensures { IsContent s.now c p slot parts.at (line, cells.old) result cells.new }
{
    let cnt = parts.cnt;
    let dat = parts.dat;
    match line {
        Ok(Counted { next, need }) => {
            let bytes = bytes_of_nibbles(need);
            data_row(p, parts, bytes)?;
            let signs = values(s, cells, c, p, slot, parts)?;
            Ok(Content {
                counts: bytes_of_bits(next),
                data: bytes,
                signs,
            })
        }
        Err(Fault::Cut) => {
            let size = dat - cnt;
            Err(Check(Row::Length, cnt, Field::Counts, size, size + 1, AMPLE))
        }
        Err(Fault::High(m)) => Err(Check(Row::Count, cnt, Field::M, m, 0, 31)),
        Err(Fault::Long(n)) => Err(long_code(cnt, n, c.br)),
    }
}

// Where the bytes of a packet went whose subpackets have these contents.
fn bytes_of(parts: Parts, content: Content) -> Bytes
    requires { Holds parts content }
    ensures { result ≡ part_bytes parts content }
{
    let Content {
        counts,
        data,
        signs,
    } = content;
    let fill = parts.dat - parts.cnt - counts;
    let behind = parts.sgn - parts.dat - data;
    Bytes {
        markers: 0,
        precincts: 0,
        packets: parts.sig - parts.at,
        significance: parts.cnt - parts.sig,
        counts: counts,
        data: data,
        signs: signs,
        filler: fill + behind + (parts.past - parts.sgn - signs),
        spoilt: 0,
    }
}

// The counts, from their own stretch and that of the significance flags.
fn counts_of(
    s: &[u8],
    cells: &mut [i64],
    c: Setting,
    p: Precinct,
    slot: usize,
    parts: Parts,
) -> Result<Counted, Fault>
    requires { Working s.now c p slot (length cells.old) × IsParts s.now c p slot parts.at parts × (parts.dat ≤ p.end) }
    ensures { counts_of s.now c p slot parts.at cells.old ≡ (result, cells.new) }
{
    let a = parts.sig;
    let b = parts.cnt;
    let e = parts.dat;
    let sig = &s[a..b];
    let cnt = &s[b..e];
    passes::packet_counts(s, cnt, sig, cells, c, p, slot, parts.raw)
}

// The subpackets behind a header that is judged: where the bytes of the packet went.
fn subpackets(
    v: Verdict,
    s: &[u8],
    cells: &mut [i64],
    c: Setting,
    p: Precinct,
    slot: usize,
    parts: Parts,
) -> Result<Bytes, Check>
    requires { Working s.now c p slot (length cells.old) × IsParts s.now c p slot parts.at parts × (v ≡ Fine → parts.dat ≤ p.end) }
    ensures { IsPassed s.now c p slot parts.at v cells.old result cells.new }
{
    v?;
    let line = counts_of(s, cells, c, p, slot, parts);
    let content = after_counts(line, s, cells, c, p, slot, parts)?;
    Ok(bytes_of(parts, content))
}

// The packet of a slot that has lines, whose header stands at `at`. `raws` are the raw flags of the slots before.
pub fn packet(
    s: &[u8],
    cells: &mut [i64],
    c: Setting,
    p: Precinct,
    slot: usize,
    at: usize,
    raws: [usize; 10],
) -> Outcome
    requires { Settled c × Standing s.now c p (length cells.old) × (at ≤ p.end) × (slot < slots c.shape) × (any_line c p slot (candidates c.shape slot) ≡ true) }
    ensures { Decoded s.now c p slot at raws cells.old result cells.new }
{
    let o = open(s, c, p, slot, at, raws);
    let parts = o.parts;
    match subpackets(o.verdict, s, cells, c, p, slot, parts) {
        Ok(bytes) => Outcome {
            verdict: Ok(()),
            dr: o.dr,
            past: parts.past,
            bytes,
        },
        Err(k) => Outcome {
            verdict: Err(k),
            dr: o.dr,
            past: parts.past,
            bytes: NOTHING,
        },
    }
}
