// The picture header.
ghost use Rattle.std.specs.Prelude.{◌≡◌, ◌<◌, ◌^◌};
ghost use Rattle.rows.specs.Rows.{first};
ghost use Rattle.picture.specs.Picture.{no_picture, picture_at, size_checks, precision_checks, mode_checks, level_checks, field_checks};

use rows::{AMPLE, Check, Field, Row, Verdict};

// Every field of Table A.7 behind the segment's length, in the standard's letters.
#[derive(Clone, Copy)]
pub struct Picture {
    pub lcod: usize,
    pub ppih: usize,
    pub plev: usize,
    pub wf: usize,
    pub hf: usize,
    pub cw: usize,
    pub hsl: usize,
    pub nc: usize,
    pub ng: usize,
    pub ss: usize,
    pub bw: usize,
    pub fq: usize,
    pub br: usize,
    pub fslc: usize,
    pub ppoc: usize,
    pub cpih: usize,
    pub nlx: usize,
    pub nly: usize,
    pub lh: usize,
    pub rl: usize,
    pub qpih: usize,
    pub fs: usize,
    pub rm: usize,
}

impl Picture {
    // The picture header whose marker stands at p.
    pub(crate) fn read(s: &[u8], p: usize) -> Self
        requires { p < 2 ^ 32 }
        ensures { result ≡ picture_at s.now p }
    {
        let bits = bits::u8_at(s, p + 24);
        let modes = bits::u8_at(s, p + 25);
        let levels = bits::u8_at(s, p + 26);
        let flags = bits::u8_at(s, p + 27);
        Self {
            lcod: bits::u32_at(s, p + 4),
            ppih: bits::u16_at(s, p + 8),
            plev: bits::u16_at(s, p + 10),
            wf: bits::u16_at(s, p + 12),
            hf: bits::u16_at(s, p + 14),
            cw: bits::u16_at(s, p + 16),
            hsl: bits::u16_at(s, p + 18),
            nc: bits::u8_at(s, p + 20),
            ng: bits::u8_at(s, p + 21),
            ss: bits::u8_at(s, p + 22),
            bw: bits::u8_at(s, p + 23),
            fq: bits / 16,
            br: bits % 16,
            fslc: modes / 128,
            ppoc: modes / 16 % 8,
            cpih: modes % 16,
            nlx: levels / 16,
            nly: levels % 16,
            lh: flags / 128,
            rl: flags / 64 % 2,
            qpih: flags / 16 % 4,
            fs: flags / 4 % 4,
            rm: flags % 4,
        }
    }

    // No picture header: all 0.
    pub fn none() -> Self
        ensures { result ≡ no_picture }
    {
        Self {
            lcod: 0,
            ppih: 0,
            plev: 0,
            wf: 0,
            hf: 0,
            cw: 0,
            hsl: 0,
            nc: 0,
            ng: 0,
            ss: 0,
            bw: 0,
            fq: 0,
            br: 0,
            fslc: 0,
            ppoc: 0,
            cpih: 0,
            nlx: 0,
            nly: 0,
            lh: 0,
            rl: 0,
            qpih: 0,
            fs: 0,
            rm: 0,
        }
    }
}

// Lcod to Hsl.
fn size_row(n: usize, p: usize, h: Picture) -> Verdict
    requires { p < 2 ^ 32 }
    ensures { result ≡ first (size_checks n p h) }
{
    rows::first(&[
        Check(Row::Lacking, p + 4, Field::Lcod, h.lcod, 1, AMPLE),
        Check(Row::Length, p + 4, Field::Lcod, h.lcod, n, n),
        Check(Row::Value, p + 12, Field::Wf, h.wf, 1, 0xffff),
        Check(Row::Lacking, p + 12, Field::Wf, h.wf, 1, 16384),
        Check(Row::Value, p + 14, Field::Hf, h.hf, 1, 0xffff),
        Check(Row::Lacking, p + 14, Field::Hf, h.hf, 1, 16384),
        Check(Row::Value, p + 18, Field::Hsl, h.hsl, 1, 0xffff),
    ])
}

// Nc to Br.
fn precision_row(p: usize, h: Picture) -> Verdict
    requires { p < 2 ^ 32 }
    ensures { result ≡ first (precision_checks p h) }
{
    let bw = h.bw;
    let wide = if bw == 18 { 18 } else { 20 };
    let (least, most) = if bw < 18 { (8, 16) } else { (wide, wide) };
    let built = if bw == 18 { 20 } else { 8 };
    let fq = if bw == 20 { 8 } else { 0 };
    let br = if bw <= 12 || bw == 20 { 4 } else { 5 };
    rows::first(&[
        Check(Row::Value, p + 20, Field::Nc, h.nc, 1, 8),
        Check(Row::Lacking, p + 20, Field::Nc, h.nc, 1, 4),
        Check(Row::Value, p + 21, Field::Ng, h.ng, 4, 4),
        Check(Row::Value, p + 22, Field::Ss, h.ss, 8, 8),
        Check(Row::Value, p + 23, Field::Bw, bw, least, most),
        Check(Row::Lacking, p + 23, Field::Bw, bw, built, 20),
        Check(Row::Value, p + 24, Field::Fq, h.fq, fq, fq),
        Check(Row::Value, p + 24, Field::Br, h.br, br, br),
    ])
}

// Fslc to Cpih.
fn mode_row(p: usize, h: Picture) -> Verdict
    requires { p < 2 ^ 32 }
    ensures { result ≡ first (mode_checks p h) }
{
    let cpih = h.cpih;
    let some = if 3 < h.nc && cpih == 3 { 3 } else { 1 };
    let most = if h.nc < 3 { 0 } else { some };
    rows::first(&[
        Check(Row::Value, p + 25, Field::Fslc, h.fslc, 0, 0),
        Check(Row::Value, p + 25, Field::Ppoc, h.ppoc, 0, 0),
        Check(Row::Value, p + 25, Field::Cpih, cpih, 0, most),
        Check(Row::Lacking, p + 25, Field::Cpih, cpih, 0, 1),
    ])
}

// NLx to Rm.
fn level_row(p: usize, h: Picture) -> Verdict
    requires { p < 2 ^ 32 }
    ensures { result ≡ first (level_checks p h) }
{
    rows::first(&[
        Check(Row::Value, p + 26, Field::Nlx, h.nlx, 1, 8),
        Check(Row::Lacking, p + 26, Field::Nlx, h.nlx, 1, 5),
        Check(Row::Value, p + 26, Field::Nly, h.nly, 0, h.nlx),
        Check(Row::Value, p + 26, Field::Nly, h.nly, 0, 6),
        Check(Row::Lacking, p + 26, Field::Nly, h.nly, 0, 2),
        Check(Row::Value, p + 27, Field::Qpih, h.qpih, 0, 1),
        Check(Row::Value, p + 27, Field::Fs, h.fs, 0, 1),
        Check(Row::Value, p + 27, Field::Rm, h.rm, 0, 1),
    ])
}

// All fields of the picture header at p, in a stream of n bytes.
pub(crate) fn field_row(n: usize, p: usize, h: Picture) -> Verdict
    requires { p < 2 ^ 32 }
    ensures { result ≡ first (field_checks n p h) }
{
    size_row(n, p, h)?;
    precision_row(p, h)?;
    mode_row(p, h)?;
    level_row(p, h)
}
