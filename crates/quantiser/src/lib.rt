// Annex D: from the indices of a stream to wavelet coefficients, by either inverse quantiser.
#![tactic(auto)]

ghost use Rattle.std.specs.Prelude.{◌≡◌, ◌≤◌, ◌<◌, ◌^◌, nat_abs};
ghost use Rattle.whole.specs.Numbers.{signed};
ghost use Rattle.quantiser.specs.Inverse.{deadzone, uniform, inverse, coefficient_of, scaled, Carried};
ghost use Rattle.quantiser.specs.Distance.{band_number};

// D.2. Where v is not 0, m is above t: one test serves for both of Table D.1's.
fn deadzone_size(m: u64, t: u64, v: u64) -> u64
    requires { Carried m t v }
    ensures { result ≡ deadzone m t v }
{
    if v == 0 {
        return 0;
    }
    (v << t) + ((1 << t) >> 1)
}

// D.3 by its NOTE: v times 2^(M+1) / (2^(M+1−T) − 1), rounded down once. Table D.2's sum is the same (specs/Note). Where v is not 0, m is above t.
fn uniform_size(m: u64, t: u64, v: u64) -> u64
    requires { Carried m t v }
    ensures { result ≡ uniform m t v }
{
    if v == 0 {
        return 0;
    }
    (v << (m + 1)) / ((1 << (m - t + 1)) - 1)
}

// The size of a coefficient, by the quantiser that the picture header chooses: `uniform` where Qpih is 1.
pub fn size_by(uniform: bool, m: u64, t: u64, v: u64) -> u64
    requires { Carried m t v }
    ensures { result ≡ inverse uniform m t v }
{
    if uniform {
        uniform_size(m, t, v)
    } else {
        deadzone_size(m, t, v)
    }
}

// A size with its sign: an index, or a coefficient.
pub fn signed(negative: bool, size: u64) -> i64
    requires { size < 2 ^ 63 }
    ensures { result ≡ signed negative size }
{
    let n = size as i64;
    if negative { -n } else { n }
}

// The coefficient of a signed index.
fn coefficient(uniform: bool, m: u64, t: u64, index: i64) -> i64
    requires { Carried m t (nat_abs index) }
    ensures { result ≡ coefficient_of uniform m t index }
{
    signed(index < 0, size_by(uniform, m, t, index.unsigned_abs()))
}

// The same on the scale of the wavelet, which has fq bits more behind the point.
pub fn scaled_coefficient(uniform: bool, m: u64, t: u64, fq: u64, index: i64) -> i64
    requires { Carried m t (nat_abs index) × (fq ≤ 15) }
    ensures { result ≡ scaled fq (coefficient_of uniform m t index) }
{
    let p: u64 = 1 << fq;
    coefficient(uniform, m, t, index) * (p as i64)
}

// The number that the distance rule gives a band.
pub fn band_number(t: u64, fq: u64) -> u64
    requires { (t ≤ 31) × (fq ≤ 15) }
    ensures { result ≡ band_number t fq }
{
    ((1 << t) - 1) << fq
}
