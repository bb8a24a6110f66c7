// C.7.1: the variable length code of bitplane counts. Its 1-bits are counted in a word of eight bytes, and a byte at a time where that does not do.
ghost use Rattle.std.specs.Prelude.{◌≡◌, ◌+◌, ◌-◌, ◌/◌, ◌%◌, ◌^◌, ◌≤◌, ◌<◌, pos, ◌+ℤ◌, length};
ghost use Rattle.counts.specs.Codes.{ones, vlc};
ghost use Rattle.counts.specs.Steps.{Ahead};

// The 1-bits from the bit i on, as far as its byte goes: the rest of the byte, turned round, begins with as many zeros.
fn ones_in_byte(s: &[u8], i: usize) -> usize
    ensures { result ≡ ones s.now i (8 - i % 8) }
{
    let w = 8 - i % 8;
    let all: usize = 1 << w;
    let turned = all - 1 - bits::u8_at(s, i / 8) % all;
    usize::leading_zeros(turned) as usize - (64 - w)
}

// The 1-bits from the bit i on, if a 0 ends them in the eight bytes from that of bit i on, all of which are there: the word, turned round and without what
// stands before bit i, begins with as many zeros.
pub fn ones_ahead(s: &[u8], i: usize) -> usize
    requires { i / 8 + 8 ≤ length s.now }
    ensures { Ahead s.now i result }
{
    let turned = (0xffff_ffff_ffff_ffff - bits::eight_at(s, i / 8)) << (i % 8);
    usize::leading_zeros(turned) as usize
}

// The 1-bits from the bit `at` on, of which `limit` are counted at most. The loop goes on by as many bits as a byte still has, so that no `for` fits it.
pub fn ones_from(s: &[u8], at: usize, limit: usize) -> usize
    requires { (at < 2 ^ 60) × (limit ≤ 64) }
    ensures { result ≡ ones s.now at limit }
{
    let mut n: usize = 0;
    while n < limit {
        let w = 8 - (at + n) % 8;
        let k = ones_in_byte(s, at + n);
        n += k;
        if k < w {
            return limit.min(n);
        }
    }
    limit
}

// The predictor r, moved by the quantity of n 1-bits. All three ways are worked out and one is chosen, which costs less than a branch that is guessed
// wrongly. 2^32 keeps those that are not chosen from going below 0.
pub fn moved(r: usize, t: usize, n: usize) -> usize
    requires { (r < 2 ^ 32) × (n < 2 ^ 32) }
    ensures { pos result ≡ pos r +ℤ vlc r t n }
{
    // up to twice as many 1-bits are signed quantities, more are unary
    let theta = r.saturating_sub(t);
    let high = r + 0x1_0000_0000;
    let down = high - (n + 1) / 2;
    let up = high + n / 2;
    let far = high + n - theta;
    let near = if n % 2 == 1 { down } else { up };
    let to = if 2 * theta < n { far } else { near };
    to - 0x1_0000_0000
}
