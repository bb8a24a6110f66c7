// Numbers of the built range: small functions, so that each bound is shown in one place.
ghost use Rattle.std.specs.Prelude.{◌≡◌, ◌+◌, ◌*◌, ◌-◌, ◌/◌, ◌^◌, ◌<◌, ◌≤◌, min, max};
ghost use Rattle.whole.specs.Numbers.{ceil_div};
ghost use Rattle.wavelet.specs.Transform.{low_size, high_size};
ghost use Rattle.wavelet.specs.Places.{place};
ghost use Rattle.layout.specs.Precincts.{by_letter};
ghost use Rattle.layout.specs.Sizes.{Power};

pub use wavelet::low_size;

pub fn power(k: usize) -> usize
    requires { k ≤ 5 }
    ensures { Power k result }
{
    1 << k
}

pub fn product(a: usize, b: usize) -> usize
    requires { (a < 2 ^ 30) × (b < 2 ^ 30) }
    ensures { (result ≡ a * b) × (result < 2 ^ 60) }
{
    a * b
}

// A band's size in a direction where it is low-pass (0) or high-pass (1), at depth d of n samples.
pub(crate) fn size(n: usize, t: usize, d: usize) -> usize
    requires { (n < 2 ^ 60) × (d ≤ 5) }
    ensures { result ≡ by_letter t (low_size n d) (high_size n d) }
{
    if t == 0 {
        return low_size(n, d);
    }
    low_size(n, d.saturating_sub(1)) / 2
}

// The column, or row, of a band's i-th coefficient in a line.
pub(crate) fn place(t: usize, d: usize, i: usize) -> usize
    requires { (t ≤ 1) × (d ≤ 5) × (i < 2 ^ 30) }
    ensures { result ≡ place t d i }
{
    product(i, power(d)) + product(t, power(d.saturating_sub(1)))
}
