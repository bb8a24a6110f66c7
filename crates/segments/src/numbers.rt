// Total arithmetic: a check that comes too late to be seen divides by what an earlier one refuses.
ghost use Rattle.std.specs.Prelude.{◌≡◌, ◌+◌, ◌%◌, ◌^◌, ◌<◌};
ghost use Rattle.whole.specs.Numbers.{ceil_div};

// a mod 0 is a.
pub fn remainder(a: usize, b: usize) -> usize
    ensures { result ≡ a % b }
{
    if b == 0 { a } else { a % b }
}

// ceil(a / b), and 0 for b = 0.
pub fn ceil(a: usize, b: usize) -> usize
    requires { a + b < 2 ^ 64 }
    ensures { result ≡ ceil_div a b }
{
    if b == 0 { 0 } else { a.div_ceil(b) }
}
