// The count cell of a code group, and what the group takes of the data (Table C.9).
ghost use Rattle.std.specs.Prelude.{◌≡◌, ◌≤◌};
ghost use Rattle.bits.specs.Groups.{held, Takes};

// What a count cell holds; a negative number is read as 0.
pub fn held(z: i64) -> usize
    ensures { result ≡ held z }
{
    z.max(0) as usize
}

// How many nibbles of data a code group takes whose bitplane count is m and truncation position t.
#[tactic(auto, unfolding(crate::specs::Groups::nibbles_of))]
pub fn nibbles_of(m: usize, t: usize, fs: bool) -> usize
    requires { m ≤ 31 }
    ensures { Takes m t fs result }
{
    if m <= t {
        return 0;
    }
    if fs { m - t } else { m - t + 1 }
}
