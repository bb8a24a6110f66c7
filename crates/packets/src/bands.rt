// C.2 and C.6.2: what the precinct header says of a band.
ghost use Rattle.std.specs.Prelude.{◌<◌, ◌^◌};
ghost use Rattle.layout.specs.Bands.{NL};
ghost use Rattle.packets.specs.Ready.{Settled};
ghost use Rattle.packets.specs.Steps.{IsMode, IsTruncation};

use crate::{Precinct, Setting};

// D[p,b].
pub(crate) fn mode_of(s: &[u8], c: Setting, p: Precinct, b: usize) -> usize
    requires { Settled c × (p.at < 2 ^ 32) × (b < NL c.shape) }
    ensures { IsMode s.now c p b result }
{
    let modes = c.modes;
    let bit = modes[b] as usize;
    bits::field(s, 8 * p.at + bit, 2)
}

// T[p,b].
pub fn truncation_of(c: Setting, p: Precinct, b: usize) -> usize
    requires { Settled c × (b < NL c.shape) }
    ensures { IsTruncation c p b result }
{
    let gains = c.gains;
    let priorities = c.priorities;
    let gain = gains[b] as usize;
    let priority = priorities[b] as usize;
    layout::headers::truncation_of(p.q, p.r, gain, priority, c.br)
}
