// What Annex C needs of an accepted header.
ghost use Rattle.header.specs.Accepted.{Ranges};
ghost use Rattle.layout.specs.Built.{Built};
ghost use Rattle.shapes.specs.Shapes.{shape_of};
ghost use Rattle.reader.specs.Steps.{IsSetting};

use bits::packet::Widths;
use header::header::Header;
use layout::headers::{bits_of_modes, bytes_of_header};
use packets::Setting;
use shapes::shape_of;

pub fn setting_of(h: Header) -> Setting
    requires { Ranges h × Built (shape_of h) }
    ensures { IsSetting h result }
{
    let p = h.picture;
    let gains = h.gains;
    let priorities = h.priorities;
    let shape = shape_of(h);
    let modes = bits_of_modes(shape);
    Setting {
        shape,
        widths: Widths::of_picture(p.wf, p.nc, p.lh),
        br: p.br,
        fq: p.fq,
        uniform: p.qpih == 1,
        fs: p.fs == 1,
        rm: p.rm == 1,
        rl: p.rl == 1,
        gains,
        priorities,
        modes,
        head: bytes_of_header(shape),
    }
}
