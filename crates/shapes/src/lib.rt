// The shape that an accepted header gives Annex B.
#![tactic(auto)]

ghost use Rattle.std.specs.Prelude.{◌≡◌};
ghost use Rattle.shapes.specs.Shapes.{shape_of};

use header::header::Header;
use layout::Shape;

// Annex B's part of a header.
pub fn shape_of(h: Header) -> Shape
    ensures { result ≡ shape_of h }
{
    let p = h.picture;
    // variables, since an array field is not yet stored straight from another
    let sx = h.sx;
    let sy = h.sy;
    Shape {
        wf: p.wf,
        hf: p.hf,
        cw: p.cw,
        hsl: p.hsl,
        nc: p.nc,
        nlx: p.nlx,
        nly: p.nly,
        sx,
        sy,
    }
}
