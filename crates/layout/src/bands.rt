// B.1 to B.4: components, filter types and bands.
ghost use Rattle.std.specs.Prelude.{◌≡◌, ◌<◌, ◌≤◌};
ghost use Rattle.layout.specs.Bands.{filters, Nβ, has_first_line};
ghost use Rattle.layout.specs.Built.{Built};
ghost use Rattle.layout.specs.Sizes.{filter_of, IsComponent, IsBand};

use crate::Shape;
use crate::numbers::power;

// A filter type: its letters, 1 where it is high-pass, and its depths. The letters stay numbers: the standard's formulas multiply by them (B.4, B.6), and so
// do `place` and `has_first_line` of the specs.
#[derive(Clone, Copy)]
pub struct Filter {
    pub tx: usize,
    pub ty: usize,
    pub dx: usize,
    pub dy: usize,
}

// A component: its sampling factors, its size and its levels down.
#[derive(Clone, Copy)]
pub struct Component {
    pub sx: usize,
    pub sy: usize,
    pub w: usize,
    pub h: usize,
    pub ny: usize,
}

// A band: its filter type with the component's own depth down, and the component. `exists` is no Option around them: a line's places are told where its band
// does not exist too (`line` of specs/Slots).
#[derive(Clone, Copy)]
pub struct Band {
    pub exists: bool,
    pub filter: Filter,
    pub part: Component,
}

// B.3: how many filter types there are.
pub fn filter_types(nlx: usize, nly: usize) -> usize
    requires { (nly ≤ nlx) × (nlx ≤ 5) }
    ensures { result ≡ filters nlx nly }
{
    2 * nly + nlx + 1
}

// Tables B.1 to B.3.
pub fn filter_type(nlx: usize, nly: usize, beta: usize) -> Filter
    requires { (nly ≤ nlx) × (nlx ≤ 5) × (beta < filters nlx nly) }
    ensures { result ≡ filter_of nlx nly beta }
{
    if beta == 0 {
        return Filter {
            tx: 0,
            ty: 0,
            dx: nlx,
            dy: nly,
        };
    }
    let first = nlx - nly + 1;
    if beta < first {
        return Filter {
            tx: 1,
            ty: 0,
            dx: nlx + 1 - beta,
            dy: nly,
        };
    }
    let which = (beta - first) % 3;
    let depth = nly - (beta - first) / 3;
    Filter {
        tx: (which + 1) % 2,
        ty: (which + 1) / 2,
        dx: depth,
        dy: depth,
    }
}

pub fn component_of(s: Shape, i: usize) -> Component
    requires { Built s × (i < s.nc) }
    ensures { IsComponent s i result }
{
    let sx = s.sx[i];
    let sy = s.sy[i];
    Component {
        sx,
        sy,
        w: s.wf.div_ceil(sx),
        h: s.hf.div_ceil(sy),
        ny: s.nly - sy / 2,
    }
}

// B.4, at dy[β] of all components and not at the component's own. Total, for whoever asks before sy is judged: a mod 0 is a.
pub fn first_line_divides(f: Filter, nly: usize, sy: usize) -> bool
    requires { (nly ≤ 2) × (f.dy ≤ nly) × (f.ty ≤ 1) }
    ensures { result ≡ has_first_line nly sy f.dy f.ty }
{
    let line = power(nly - f.dy) * f.ty;
    if sy == 0 {
        return line == 0;
    }
    line % sy == 0
}

pub(crate) fn band_of(s: Shape, beta: usize, i: usize) -> Band
    requires { Built s × (beta < Nβ s) × (i < s.nc) }
    ensures { IsBand s beta i result }
{
    let filter = filter_type(s.nlx, s.nly, beta);
    let part = component_of(s, i);
    let exists = first_line_divides(filter, s.nly, part.sy);
    let dy = filter.dy.min(part.ny);
    Band {
        exists,
        filter: Filter { dy, ..filter },
        part,
    }
}
