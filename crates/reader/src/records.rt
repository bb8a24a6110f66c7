// The page record, of a refused page and of one that is read.
ghost use Rattle.std.specs.Prelude.{◌≡◌, ◌<◌};
ghost use Rattle.layout.specs.Built.{Built};
ghost use Rattle.shapes.specs.Shapes.{shape_of};
ghost use Rattle.reader.specs.Page.{page_read, page_refused};
ghost use Rattle.reader.specs.Sizes.{size_of};

use crate::page::Page;
use header::header::Header;
use layout::bands::component_of;
use pieces::{Bytes, NOTHING};
use rows::Verdict;

// A refused page: all 0 and 'no' but for answer and place.
pub fn refused(v: Verdict) -> Page
    ensures { result ≡ page_refused v }
{
    Page {
        answer: rows::answer(v),
        place: rows::place(v, 0),
        components: 0,
        caption: false,
        width: [0; 4],
        height: [0; 4],
        precision: [0; 4],
        distance: [0; 4],
        bytes: NOTHING,
    }
}

// A page that is read.
pub fn shown(h: Header, distance: [usize; 4], bytes: Bytes) -> Page
    requires { Built (shape_of h) }
    ensures { result ≡ page_read h distance bytes }
{
    let p = h.picture;
    let s0 = size_of(h, 0);
    let s1 = size_of(h, 1);
    let s2 = size_of(h, 2);
    let s3 = size_of(h, 3);
    Page {
        answer: 0,
        place: p.lcod,
        components: p.nc,
        caption: h.caption,
        width: [s0.w, s1.w, s2.w, s3.w],
        height: [s0.h, s1.h, s2.h, s3.h],
        precision: [s0.b, s1.b, s2.b, s3.b],
        distance,
        bytes,
    }
}

// A component's width, height and precision.
#[derive(Clone, Copy)]
struct Size {
    w: usize,
    h: usize,
    b: usize,
}

// Of component i, 0 where there is none.
fn size_of(h: Header, i: usize) -> Size
    requires { Built (shape_of h) × (i < 4) }
    ensures { result ≡ size_of h i }
{
    let p = h.picture;
    let depth = h.depth;
    let s = shapes::shape_of(h);
    if i < p.nc {
        let c = component_of(s, i);
        return Size {
            w: c.w,
            h: c.h,
            b: depth[i],
        };
    }
    Size { w: 0, h: 0, b: 0 }
}
