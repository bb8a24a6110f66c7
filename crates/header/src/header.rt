// The header by value.
ghost use Rattle.std.specs.Prelude.{◌≡◌, ◌<◌, ◌^◌};
ghost use Rattle.rows.specs.Rows.{Fine};
ghost use Rattle.picture.specs.Picture.{Built};
ghost use Rattle.picture.specs.Opening.{Opened};
ghost use Rattle.header.specs.Turns.{Inside};
ghost use Rattle.header.specs.Header.{component_of, header_in, no_header, walk_by};

use crate::walk::{Walk, walk_from};
use crate::weights::Weights;
use picture::picture::Picture;
use rows::Verdict;
use segments::components::Component;
use segments::seen::Seen;

// What the segments say.
#[derive(Clone, Copy)]
pub struct Header {
    pub picture: Picture,
    // by component: 0 where there is none
    pub depth: [usize; 4],
    pub sx: [usize; 4],
    pub sy: [usize; 4],
    // by band: 0 where it does not exist
    pub gains: [u8; 40],
    pub priorities: [u8; 40],
    // whether a bench caption is there
    pub caption: bool,
    // the place of the first slice marker
    pub slice: usize,
}

// Component c of the table at `cdt`, or none.
fn component(s: &[u8], h: Picture, cdt: usize, c: usize) -> Component
    requires { (cdt < 2 ^ 32) × (c < 256) }
    ensures { result ≡ component_of s.now h cdt c }
{
    if c < h.nc {
        Component::read(s, cdt, c)
    } else {
        Component {
            depth: 0,
            sx: 0,
            sy: 0,
        }
    }
}

impl Header {
    // By the picture header, the segments seen, and the place of the first slice marker.
    pub(crate) fn read(s: &[u8], h: Picture, x: Seen, slice: usize) -> Self
        requires { Built h × (x.cdt < 2 ^ 32) × (x.wgt < 2 ^ 32) }
        ensures { result ≡ header_in s.now h x slice }
    {
        let c0 = component(s, h, x.cdt, 0);
        let c1 = component(s, h, x.cdt, 1);
        let c2 = component(s, h, x.cdt, 2);
        let c3 = component(s, h, x.cdt, 3);
        let w = Weights::read(s, h, x.cdt, x.wgt);
        let gains = w.gains;
        let priorities = w.priorities;
        Self {
            picture: h,
            depth: [c0.depth, c1.depth, c2.depth, c3.depth],
            sx: [c0.sx, c1.sx, c2.sx, c3.sx],
            sy: [c0.sy, c1.sy, c2.sy, c3.sy],
            gains,
            priorities,
            caption: x.caption,
            slice,
        }
    }

    // No header, as of a refused stream: all of it is 0 and 'no'.
    pub fn none() -> Self
        ensures { result ≡ no_header }
    {
        Self {
            picture: Picture::none(),
            depth: [0; 4],
            sx: [0; 4],
            sy: [0; 4],
            gains: [0; 40],
            priorities: [0; 40],
            caption: false,
            slice: 0,
        }
    }
}

// The walk begins behind an accepted picture header at p.
pub(crate) fn walk_by(v: Verdict, s: &[u8], h: Picture, p: usize) -> Walk
    requires { v ≡ Fine → Opened s.now h p }
    ensures { (result ≡ walk_by v s.now h p) × Inside s.now result }
{
    match v {
        Ok(()) => walk_from(s, h, p + 28),
        Err(_) => Walk::end(v, 0, Seen::none()),
    }
}
