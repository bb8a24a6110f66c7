// The packet header of C.3: one reader over the widths of its fields, which serves the short header and the long one.
ghost use Rattle.std.specs.Prelude.{◌≡◌, ◌<◌, ◌^◌};
ghost use Rattle.bits.specs.Packet.{short_widths, long_widths, header_bytes, Fit, WidthsOf, IsHeader};

use crate::cursor::Cursor;

// How many bits a packet header's three lengths have.
#[derive(Clone, Copy)]
pub struct Widths {
    pub dat: usize,
    pub cnt: usize,
    pub sgn: usize,
}

impl Widths {
    // Wf × Nc from which on the header is long.
    const LONG_FROM: usize = 32752;

    fn short() -> Self
        ensures { result ≡ short_widths }
    {
        Widths {
            dat: 15,
            cnt: 13,
            sgn: 11,
        }
    }

    fn long() -> Self
        ensures { result ≡ long_widths }
    {
        Widths {
            dat: 20,
            cnt: 20,
            sgn: 15,
        }
    }

    // The widths in a picture of width wf with nc components and the long header flag lh.
    pub fn of_picture(wf: usize, nc: usize, lh: usize) -> Self
        requires { (wf < 2 ^ 16) × (nc < 2 ^ 8) }
        ensures { WidthsOf wf nc lh result }
    {
        let short = (wf * nc < Widths::LONG_FROM) & (lh == 0);
        if short {
            Widths::short()
        } else {
            Widths::long()
        }
    }

    // How many bytes the header has.
    pub fn bytes(self) -> usize
        requires { Fit self }
        ensures { result ≡ header_bytes self }
    {
        (1 + self.dat + self.cnt + self.sgn) / 8
    }
}

// The raw mode override flag Dr, and the lengths in bytes of the data, the bitplane count and the sign subpacket.
#[derive(Clone, Copy)]
pub struct PacketHeader {
    pub dr: usize,
    pub ldat: usize,
    pub lcnt: usize,
    pub lsgn: usize,
}

impl PacketHeader {
    // The header whose first byte is `place`.
    pub fn read(s: &[u8], place: usize, w: Widths) -> Self
        requires { (place < 2 ^ 60) × Fit w }
        ensures { IsHeader s.now place w result }
    {
        let mut cursor = Cursor::new(place);
        let dr = cursor.read(s, 1);
        let ldat = cursor.read(s, w.dat);
        let lcnt = cursor.read(s, w.cnt);
        let lsgn = cursor.read(s, w.sgn);
        PacketHeader {
            dr,
            ldat,
            lcnt,
            lsgn,
        }
    }
}
