// The header of a codestream, up to and with the first slice marker.
#![tactic(auto)]

pub mod header;
pub mod walk;
pub mod weights;

ghost use Rattle.std.specs.Prelude.{◌≡◌};
ghost use Rattle.rows.specs.Rows.{answered};
ghost use Rattle.header.specs.Header.{reading_of};

use crate::header::{Header, walk_by};
use picture::opening::Opening;
use rows::Check;

// The header, or the first broken check.
pub fn read(stream: &[u8]) -> Result<Header, Check>
    ensures { result ≡ answered (reading_of stream.now).verdict (reading_of stream.now).header }
{
    let o = Opening::read(stream);
    let w = walk_by(o.verdict, stream, o.picture, o.place);
    w.verdict?;
    Ok(Header::read(stream, o.picture, w.seen, w.at))
}
