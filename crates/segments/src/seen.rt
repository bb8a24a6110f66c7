// The segments that were accepted, each by its marker's place: 0 where there is none, since the start of the codestream stands there. Of bench captions nothing
// is kept but that there is one. No Option: the definitions of specs/Segments go on with 0 where a table is missing, and are judged by an earlier check.
ghost use Rattle.std.specs.Prelude.{◌≡◌};
ghost use Rattle.segments.specs.Segments.{none_seen, counted};

#[derive(Clone, Copy)]
pub struct Seen {
    pub cdt: usize,
    pub wgt: usize,
    // whether an extension is a bench caption
    pub caption: bool,
    pub crg: usize,
    pub cwd: usize,
}

impl Seen {
    pub fn none() -> Self
        ensures { result ≡ none_seen }
    {
        Self {
            cdt: 0,
            wgt: 0,
            caption: false,
            crg: 0,
            cwd: 0,
        }
    }
}

// How many segments a place stands for.
pub(crate) fn count(place: usize) -> usize
    ensures { result ≡ counted place }
{
    usize::from(place != 0)
}
