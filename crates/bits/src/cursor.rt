// Fields read one after the other.
ghost use Rattle.std.specs.Prelude.{◌≡◌, ◌+◌, ◌*◌, ◌≤◌, ◌<◌, ◌^◌};
ghost use Rattle.bits.specs.Cursors.{Steps};

// A place in a stretch, counted in bits.
#[derive(Clone, Copy)]
pub struct Cursor {
    pub at: usize,
}

impl Cursor {
    // The first bit of the byte `place`.
    pub fn new(place: usize) -> Self
        requires { place < 2 ^ 60 }
        ensures { result.at ≡ 8 * place }
    {
        Cursor { at: 8 * place }
    }

    // u(n) here. The cursor then stands past it.
    pub fn read(&mut self, s: &[u8], n: usize) -> usize
        requires { (n ≤ 24) × (self.old.at + n < 2 ^ 64) }
        ensures { Steps s.now self.old n result self.new }
    {
        let value = crate::field(s, self.at, n);
        self.at += n;
        value
    }
}
