// The write cursor: each method lays bytes at it, and hands back the cursor that stands past them.
ghost use Rattle.std.specs.Prelude.{[], ◌∷◌, ◌+◌, ◌<◌, ◌≤◌, length};
ghost use Rattle.laws.specs.Bytes.{zeros};
ghost use Rattle.output.specs.Cursor.{Laid};

// Where the next byte of an output goes. Document 01 names a cursor by value, so the output comes beside it; whoever lays says that there is room.
#[derive(Clone, Copy)]
pub struct Cursor {
    pub at: usize,
}

impl Cursor {
    pub fn put(self, out: &mut [u8], b: u8) -> Cursor
        requires { self.at < length out.old }
        ensures { Laid self.at result.at out.old out.new (b ∷ []) }
    {
        let at = self.at;
        out[at] = b;
        Cursor { at: at + 1 }
    }

    pub fn put_all(self, out: &mut [u8], src: &[u8]) -> Cursor
        requires { self.at + length src.now ≤ length out.old }
        ensures { Laid self.at result.at out.old out.new src.now }
    {
        let end = self.at + src.len();
        out[self.at..end].copy_from_slice(src);
        Cursor { at: end }
    }

    pub fn put_zeros(self, out: &mut [u8], n: usize) -> Cursor
        requires { self.at + n ≤ length out.old }
        ensures { Laid self.at result.at out.old out.new (zeros n) }
    {
        let end = self.at + n;
        out[self.at..end].fill(0);
        Cursor { at: end }
    }
}
