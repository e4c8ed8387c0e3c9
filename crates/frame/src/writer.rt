// The frame writer: a write cursor that lays the characters of bytes and carries their total, so that a reply goes straight to the output.
// By value, as document 01 names it: the output comes beside it, and who lays says that there is room.
ghost use Rattle.std.specs.Prelude.{[], ◌∷◌, ◌+◌, ◌*◌, ◌≤◌, length};
ghost use Rattle.output.specs.Cursor.{Laid};
ghost use Rattle.frame.specs.Digits.{chars_of};
ghost use Rattle.frame.specs.Written.{Begins, Spells, Ends};

use crate::digits::char_of;
use crate::total::check_of;
use output::Cursor;

// A frame as it is written: where its next character goes, and the total of its bytes so far.
#[derive(Clone, Copy)]
pub struct Writer {
    pub at: usize,
    pub total: u8,
}

impl Writer {
    pub fn begin(out: &mut [u8]) -> Writer
        requires { 1 ≤ length out.old }
        ensures { Begins out.old result out.new }
    {
        let start = Cursor { at: 0 };
        let next = start.put(out, b':');
        Writer {
            at: next.at,
            total: 0,
        }
    }

    pub fn put(self, out: &mut [u8], b: u8) -> Writer
        requires { self.at + 2 ≤ length out.old }
        ensures { Spells self out.old (b ∷ []) result out.new }
    {
        let start = Cursor { at: self.at };
        let end = put_byte(start, out, b);
        Writer {
            at: end.at,
            // a carry is dropped here as where a frame is read
            total: self.total.wrapping_add(b),
        }
    }

    pub fn put_all(self, out: &mut [u8], src: &[u8]) -> Writer
        requires { self.at + 2 * length src.now ≤ length out.old }
        ensures { Spells self out.old src.now result out.new }
    {
        let mut w = self;
        for b in src {
            w = w.put(out, *b);
        }
        w
    }

    // The checksum and the two last characters; how long the frame is.
    pub fn end(self, out: &mut [u8]) -> usize
        requires { self.at + 4 ≤ length out.old }
        ensures { Ends self out.old result out.new }
    {
        let start = Cursor { at: self.at };
        let ends = put_byte(start, out, check_of(self.total));
        let last = ends.put(out, b'\r');
        let end = last.put(out, b'\n');
        end.at
    }
}

// Both characters of a byte, high half first.
fn put_byte(start: Cursor, out: &mut [u8], b: u8) -> Cursor
    requires { start.at + 2 ≤ length out.old }
    ensures { Laid start.at result.at out.old out.new (chars_of (b ∷ [])) }
{
    let next = start.put(out, char_of(b >> 4));
    next.put(out, char_of(b & 15))
}
