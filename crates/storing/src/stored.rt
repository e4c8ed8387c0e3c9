// Storing bytes in a cell. The image comes as the slice that C lends: its length is tested once, with all else that makes it usable, and a type that says
// it would want a second test beside that one. Of a cell's numbers `Cell` tells why no type bounds them. So three contracts have both facts.
ghost use Rattle.std.specs.Prelude.{true, [], ◌≡◌, ◌+◌, ◌-◌, ◌%◌, ◌≤◌, length};
ghost use Rattle.laws.specs.Bytes.{slice, padded};
ghost use Rattle.output.specs.Cursor.{Laid};
ghost use Rattle.image.specs.Version.{current, image_length};
ghost use Rattle.image.specs.Cell.{offset, size, is_cell};
ghost use Rattle.image.specs.Words.{signature_word};
ghost use Rattle.storing.specs.Stored.{touched_all, bits, amending, stored};

use crate::signature::sum;
use image::Cell;
use output::Cursor;

// A signature's word, when bytes of one sum give way to bytes of another, remainder by 65,536.
fn amended(w: u16, left: u16, came: u16) -> u16
    ensures { result ≡ (w + (65536 - left) + came) % 65536 }
{
    w.wrapping_sub(left).wrapping_add(came)
}

// The signature that the cell counts in, before its bytes give way. What leaves is the whole cell, so that old rows behind a shorter error table leave
// too; the zeros that come there add nothing.
fn amend(cell: Cell, bytes: &[u8], m: &mut [u8])
    requires { (is_cell cell ≡ true) × (length bytes.now ≤ size cell) × (length m.old ≡ image_length current) }
    ensures { m.new ≡ touched_all (slice (offset cell) (size cell) m.old) (padded (size cell) bytes.now)
        (amending (signature_word cell) []) m.old }
{
    if let Some(at) = cell.signature_word() {
        let start = cell.offset();
        let size = cell.size();
        let end = start + size;
        let left = sum(&m[start..end]);
        let came = sum(bytes);
        let w = image::word_at(m, at);
        image::put_word(m, at, amended(w, left, came));
    }
}

// A part's bit goes with the part.
fn put_bits(cell: Cell, m: &mut [u8])
    requires { (is_cell cell ≡ true) × (length m.old ≡ image_length current) }
    ensures { m.new ≡ touched_all [] [] (bits cell) m.old }
{
    if let Cell::Part(k, p) = cell {
        let start = Cell::WORDS_OFFSET + Cell::WORD_SIZE * usize::from(k);
        let w = image::word_at(m, start);
        image::put_word(m, start, image::set_bit(w, u16::from(p)));
    }
}

// At a cursor, a cell's bytes. One alone is put by itself: to copy several is a call of the C library's.
fn put_bytes(start: Cursor, bytes: &[u8], m: &mut [u8]) -> Cursor
    requires { start.at + length bytes.now ≤ length m.old }
    ensures { Laid start.at result.at m.old m.new bytes.now }
{
    if bytes.len() == 1 {
        return start.put(m, bytes[0]);
    }
    start.put_all(m, bytes)
}

// Zeros follow the bytes up to the cell's size, so that no old row stays behind a shorter error table.
#[tactic(auto, using(crate::proofs::Storing::stored_is))]
pub fn store(cell: Cell, bytes: &[u8], m: &mut [u8])
    requires { (is_cell cell ≡ true) × (length bytes.now ≤ size cell) × (length m.old ≡ image_length current) }
    ensures { m.new ≡ stored current cell bytes.now m.old }
{
    amend(cell, bytes, m);
    let start = Cursor { at: cell.offset() };
    let past = put_bytes(start, bytes, m);
    let left = cell.size() - bytes.len();
    past.put_zeros(m, left);
    put_bits(cell, m);
}
