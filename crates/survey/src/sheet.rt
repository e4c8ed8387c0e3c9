// What the frames of a file say of the table, one after the other.
ghost use Rattle.std.specs.Prelude.{◌≡◌, false, MatchOption};
ghost use Rattle.laws.specs.Bytes.{zeros};
ghost use Rattle.laws.specs.Checks.{all};
ghost use Rattle.text.specs.Cut.{pieces};
ghost use Rattle.survey.specs.File.{is_frame, sends};
ghost use Rattle.survey.specs.Gather.{is_new, added, blank, Takes, Reads};

use crate::first::First;
use image::{Cell, has_bit, set_bit};
use output::Cursor;
use tables::Rows;

// Address, command, table, part and 32 rows of four bytes; with the checksum a body of 133.
const CONTENTS_SIZE: usize = 132;

// Where the rows begin.
const ROWS_AT: usize = 4;

// The command that writes a part.
const WRITES_PART: u8 = 59;

// A table's last part.
const LAST_PART: u8 = 11;

// By the first frame's address and table, what the frames so far have said: that all are for one table, that no part came twice and none is outside 1..11,
// which parts came, part p at bit p - 1 as in a table's word, and the table's bytes with the rows of those. The first two stay flags, and are no refusal
// that ends the reading: a frame for another table outranks a part that came twice before it, and a later piece that is no frame outranks both.
#[derive(Drop)]
pub(crate) struct Sheet {
    pub first: First,
    pub one: bool,
    pub once: bool,
    pub parts: u16,
    pub rows: Rows,
}

#[tactic(auto, unfolding(crate::specs::File::sends))]
fn sends(c: &[u8], first: First) -> bool
    ensures { result ≡ sends first.address first.table c.now }
{
    c.len() == CONTENTS_SIZE && c[1] == WRITES_PART && c[0] == first.address && c[2] == first.table
}

#[tactic(auto, unfolding(crate::specs::Gather::is_new, laws::specs::Checks::within))]
fn is_new(parts: u16, p: u8) -> bool
    ensures { result ≡ is_new parts p }
{
    (1..=LAST_PART).contains(&p) && !has_bit(parts, u16::from(p - 1))
}

impl Sheet {
    #[tactic(auto, unfolding(laws::specs::Bytes::zeros))]
    pub(crate) fn new(first: First) -> Sheet
        ensures { result ≡ blank first (zeros 1408) }
    {
        Sheet {
            first,
            one: true,
            once: true,
            parts: 0,
            rows: [0; Cell::TABLE_SIZE],
        }
    }

    // A frame more, by its contents. The rows of a part that is new go to their place in the table.
    fn add(&mut self, c: &[u8])
        ensures { self.new ≡ added self.old c.now }
    {
        if !sends(c, self.first) {
            self.one = false;
            return;
        }
        let p = c[3];
        if !is_new(self.parts, p) {
            self.once = false;
            return;
        }
        let k = p - 1;
        let start = Cursor {
            at: Cell::PART_SIZE * usize::from(k),
        };
        start.put_all(&mut self.rows, &c[ROWS_AT..]);
        self.parts = set_bit(self.parts, u16::from(k));
    }

    // Nothing where the piece is no frame.
    fn take(&mut self, piece: &[u8]) -> Option<()>
        ensures { MatchOption result (is_frame piece.now ≡ false) (λ _. Takes piece.now self.old self.new) }
    {
        let mut work = [0u8; 133];
        let n = frame::read_into(piece, &mut work).ok()?;
        self.add(&work[..n]);
        Some(())
    }

    // How many frames there are; nothing where some piece is no frame.
    pub(crate) fn read(&mut self, file: &[u8]) -> Option<usize>
        ensures { MatchOption result (all is_frame (pieces file.now) ≡ false) (λ n. Reads file.now self.old self.new n) }
    {
        let mut frames = 0;
        for piece in file.split_inclusive(|b| *b == b'\n') {
            self.take(piece)?;
            frames += 1;
        }
        Some(frames)
    }
}
