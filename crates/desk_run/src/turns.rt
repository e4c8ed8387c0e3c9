// The pieces in turn, as far as the text has room.
ghost use Rattle.std.specs.Prelude.{drop};
ghost use Rattle.text.specs.Cut.{pieces};
ghost use Rattle.image.specs.Version.{current};
ghost use Rattle.desk_run.specs.Desk.{ran, Runs};

use crate::piece::put_piece;
use output::Cursor;

// Where in the input the serving stopped, and how much text there is: the text stays the caller's, who lends it again, and no heap is asked for one.
#[derive(Clone, Copy)]
pub struct Progress {
    pub from: usize,
    pub len: usize,
}

// To be called again from where it stopped, until that is the input's end.
#[tactic(auto, using(text::proofs::Cuts::end_inside))]
pub fn run(input: &[u8], from: usize, m: &mut [u8], text: &mut [u8]) -> Progress
    ensures { Runs (ran current from 0 m.old text.old (pieces (drop from input.now))) input.now from
        result m.new text.new }
{
    let mut next = from;
    let mut end = Cursor { at: 0 };
    // Where a piece ends is said by `text` alone, and where the room ends is to be told by an index: over `split_inclusive` one would be counted beside it.
    while next < input.len() && 300 <= text.len() - end.at {
        let stop = text::piece_end(input, next);
        end = put_piece(end, text, m, &input[next..stop]);
        next = stop;
    }
    Progress {
        from: next,
        len: end.at,
    }
}
