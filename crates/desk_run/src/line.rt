// The line that is printed for a piece, laid at a write cursor.
ghost use Rattle.std.specs.Prelude.{[], ◌+◌, ◌≤◌, length};
ghost use Rattle.output.specs.Cursor.{Laid};
ghost use Rattle.output.specs.Refusal.{number_of};
ghost use Rattle.desk_run.specs.Line.{line_of};

use output::{Cursor, Refusal};

// Of one that was served: 0, and the reply without the two bytes that end a frame.
pub(crate) fn put_reply(start: Cursor, text: &mut [u8], reply: &[u8]) -> Cursor
    requires { start.at + length (line_of 0 reply.now) ≤ length text.old }
    ensures { Laid start.at result.at text.old text.new (line_of 0 reply.now) }
{
    let opened = start.put_all(text, b"0 ");
    let shown = opened.put_all(text, &reply[..reply.len().saturating_sub(2)]);
    shown.put(text, b'\n')
}

// Of one that was refused: the number alone.
pub(crate) fn put_refusal(start: Cursor, text: &mut [u8], refusal: Refusal) -> Cursor
    requires { start.at + length (line_of (number_of refusal) []) ≤ length text.old }
    ensures { Laid start.at result.at text.old text.new (line_of (number_of refusal) []) }
{
    let digits = text::put_decimal(start, text, u64::from(u8::from(refusal)));
    digits.put(text, b'\n')
}
