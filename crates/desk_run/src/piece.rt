// One piece: served, and its line laid into the text.
ghost use Rattle.std.specs.Prelude.{◌≡◌, ◌+◌, ◌≤◌, length};
ghost use Rattle.output.specs.Cursor.{Laid};
ghost use Rattle.image.specs.Version.{current};
ghost use Rattle.desk_run.specs.Desk.{printed, left};

use crate::line::{put_refusal, put_reply};
use output::Cursor;
use rules::Switch;

pub(crate) fn put_piece(start: Cursor, text: &mut [u8], m: &mut [u8], piece: &[u8]) -> Cursor
    requires { start.at + 300 ≤ length text.old }
    ensures { Laid start.at result.at text.old text.new (printed current m.old piece.now)
        × (m.new ≡ left current m.old piece.now) }
{
    let mut reply = [0u8; 269];
    match izk::serve(piece, Switch::Unsealed, m, &mut reply) {
        Ok(n) => put_reply(start, text, &reply[..n]),
        Err(refusal) => put_refusal(start, text, refusal),
    }
}
