// The input that was read, from its first portion on.
ghost use Rattle.image.specs.Version.{current};
ghost use Rattle.desk_run.specs.Desk.{started, Runs, Lent};

use crate::turns::{Progress, run};
use output::Cursor;

// At most so many bytes are served.
const INPUT_MOST: usize = 65536;

// The room of the buffer that is read into: one byte more, so that a longer input shows.
pub const INPUT_ROOM: usize = INPUT_MOST + 1;

// The first portion of what was read. `run` goes on from where it stopped, until that is the input's end.
pub fn start(input: &[u8], m: &mut [u8], text: &mut [u8]) -> Progress
    requires { Lent m.old text.old }
    ensures { Runs (started current input.now m.old text.old) input.now 0
        result m.new text.new }
{
    if INPUT_MOST < input.len() {
        let end = Cursor { at: 0 }.put_all(text, b"too long\n");
        return Progress {
            from: input.len(),
            len: end.at,
        };
    }
    izk::fresh(m, 1).unwrap();
    run(input, 0, m, text)
}
