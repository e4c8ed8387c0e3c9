// Taking a frame apart.
ghost use Rattle.output.specs.Output.{Does, answer_of};
ghost use Rattle.frame.specs.Apart.{apart};

use crate::read::read_into;
use output::{Cursor, Refusal};

pub fn take_apart(frame: &[u8], out: &mut [u8]) -> Result<usize, Refusal>
    ensures { Does (apart frame.now out.old) (answer_of result) out.new }
{
    if out.len() < 132 {
        return Err(Refusal::Room);
    }
    let mut work = [0u8; 133];
    let taken = read_into(frame, &mut work)?;
    let start = Cursor { at: 0 };
    let end = start.put_all(out, &work[..taken]);
    Ok(end.at)
}
