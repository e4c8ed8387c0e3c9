// Building a frame.
ghost use Rattle.output.specs.Output.{Does, answer_of};
ghost use Rattle.frame.specs.Built.{built};

use crate::writer::Writer;
use output::Refusal;

// Check 3 comes before check 2 here, and here alone.
pub fn build(contents: &[u8], out: &mut [u8]) -> Result<usize, Refusal>
    ensures { Does (built contents.now out.old) (answer_of result) out.new }
{
    let n = contents.len();
    if !(2..=132).contains(&n) {
        return Err(Refusal::Length);
    }
    if out.len() < 2 * n + 5 {
        return Err(Refusal::Room);
    }
    let start = Writer::begin(out);
    let body = start.put_all(out, contents);
    Ok(body.end(out))
}
