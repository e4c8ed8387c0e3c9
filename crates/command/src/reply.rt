// Replying to a body: its verdict's number, the reply frame in the output, and the image after it. That the image is usable is said as in `act`.
ghost use Rattle.std.specs.Prelude.{◌≡◌, true, ◌≤◌, length};
ghost use Rattle.output.specs.Output.{answer_of, of_length};
ghost use Rattle.image.specs.Version.{current};
ghost use Rattle.image.specs.Usable.{usable};
ghost use Rattle.rules.specs.Found.{accepted, verdict_of, body_of};
ghost use Rattle.command.specs.Reply.{done, sent, Serves};

use crate::act::{leave, put_reply};
use frame::Writer;
use output::Refusal;
use rules::Order;

// Of an accepted one. What the reply shows is the image as the request found it. Returns how long the reply is.
fn accept(order: Order<'_>, m: &mut [u8], out: &mut [u8]) -> usize
    requires { (usable current m.old ≡ true) × (269 ≤ length out.old) }
    ensures { Serves (sent (done current (accepted order.entry) order.entry.body.now m.old) out.old) (of_length result) m.new out.new }
{
    let start = Writer::begin(out);
    let last = put_reply(order, m, out, start);
    leave(order, m);
    last.end(out)
}

// By its verdict, a body without its checksum, on a usable image.
pub fn reply_to(
    verdict: Result<Order<'_>, Refusal>,
    m: &mut [u8],
    out: &mut [u8],
) -> Result<usize, Refusal>
    requires { (usable current m.old ≡ true) × (269 ≤ length out.old) }
    ensures { Serves (sent (done current (verdict_of verdict.entry) (body_of verdict.entry) m.old) out.old) (answer_of result) m.new out.new }
{
    let order = verdict?;
    Ok(accept(order, m, out))
}
