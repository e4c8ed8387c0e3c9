// The block as the customer sees it: five functions, each of which takes every input and says, for every input, all that it returns and
// leaves. A frame, an image and an output are lent; lengths are those of the whole lent slice. The numbers are document 01's, and 16 document 02's.
#![tactic(auto)]

ghost use Rattle.std.specs.Prelude.{◌≡◌};
ghost use Rattle.output.specs.Refusal.{number_in};
ghost use Rattle.output.specs.Output.{answer_of, Does};
ghost use Rattle.frame.specs.Apart.{apart};
ghost use Rattle.frame.specs.Built.{built};
ghost use Rattle.image.specs.Version.{current};
ghost use Rattle.image.specs.Made.{Makes};
ghost use Rattle.image.specs.Fresh.{freshened};
ghost use Rattle.image.specs.Held.{held_in, held_parts};
ghost use Rattle.command.specs.Reply.{Serves};
ghost use Rattle.izk.specs.Heard.{heard};
ghost use Rattle.izk.specs.Block.{served};

use image::{Held, Version};
use output::Refusal;
use rules::Switch;

// Serves a frame: the reply stands at the start of the output, and a write changes its cell of the image, with the bit and the signature that go along.
// Sealed, no frame changes the image. Refuses 1 to 8, then 16, then 9 to 11.
pub fn serve(frame: &[u8], switch: Switch, m: &mut [u8], out: &mut [u8]) -> Result<usize, Refusal>
    ensures { Serves (served (heard switch) current frame.now m.old out.old)
        (answer_of result) m.new out.new }
{
    if !image::is_usable(m, Version::CURRENT) {
        return Err(Refusal::Image);
    }
    if out.len() < 269 {
        return Err(Refusal::Room);
    }
    let mut work = [0u8; 133];
    let n = frame::read_into(frame, &mut work)?;
    let body = &work[..n];
    let verdict = rules::recognise(body, m[image::ADDRESS_OFFSET], switch);
    command::reply_to(verdict, m, out)
}

// Takes a frame apart: its body without the checksum stands at the start of the output. Refuses 2 to 6.
pub fn take_apart(frame: &[u8], out: &mut [u8]) -> Result<usize, Refusal>
    ensures { Does (apart frame.now out.old) (answer_of result) out.new }
{
    frame::take_apart(frame, out)
}

// Builds a frame from contents: address, command and data. Refuses 3, then 2.
pub fn build(contents: &[u8], out: &mut [u8]) -> Result<usize, Refusal>
    ensures { Does (built contents.now out.old) (answer_of result) out.new }
{
    frame::build(contents, out)
}

// Makes a buffer a fresh image of an address, and answers with its number alone. Refuses 1, then 11.
pub fn fresh(m: &mut [u8], address: u8) -> Result<(), Refusal>
    ensures { Makes (freshened current m.old address) (number_in result) m.new }
{
    image::freshen(m, address)
}

// Says how many parts of a table are held, and the lowest that is missing. Refuses 1, then 10.
pub fn held_parts(m: &[u8], table: u32) -> Result<Held, Refusal>
    ensures { held_in result ≡ held_parts current m.now table }
{
    image::held_parts(m, table)
}
