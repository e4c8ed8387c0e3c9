// What is done with an accepted body: what the reply says, and what the image becomes. That the image is usable, or
// has its length, is said by each contract that needs it: a type for it would hold the very slice that an act then writes, and its fact would have to be
// given up there and proved anew.
ghost use Rattle.std.specs.Prelude.{◌≡◌, true, ◌+◌, ◌*◌, ◌≤◌, length};
ghost use Rattle.frame.specs.Written.{Spells};
ghost use Rattle.image.specs.Version.{current, image_length};
ghost use Rattle.image.specs.Cell.{size, extent, is_cell, is_item};
ghost use Rattle.image.specs.Usable.{usable};
ghost use Rattle.command.specs.Act.{says, leaves};
ghost use Rattle.command.specs.Reply.{reply_of};

use frame::Writer;
use image::Cell;
use rules::{Act, Order};

// How many of a cell's bytes count, by its first: of an error table the count and its rows.
fn extent(cell: Cell, b: u8) -> usize
    ensures { result ≡ extent cell b }
{
    match cell {
        Cell::Errors(_) => 1 + 3 * usize::from(b),
        _ => cell.size(),
    }
}

// At a writer, a cell's bytes that count.
fn show(cell: Cell, m: &[u8], out: &mut [u8], start: Writer) -> Writer
    requires { (is_cell cell ≡ true) × (usable current m.now ≡ true) × (start.at + 2 * size cell ≤ length out.old) }
    ensures { Spells start out.old (says current Act.Show cell m.now) result out.new }
{
    let from = cell.offset();
    let to = from + extent(cell, m[from]);
    start.put_all(out, &m[from..to])
}

// At a writer, an item's signature, high byte first.
fn sign(cell: Cell, m: &[u8], out: &mut [u8], start: Writer) -> Writer
    requires { (is_item cell ≡ true) × (length m.now ≡ image_length current) × (start.at + 4 ≤ length out.old) }
    ensures { Spells start out.old (says current Act.Sign cell m.now) result out.new }
{
    start.put_all(out, &storing::signature_of(cell, m).to_be_bytes())
}

// At a writer, the reply without its checksum: the request's first bytes, then what the act says.
pub(crate) fn put_reply(order: Order<'_>, m: &[u8], out: &mut [u8], start: Writer) -> Writer
    requires { (usable current m.now ≡ true) × (start.at + 264 ≤ length out.old) }
    ensures { Spells start out.old (reply_of current order.entry.echo order.entry.act order.entry.cell order.entry.body.now m.now) result out.new }
{
    let echoed = start.put_all(out, &order.body[..2 + order.echo]);
    // By cases: an act that held its own function would be handed out by `rule_of`, and a function that is handed out is refused here.
    match order.act {
        Act::Show => show(order.cell, m, out, echoed),
        Act::Sign => sign(order.cell, m, out, echoed),
        Act::Store(_) => echoed,
    }
}

// The image after the act, by cases as above.
pub(crate) fn leave(order: Order<'_>, m: &mut [u8])
    requires { length m.old ≡ image_length current }
    ensures { m.new ≡ leaves current order.entry.act order.entry.cell order.entry.body.now m.old }
{
    match order.act {
        Act::Show | Act::Sign => {}
        Act::Store(from) => storing::store(order.cell, &order.body[from..], m),
    }
}
