// Which parts of a table are held.
ghost use Rattle.std.specs.Prelude.{◌≡◌, ◌<◌, Ok};
ghost use Rattle.image.specs.Version.{current};
ghost use Rattle.image.specs.Held.{held_of, held_parts, held_in};

use crate::cell::{Cell, table_index};
use crate::parts::Held;
use crate::usable::is_usable;
use crate::version::Version;
use crate::word::word_at;
use output::Refusal;

// Part p has bit p - 1, so that past t trailing ones part t + 1 is the first that is missing, unless all eleven are there. A word of
// 16 bits has few enough ones for `as`; the failure of a TryFrom could not come.
fn held_of(w: u16) -> Held
    requires { w < 2048 }
    ensures { held_in (Ok result) ≡ held_of w }
{
    let trailing = w.trailing_ones() as u8;
    Held {
        parts: w.count_ones() as u8,
        missing: (trailing != 11).then_some(trailing + 1),
    }
}

// Refused in this order.
pub fn held_parts(m: &[u8], table: u32) -> Result<Held, Refusal>
    ensures { held_in result ≡ held_parts current m.now table }
{
    if !is_usable(m, Version::CURRENT) {
        return Err(Refusal::Image);
    }
    let k = table_index(table).ok_or(Refusal::Place)?;
    Ok(held_of(word_at(m, Cell::WORDS_OFFSET + Cell::WORD_SIZE * usize::from(k))))
}
