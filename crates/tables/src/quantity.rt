// The volume at a level, by a table of the image.
ghost use Rattle.std.specs.Prelude.{◌≡◌};
ghost use Rattle.laws.specs.Checks.{judged};
ghost use Rattle.image.specs.Version.{current};
ghost use Rattle.tables.specs.Quantity.{unanswered, row_checks, answered, quantity_at, quantity_of};

use crate::rows::{LAST_ROW, Rows, level_of, never_fall, volume_at};
use image::{Cell, held_parts, table_index};
use output::Refusal;

// By a table's bytes, in the table's units. A level of more than two bytes is above every row's.
fn quantity_in(s: &Rows, level: u32) -> Result<u16, Refusal>
    ensures { quantity_of result ≡ judged unanswered (row_checks s.now level) (answered s.now level) }
{
    if !never_fall(s) {
        return Err(Refusal::Falls);
    }
    let levels = level_of(s, 0)..=level_of(s, LAST_ROW);
    match u16::try_from(level) {
        Ok(level) if levels.contains(&level) => Ok(volume_at(s, level)),
        _ => Err(Refusal::Level),
    }
}

// Its refusals are 1, 10, 12, 13 and 14, in this order. The held-parts question has the first two, so that past it the number is a table's, and says whether
// a part is missing.
pub fn quantity_at(m: &[u8], table: u32, level: u32) -> Result<u16, Refusal>
    ensures { quantity_of result ≡ quantity_at current m.now table level }
{
    let held = held_parts(m, table)?;
    if held.missing.is_some() {
        return Err(Refusal::Missing);
    }
    let k = table_index(table).unwrap();
    let start = Cell::TABLES_OFFSET + Cell::TABLE_SIZE * usize::from(k);
    quantity_in(m[start..].first_chunk().unwrap(), level)
}

// What is reported with the number: a refusal has volume 0.
pub fn reported_volume(answer: &Result<u16, Refusal>) -> u16
    ensures { result ≡ (quantity_of answer.now).volume }
{
    answer.unwrap_or(0)
}
