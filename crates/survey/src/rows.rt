// Whether a table's rows rise up to some row and then stay as it is. Rows count from 0.
ghost use Rattle.std.specs.Prelude.{◌≡◌, ◌≤◌};
ghost use Rattle.tables.specs.Rows.{level, volume};
ghost use Rattle.survey.specs.Rows.{stays_from, RisesUpTo, rises_then_stays};

use tables::{LAST_ROW, Rows, level_of, row_at, volume_of};

// The row up to which they rise: the first from which the next does not. Here and below a walk goes over numbers of rows, since a number is what is looked
// for, and where the rows that stay begin; walks over the bytes in fours would cut a slice first, and say no more.
fn last_rising(s: &Rows) -> usize
    ensures { RisesUpTo (level s.now) (volume s.now) 351 result }
{
    (0..LAST_ROW)
        .find(|i| {
            let next = *i + 1;
            !(level_of(s, *i) < level_of(s, next) && volume_of(s, *i) <= volume_of(s, next))
        })
        .unwrap_or(LAST_ROW)
}

// Of a row below 352, which a clause says as in `tables`.
fn stays_from(s: &Rows, n: usize) -> bool
    requires { n ≤ 351 }
    ensures { result ≡ stays_from (level s.now) (volume s.now) 351 n }
{
    let row = row_at(s, n);
    (n..LAST_ROW).all(|i| row_at(s, i + 1) == row)
}

// No other row will do: from an earlier one the next differs, and a later one is not reached by rising.
pub(crate) fn rise_then_stay(s: &Rows) -> bool
    ensures { result ≡ rises_then_stays s.now }
{
    stays_from(s, last_rising(s))
}
