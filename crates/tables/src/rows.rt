// A table's bytes as 352 rows of four: level, then volume, each high byte first. Rows count from 0.
ghost use Rattle.std.specs.Prelude.{◌≡◌, ◌<◌, ◌≤◌, ◌&&◌, leb};
ghost use Rattle.laws.specs.Bytes.{word_at};
ghost use Rattle.tables.specs.Rows.{level, volume, row, never_fall, last_row, between, volume_at, Ready};

use image::{Cell, word_at};

const ROW_SIZE: usize = 4;

const ROWS: usize = 352;

pub const LAST_ROW: usize = 351;

// A table's bytes.
pub type Rows = [u8; Cell::TABLE_SIZE];

#[derive(Clone, Copy, PartialEq, Eq)]
pub struct Row {
    pub level: u16,
    pub volume: u16,
}

// Each asks for a row below 352 by a clause: a type for such numbers would carry a proof at each literal. `level_of` and `volume_of` differ in
// where a word stands: one function for both would take that place as a number, where `row_at` has a name for each.
pub fn level_of(s: &Rows, i: usize) -> u16
    requires { i < 352 }
    ensures { result ≡ level s.now i }
{
    word_at(s, ROW_SIZE * i)
}

pub fn volume_of(s: &Rows, i: usize) -> u16
    requires { i < 352 }
    ensures { result ≡ volume s.now i }
{
    word_at(s, ROW_SIZE * i + 2)
}

pub fn row_at(s: &Rows, i: usize) -> Row
    requires { i < 352 }
    ensures { result ≡ row s.now i }
{
    Row {
        level: level_of(s, i),
        volume: volume_of(s, i),
    }
}

// From each row to the next. The test's clause is written out, since of a call on an array none is found.
pub(crate) fn never_fall(s: &Rows) -> bool
    ensures { result ≡ never_fall s.now }
{
    let (rows, _) = s.as_chunks::<ROW_SIZE>();
    rows.is_sorted_by(
        |row, next|
            ensures { result ≡ (leb (word_at row.now 0) (word_at next.now 0) && leb (word_at row.now 2) (word_at next.now 2)) }
        { word_at(row, 0) <= word_at(next, 0) && word_at(row, 2) <= word_at(next, 2) },
    )
}

// By halves: row `low` is at or below the level asked, the rows from `high` on are above it. The library's `partition_point` reads a row more: it halves the
// rows down to one, and reads that one too.
fn last_row(s: &Rows, asked: u16) -> usize
    requires { Ready s.now asked }
    ensures { result ≡ last_row (level s.now) asked 351 }
{
    let mut low = 0;
    let mut high = ROWS;
    while low + 1 < high {
        let middle = (low + high) / 2;
        if level_of(s, middle) <= asked {
            low = middle;
        } else {
            high = middle;
        }
    }
    low
}

// From a row's volume towards the next one's, in proportion, rounded down. The share is at most the rise, so that `as` fits and no TryFrom can fail.
#[tactic(auto, unfolding(crate::specs::Rows::between))]
fn between(row: Row, next: Row, asked: u16) -> u16
    requires { (row.volume ≤ next.volume) × (row.level ≤ asked) × (asked < next.level) }
    ensures { result ≡ between row.volume next.volume row.level next.level asked }
{
    let rise = u32::from(next.volume - row.volume);
    let above = u32::from(asked - row.level);
    let share = rise * above / u32::from(next.level - row.level);
    row.volume + share as u16
}

pub(crate) fn volume_at(s: &Rows, asked: u16) -> u16
    requires { Ready s.now asked }
    ensures { result ≡ volume_at (level s.now) (volume s.now) 351 asked }
{
    let i = last_row(s, asked);
    let row = row_at(s, i);
    if i == LAST_ROW {
        return row.volume;
    }
    between(row, row_at(s, i + 1), asked)
}
