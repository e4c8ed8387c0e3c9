// How long a body must be, and what its numbers name.
ghost use Rattle.std.specs.Prelude.{◌≡◌, ◌≤◌};
ghost use Rattle.rules.specs.Rules.{byte, long_ok, rows_named, named_by};

use crate::rule::{Long, Names};
use image::Cell;

// Byte b of a body, counted from 1; 0 past its end, as the definition reads it. No option: check 9 comes before whoever reads further than a body goes.
pub(crate) fn byte(body: &[u8], b: usize) -> u8
    requires { 1 ≤ b }
    ensures { result ≡ byte body.now b }
{
    body.get(b - 1).copied().unwrap_or(0)
}

// Check 9, of a body of n bytes with its checksum. By cases, as `named_by` goes and for its reason.
#[tactic(auto, unfolding(crate::specs::Rules::rowed, laws::specs::Checks::within))]
pub(crate) fn long_ok(long: Long, n: usize) -> bool
    ensures { result ≡ long_ok long n }
{
    match long {
        Long::Is(k) => n == k,
        Long::Rowed => (8..=68).contains(&n) && n % 3 == 2,
    }
}

// The count byte must be the number of rows that the body carries.
#[tactic(auto, unfolding(crate::specs::Rules::rows_named, image::specs::Cell::errors_named, image::specs::Cell::when))]
fn rows_named(body: &[u8]) -> Option<Cell>
    ensures { result ≡ rows_named body.now }
{
    let count = usize::from(byte(body, 4));
    if 4 + 3 * count != body.len() {
        return None;
    }
    Cell::errors(byte(body, 3))
}

// Check 10. By cases, as `rule_of` returns a rule: with a function in it that finds the cell, a function would be handed out, which is refused.
pub(crate) fn named_by(names: Names, body: &[u8]) -> Option<Cell>
    ensures { result ≡ named_by names body.now }
{
    match names {
        Names::Mask => Some(Cell::mask()),
        Names::Mode => Some(Cell::mode()),
        Names::Clock => Some(Cell::clock()),
        Names::Channel => Cell::constants(byte(body, 3)),
        Names::TablePart => Cell::part(byte(body, 3), byte(body, 4)),
        Names::WholeTable => Cell::table(byte(body, 3)),
        Names::ErrorTable => Cell::errors(byte(body, 3)),
        Names::ErrorRows => rows_named(body),
    }
}
