// A number in decimal, laid at a write cursor.
ghost use Rattle.std.specs.Prelude.{◌+◌, ◌≤◌, length};
ghost use Rattle.output.specs.Cursor.{Laid};
ghost use Rattle.text.specs.Decimal.{decimal};

use itoa::Buffer;
use output::Cursor;

// The library's digits, of a buffer that lies on the stack.
#[tactic(auto, using(crate::proofs::Decimals::decimal_printed))]
pub fn put_decimal(start: Cursor, text: &mut [u8], n: u64) -> Cursor
    requires { start.at + length (decimal n) ≤ length text.old }
    ensures { Laid start.at result.at text.old text.new (decimal n) }
{
    let mut buffer = Buffer::new();
    let digits = buffer.format(n);
    start.put_all(text, digits.as_bytes())
}
