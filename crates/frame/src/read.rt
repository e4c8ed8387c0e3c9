// Reading a frame off the line into a work array.
ghost use Rattle.std.specs.Prelude.{◌≡◌, true, ◌%◌, ◌≤◌, length};
ghost use Rattle.output.specs.Output.{answer_of};
ghost use Rattle.frame.specs.Apart.{length_ok, ends_ok};
ghost use Rattle.frame.specs.Read.{ReadInto};

use crate::digits::decode;
use output::Refusal;

fn length_ok(n: usize) -> bool
    ensures is { result ≡ length_ok n }
    ensures bounds { result ≡ true → (9 ≤ n) × (n ≤ 269) × (n % 2 ≡ 1) }
{
    (9..=269).contains(&n) & (n % 2 == 1)
}

// Joined by `&`, since the three characters in the pattern would be a branch each, which took longer.
#[tactic(auto, unfolding(crate::specs::Apart::ends_ok))]
fn ends_ok(f: &[u8]) -> bool
    ensures { result ≡ ends_ok f.now }
{
    match f {
        [first, .., cr, lf] => (*first == b':') & (*cr == b'\r') & (*lf == b'\n'),
        _ => false,
    }
}

// Checks 3 to 6. Past them the contents stand at the start of `work`; a frame that is refused may have been decoded into it.
pub fn read_into(frame: &[u8], work: &mut [u8]) -> Result<usize, Refusal>
    requires { 133 ≤ length work.old }
    ensures { ReadInto frame.now (answer_of result) work.new }
{
    let n = frame.len();
    if !length_ok(n) {
        return Err(Refusal::Length);
    }
    if !ends_ok(frame) {
        return Err(Refusal::Ends);
    }
    let total = decode(&frame[1..n - 2], work).ok_or(Refusal::Digit)?;
    if total != 0 {
        return Err(Refusal::Checksum);
    }
    Ok((n - 3) / 2 - 1)
}
