// Which values a command takes.
ghost use Rattle.std.specs.Prelude.{◌≡◌, ◌≤◌, length, drop, eqb};
ghost use Rattle.std.specs.Int.Signed.{lt_z};
ghost use Rattle.laws.specs.Checks.{within, all};
ghost use Rattle.rules.specs.Rules.{blank, degrees, rises, constants_ok, clock_ok, mode_ok, values_ok};

use crate::names::byte;
use crate::rule::Values;

#[tactic(auto, unfolding(laws::specs::Checks::within))]
fn is_within(low: u8, high: u8, x: u8) -> bool
    ensures { result ≡ within low high x }
{
    (low..=high).contains(&x)
}

// What a body has from an index on.
fn behind(body: &[u8], at: usize) -> &[u8]
    ensures { result.now ≡ drop at body.now }
{
    body.get(at..).unwrap_or_default()
}

// A fold, since `all` stops at the first byte that is not 0: going on, the compiler can take several at a time.
fn all_zero(bytes: &[u8]) -> bool
    ensures { result ≡ all (λ b. eqb b 0) bytes.now }
{
    bytes.iter().copied().fold(true, |ok, b| ok & (b == 0))
}

// Bytes from..to of a body are all 0; past its end it reads as 0. Its length is asked once and not at each byte, for the same reason.
#[tactic(auto, using(crate::proofs::Judging::blank_kept, crate::proofs::Judging::blank_short))]
fn is_blank(body: &[u8], from: usize, to: usize) -> bool
    requires { 1 ≤ from }
    ensures { result ≡ blank body.now from to }
{
    match body.get(..to) {
        Some(kept) => all_zero(behind(kept, from - 1)),
        None => all_zero(behind(body, from - 1)),
    }
}

// All are judged, as in `all_zero`: no early exit between them.
#[tactic(auto, unfolding(crate::specs::Rules::constants_ok))]
fn constants_ok(body: &[u8]) -> bool
    ensures { result ≡ constants_ok body.now }
{
    is_blank(body, 17, 20)
        & is_blank(body, 23, 26)
        & is_blank(body, 29, 32)
        & is_blank(body, 35, 38)
        & is_blank(body, 43, 46)
        & is_blank(body, 49, 68)
        & is_blank(body, 71, 72)
        & is_blank(body, 75, 78)
        & is_within(1, 13, byte(body, 7))
}

// Judged from the last byte back: a body that is long enough for that one is for all, so that the compiler can ask for the length once.
#[tactic(auto, unfolding(crate::specs::Rules::clock_ok))]
fn clock_ok(body: &[u8]) -> bool
    ensures { result ≡ clock_ok body.now }
{
    let rest = is_blank(body, 10, 11);
    let year = is_within(0, 99, byte(body, 9));
    let month = is_within(1, 12, byte(body, 8));
    let day = is_within(1, 31, byte(body, 7));
    let weekday = is_within(1, 7, byte(body, 6));
    let hour = is_within(0, 23, byte(body, 5));
    let minute = is_within(0, 59, byte(body, 4));
    let second = is_within(0, 59, byte(body, 3));
    second & minute & hour & weekday & day & month & year & rest
}

#[tactic(auto, unfolding(crate::specs::Rules::mode_ok))]
fn mode_ok(body: &[u8]) -> bool
    ensures { result ≡ mode_ok body.now }
{
    matches!(byte(body, 3), 0 | 255)
}

// Whether a means fewer degrees than b. Adding 127 and dropping the carry numbers the bytes from 0 to 255 in the order of their degrees: 81h (-127)
// first, FFh and 00h in the middle, 80h (+128) last.
#[tactic(auto, using(crate::proofs::Degrees::degrees_order))]
fn is_colder(a: u8, b: u8) -> bool
    ensures { result ≡ lt_z (degrees a) (degrees b) }
{
    a.wrapping_add(127) < b.wrapping_add(127)
}

// The temperatures rise from row to row; rows of three bytes start at byte 5. It goes on past a row that falls, as `all_zero` does.
fn rows_rise(body: &[u8]) -> bool
    ensures { result ≡ rises (drop 4 body.now) }
{
    let mut ok = true;
    let mut rows = behind(body, 4);
    while let [upper, _, _, lower, ..] = rows {
        ok &= is_colder(*upper, *lower);
        rows = behind(rows, 3);
    }
    ok
}

// Check 11. A case for each kind of values and no closure kept in the rule: `rule_of` would have to return it, and no function may be handed out.
pub(crate) fn values_ok(values: Values, body: &[u8]) -> bool
    ensures { result ≡ values_ok values body.now }
{
    match values {
        Values::Anything => true,
        Values::Constants => constants_ok(body),
        Values::Rows => rows_rise(body),
        Values::Mode => mode_ok(body),
        Values::Clock => clock_ok(body),
    }
}
