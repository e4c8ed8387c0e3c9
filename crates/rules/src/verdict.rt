// What a body is found to be.
ghost use Rattle.std.specs.Prelude.{◌≡◌, ◌≤◌, length, IfOk};
ghost use Rattle.rules.specs.Found.{verdict_by, verdict_of};
ghost use Rattle.rules.specs.Verdict.{tried, recognised};

use crate::names::{byte, long_ok, named_by};
use crate::order::Order;
use crate::rule::{Rule, rule_of};
use crate::switch::Switch;
use crate::values::values_ok;
use image::Cell;
use output::Refusal;

// Checks 9 to 11, by a command's rule: the cell that it is done with.
#[tactic(auto, unfolding(crate::specs::Verdict::tried, laws::specs::Checks::judged))]
fn tried(rule: Rule, body: &[u8]) -> Result<Cell, Refusal>
    requires { length body.now ≤ 132 }
    ensures { verdict_by rule result ≡ tried rule body.now }
{
    if !long_ok(rule.long, body.len() + 1) {
        return Err(Refusal::BodyLength);
    }
    let cell = named_by(rule.names, body).ok_or(Refusal::Place)?;
    if !values_ok(rule.values, body) {
        return Err(Refusal::Value);
    }
    Ok(cell)
}

// Checks 7 to 11, and 16 behind 8: what a block of an address finds a body, without its checksum, to be as its key switch stands.
#[tactic(auto, using(crate::proofs::Sealing::lets_by_act), unfolding(crate::specs::Verdict::recognised, crate::specs::Verdict::sought, laws::specs::Checks::judged))]
pub fn recognise<'a>(body: &'a [u8], address: u8, switch: Switch) -> Result<Order<'a>, Refusal>
    requires { length body.now ≤ 132 }
    ensures verdict { verdict_of result ≡ recognised switch address body.now }
    ensures body { IfOk result (λ o. o.body.now ≡ body.now) }
{
    if byte(body, 1) != address {
        return Err(Refusal::Address);
    }
    let rule = rule_of(byte(body, 2)).ok_or(Refusal::Command)?;
    if !switch.lets_do(rule.act) {
        return Err(Refusal::Sealed);
    }
    let cell = tried(rule, body)?;
    Ok(Order {
        echo: rule.echo,
        act: rule.act,
        cell,
        body,
    })
}
