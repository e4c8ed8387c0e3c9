// From a decoded body to what is to be done: document 01's fourteen commands and their checks, 7 to 11, with the key switch's, 16, behind 8.
#![tactic(auto)]

mod names;
mod order;
mod rule;
mod switch;
mod values;
mod verdict;

pub use order::Order;
pub use rule::{Act, Long, Names, Rule, Values, rule_of};
pub use switch::Switch;
pub use verdict::recognise;
