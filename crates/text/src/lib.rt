// Text, whoever reads or prints it: where it is cut into lines, and numbers in decimal.
#![tactic(auto)]

mod cut;
mod decimal;

pub use cut::piece_end;
pub use decimal::put_decimal;
