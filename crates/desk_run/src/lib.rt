// Serving the pieces of an input in turn, into a text that is handed out in portions: what the desk program does between reading and writing.
#![tactic(auto)]

mod input;
mod line;
mod piece;
mod turns;

pub use input::{INPUT_ROOM, start};
pub use turns::{Progress, run};
