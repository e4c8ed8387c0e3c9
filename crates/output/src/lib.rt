// The write cursor, and why a call is refused.
#![tactic(auto)]

mod cursor;
mod refusal;

pub use cursor::Cursor;
pub use refusal::Refusal;
