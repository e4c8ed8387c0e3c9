// A surveyor's table file, checked before it is sent.
#![tactic(auto)]

mod file;
mod first;
mod rows;
mod sheet;

pub use file::check_file;
