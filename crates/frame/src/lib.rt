// The frame of document 01: taking one apart and building one; and for serving, reading one into a work array and writing one as its bytes come.
#![tactic(auto)]

mod apart;
mod built;
mod digits;
mod read;
mod total;
mod writer;

pub use apart::take_apart;
pub use built::build;
pub use read::read_into;
pub use writer::Writer;
