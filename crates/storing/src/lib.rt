// Storing bytes in a cell of the image, with the bit and the signature that go along; and what an item's signature is.
#![tactic(auto)]

mod signature;
mod stored;

pub use signature::{full_sum, signature_of, sum};
pub use stored::store;
