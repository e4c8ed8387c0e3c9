// Doing what a body was found to ask: the three acts, and the reply.
#![tactic(auto)]

mod act;
mod reply;

pub use reply::reply_to;
