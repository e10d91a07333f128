//! Replies to the requests of other programs over a store: each channel has at most one open transaction, and each request one reply.
#![tactic(auto)]

mod channel;
mod refusal;
mod session;

pub use channel::serve;
pub use refusal::{status_of, text_of};
pub use session::Session;
