//! The binary form in which another program asks a store: requests and replies as frames of bytes, over any reader and any writer.
#![tactic(auto)]

mod answer;
mod head;
mod opening;
mod request;
mod sending;
mod status;

pub use answer::Answer;
pub use head::Head;
pub use opening::{AskedLayout, Numbers, Opening, receive_opening};
pub use request::{KeyRange, Received, Request, receive};
pub use sending::send;
pub use status::Status;
