//! Protocols: acts as lines of text, read one by one and as a whole.
#![tactic(auto)]

mod bytes;
mod calls;
mod error;
mod line;
mod numbers;
mod read;
mod request;
mod words;

pub use bytes::array_of;
pub use calls::{UNWRITTEN, request_call};
pub use error::ProtocolError;
pub use line::read_request;
pub use numbers::MOST_SIZE;
pub use read::{first_unreadable, next_request, read_protocol};
pub use request::Request;
