//! The Redis serialization protocol, version 2, as bytes: commands as a client writes them, and the replies that a log
//! over a stream gets. Nothing is sent or received here.
#![tactic(auto)]

mod bulks;
mod counts;
mod entries;
mod lines;
mod literals;
mod malformed;
mod numbers;
mod replies;
mod stream_id;
mod words;
mod writing;

pub use entries::{Entry, FIELD};
pub use malformed::{Malformed, ReplyFault};
pub use replies::{Reply, first_reply};
pub use stream_id::StreamId;
pub use words::{MAX_BULK, MAX_NUMBER, MAX_TEXT, Word, first_word};
pub use writing::command;
