//! What a message asks of the server, by the tables of LwM2M over CoAP, and the messages that answer it.
//!
//! `understand` says what a message means by itself: a request is refused by the first of the steps whose
//! cause holds. `understand_lent` is the same for a message that is lent, so that only what is kept is copied.
//! `answer`, `reset` and `ack` spell the replies.
#![tactic(auto)]

mod asked;
mod attributes;
pub mod laws;
mod objects;
mod options;
mod path;
mod queries;
mod refusal;
mod register;
mod reply;
mod report;
mod role;
mod understanding;
mod update;

pub use asked::Asked;
pub use refusal::Refusal;
pub use reply::{ack, answer, reset};
pub use report::Report;
pub use understanding::{understand, understand_lent};
