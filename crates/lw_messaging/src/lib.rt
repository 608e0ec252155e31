//! The message layer of CoAP, between the datagrams of devices and a store (RFC 7252, RFC 7641, RFC 7959).
//!
//! Of what devices send: requests that come twice are answered again and not taken again, bodies that come in blocks
//! are put together, the rest of a notification in blocks is fetched, and a notification that is not fresh is told from
//! one that is. Of what is sent to devices: requests that wait for an answer and are sent again, and message IDs.
//!
//! There is no socket and no clock here: each call is handed the moment and the source.
#![tactic(auto)]

mod block;
mod block_answers;
mod block_options;
mod bodies;
mod body;
mod exchange;
mod fetch;
mod fetch_answers;
mod fetch_changes;
mod fetch_messages;
mod fetch_options;
mod fetches;
mod freshness;
mod held;
mod kept;
pub mod laws;
mod message_ids;
mod notifications;
mod outgoing_requests;
mod parcel;
mod pending_request;
mod piece;
mod reading;
mod replies;
mod request;
mod responses;
mod shortest;
mod taking;

pub use block::Block;
pub use block_answers::with_block;
pub use bodies::Bodies;
pub use bytes::Bytes;
pub use exchange::Exchange;
pub use fetches::{Fetches, MAX_FETCHES};
pub use freshness::Freshness;
pub use message_ids::{MessageIds, put_message_id};
pub use notifications::{stamp_of_token, token_in_blocks};
pub use outgoing_requests::{MAX_REQUESTS, Matched, OutgoingRequests, Step};
pub use parcel::Parcel;
pub use pending_request::Purpose;
pub use piece::Piece;
pub use replies::{MAX_BYTES, MAX_EXCHANGES, Replies};
pub use request::is_request;
