//! CoAP messages as bytes (RFC 7252, section 3): `decode` and `encode`, by one grammar.
//!
//! Each message that fits has one spelling, and bytes that spell none have one first fault. `decode`
//! walks the grammar whole before it takes any memory, so a fault never depends on memory. The walk
//! counts the options, so their room is made once; `encode` and `encode_lent` make the room of all bytes at once.
//! `decode_lent` leaves token, values and payload where they lie in the datagram.
#![tactic(auto)]

pub mod codes;
mod fault;
mod header;
pub mod laws;
mod limits;
mod message;
mod number;
mod option;
pub mod option_numbers;
mod options;
mod reading;
mod size;
mod writing;

pub use fault::Fault;
pub use header::peek_header;
pub use limits::{MAX_LENGTH, MAX_TOKEN};
pub use message::{CoapOption, DecodedMessage, Kind, LentMessage, LentOption, Message};
pub use number::uint;
pub use options::Options;
pub use reading::{decode, decode_lent};
pub use writing::{encode, encode_lent};
