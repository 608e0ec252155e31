//! Datagrams as they come from a host, the addresses of its sockets, its clock, and the fault of a
//! call that failed.
#![tactic(auto)]

mod address;
mod clock;
mod datagram;
pub mod laws;
mod wire_fault;

pub use address::{address_of, socket_address_of};
pub use bytes::Bytes;
pub use clock::{HostClock, SystemClock};
pub use datagram::{BUFFER, Datagram};
pub use wire_fault::WireFault;
