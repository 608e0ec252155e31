//! One node: it takes datagrams, observes what devices have, and answers what is registered.
//!
//! A datagram has one meaning over what the node knows: a reply or none, a notice or none, and at most one
//! operation. A call first decides what is to be done, and then does it: what can be refused comes before anything
//! changes.
#![tactic(auto)]

mod acting;
mod answering;
mod asking;
mod command;
mod copying;
mod decision;
pub mod laws;
mod look_ups;
mod merging;
mod node;
mod observing;
mod reports;
mod request;
mod sending;
mod taking;
mod twice;

pub use bytes::Bytes;
pub use lw_call::{
    Answer, Call, ClockEnd, MergeFault, Notice, ObserveFault, Outgoing, Question, Reply, Sent,
    Taken,
};
pub use lw_delta::DeltaFault;
pub use lw_link::LinkText;
pub use lw_reg::{Addr, Binding, Endpoint, Path, Seen, Text, Version, View, Watch};
pub use lw_table::{Key, Table};
pub use node::Node;
