//! Rounds of datagrams: they come over a wire, workers take them at nodes behind locks, and the nodes tell each other
//! what they have learnt.
//!
//! A run takes a number of datagrams, a batch in each round, and then compares the transcripts of its workers with the
//! journals of its nodes, and with the volumes that were cut off them after some rounds. The wire and the clock are
//! traits; `UdpWire` and `SystemClock` are those of the host.
#![tactic(auto)]

mod cutting;
mod ending;
mod fault;
mod jobs;
mod nodes;
mod outcomes;
mod plan;
mod receiving;
mod replying;
mod server;
mod serving;
mod sink;
mod udp;
mod wire;

pub use fault::ServeFault;
pub use lw_crew::CrewFault;
pub use lw_reg::Addr;
pub use lw_udp::{HostClock, SystemClock, WireFault};
pub use plan::Plan;
pub use serving::{serve_into, serve_on};
pub use sink::VolumeSink;
pub use udp::UdpWire;
pub use wire::Wire;
