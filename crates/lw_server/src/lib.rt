//! The loop of a server: datagrams come over a transport, a replica takes them in rounds, and what it replies goes out
//! only once its log covers all that the replies tell of.
#![tactic(auto)]

mod api;
mod blocks;
mod calling;
mod clocks;
mod commands;
mod counter;
mod devices;
mod event_loop;
mod exchanges;
mod fault;
mod hearing;
mod notifications;
mod numbering;
mod one_call;
mod receiving;
mod reply_lines;
mod round;
mod running;
mod sending;
mod server;
mod stepping;
mod timed_log;
mod transport;
mod upkeep;

pub use clocks::{Clocks, FleetClock, HostClocks, Offset, SharedClocks, Times};
pub use commands::Done;
pub use devices::{Progress, RequestCounts};
pub use fault::{RunFault, TurnFault};
pub use hearing::Passage;
pub use lw_log::{DeltaLog, LogFault};
pub use lw_metrics::{LogCounters, Responses};
pub use lw_reg::Addr;
pub use lw_replica::{Replica, ReplicaFault};
pub use lw_stamp::Moment;
pub use lw_udp::{Datagram, HostClock, WireFault};
pub use running::{Compaction, run_on};
pub use server::Server;
pub use timed_log::{Measured, Stopwatch, TimedLog};
pub use transport::{Incoming, Transport};
