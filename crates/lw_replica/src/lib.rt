//! A replica of a fleet: a node and its log. A reply is given only after what it tells of was appended to the log, and calls
//! are made over a node that has merged the log to its end.
#![tactic(auto)]

mod clocks;
mod compaction;
mod fault;
pub mod laws;
mod looking;
mod randomness;
mod replica;
mod rounds;
mod size;
mod state;
mod used_numbers;

pub use fault::ReplicaFault;
pub use lw_call::{Call, Reply};
pub use lw_log::{DeltaLog, FleetId, LogFault, Position, Start};
pub use lw_node::Node;
pub use lw_stamp::Moment;
pub use randomness::Randomness;
pub use replica::Replica;
pub use size::LogSize;
