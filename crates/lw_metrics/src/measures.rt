use crate::{IoCounters, RequestMeasures, Tally};
use lw_stamp::Moment;

/// What is shown of a server.
#[derive(Clone, Copy, Debug)]
pub struct Measures {
    /// The version of the program.
    pub version: &'static str,
    /// When the program was started.
    pub started: Moment,
    /// What is told of its node. It is not told while the log is unavailable.
    pub node: Option<NodeMeasures>,
    pub tally: Tally,
    /// How many rounds failed for want of memory.
    pub passed_over: u64,
    /// Whether the log is unavailable.
    pub log_unavailable: bool,
    /// How many bytes the last snapshot of the log has, with the entries behind it.
    pub log_bytes: u64,
    /// How many bytes the last snapshot has.
    pub log_whole_bytes: u64,
    pub io_counters: IoCounters,
    /// How many datagrams came again and got the same reply.
    pub duplicates: u64,
    /// How many datagrams were blocks of bodies, and were answered as such.
    pub blocks: u64,
    /// How many bodies are kept whose blocks have not all come.
    pub bodies: u64,
    pub requests: RequestMeasures,
}

/// What is shown of a node.
#[derive(Clone, Copy, Debug)]
pub struct NodeMeasures {
    /// How many registrations it keeps.
    pub registrations: u64,
    /// The greatest counter of a stamp that it knows.
    pub counter: u64,
    /// The number of its last change.
    pub change: u64,
    pub number: u16,
}
