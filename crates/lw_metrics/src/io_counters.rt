//! What is counted of the input and output of a server.

ghost use Rattle.std.specs.Prelude.{◌≡◌};
ghost use Rattle.lw_metrics.specs.IoCounters.{new_io_counters, new_log_counters};

use crate::{AppendTimes, Responses};

/// What a log was asked.
#[derive(Clone, Copy, Debug)]
pub struct LogCounters {
    pub appends: AppendTimes,
    pub entries_written: u64,
    pub entries_read: u64,
}

impl LogCounters {
    /// Of a log that was asked nothing.
    pub fn new() -> LogCounters
        ensures { result ≡ new_log_counters }
    {
        LogCounters {
            appends: AppendTimes::new(),
            entries_written: 0,
            entries_read: 0,
        }
    }
}

/// What is counted of the input and output of a server since it was started: of its log, its transport and its HTTP
/// clients.
#[derive(Clone, Copy, Debug)]
pub struct IoCounters {
    pub log: LogCounters,
    pub compactions: u64,
    /// How long the log was unavailable, in microseconds.
    pub log_unavailable: u64,
    /// The turns and compactions that the log refused, and the run went on.
    pub refusals: u64,
    /// How far the host's clock is from the one that lifetimes go by, in microseconds.
    pub clock_offset: u64,
    /// How often the wait for datagrams failed.
    pub receive_faults: u64,
    /// The replies that could not be sent.
    pub send_faults: u64,
    /// The datagrams that were passed over since the log was unavailable, or the server had stood still.
    pub dropped: u64,
    /// The datagrams that the system dropped before the transport could take them.
    pub drops: u64,
    pub responses: Responses,
}

impl IoCounters {
    /// Where nothing was counted yet.
    pub fn new() -> IoCounters
        ensures { result ≡ new_io_counters }
    {
        IoCounters {
            log: LogCounters::new(),
            compactions: 0,
            log_unavailable: 0,
            refusals: 0,
            clock_offset: 0,
            receive_faults: 0,
            send_faults: 0,
            dropped: 0,
            drops: 0,
            responses: Responses::new(),
        }
    }
}
