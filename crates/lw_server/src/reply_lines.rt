//! What a run logs of the replies that it sends.

use log::{Log, debug, info};
use lw_reg::Addr;
use lw_udp::socket_address_of;

/// How many lines of one kind are told in a second.
const LINES_A_SECOND: u32 = 10;

/// How many lines of one kind were told in the present period, as a second.
#[derive(Clone, Copy)]
pub(crate) struct LineRate {
    most: u32,
    period: u64,
    count: u32,
}

impl LineRate {
    /// Of as many lines as are told in a second.
    pub(crate) fn new() -> LineRate {
        LineRate::of(LINES_A_SECOND)
    }

    /// Of so many lines in a period.
    pub(crate) fn of(most: u32) -> LineRate {
        LineRate {
            most,
            period: 0,
            count: 0,
        }
    }

    /// Whether one more is told in the period, which is then counted.
    pub(crate) fn allows(&mut self, period: u64) -> bool {
        if self.period != period {
            self.period = period;
            self.count = 0;
        }
        self.count = self.count.saturating_add(1);
        self.count <= self.most
    }

    /// Tells of a reply that is sent in the second: at level debug, and at level info where it refuses.
    pub(crate) fn log_reply<L: Log>(&mut self, log: &L, second: u64, to: Addr, reply: &[u8]) {
        let Some(code) = reply.get(1) else {
            return;
        };
        let (class, detail) = (code >> 5, code & 31);
        let from = socket_address_of(&to);
        debug!(log; "take from={from} reply={class}.{detail:02}");
        if class >= 4 && self.allows(second) {
            info!(log; "refused from={from} code={class}.{detail:02}");
        }
    }
}
