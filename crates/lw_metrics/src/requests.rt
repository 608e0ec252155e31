//! What is counted of requests to devices, and of the notifications that they bring.

ghost use Rattle.std.specs.Prelude.{◌≡◌};
ghost use Rattle.lw_metrics.specs.IoCounters.{new_requests};

/// What is counted of a server's requests to devices (RFC 7252, section 4.2), and of what it keeps until it can be told
/// or sent.
#[derive(Clone, Copy, Debug)]
pub struct RequestMeasures {
    /// The requests that were sent, each counted once.
    pub requests_sent: u64,
    /// How often requests were sent again.
    pub requests_sent_again: u64,
    /// The requests that devices answered with a Reset.
    pub requests_reset: u64,
    /// The requests that devices did not answer in time.
    pub requests_unanswered: u64,
    /// How many requests wait for an acknowledgement.
    pub requests_waiting: u64,
    /// The notifications that were older than one before, and were not told.
    pub notifications_stale: u64,
    /// The notifications that were blocks of bodies.
    pub notification_blocks: u64,
    /// How many notifications there are whose rest is being fetched.
    pub fetches: u64,
    /// The replies to non-confirmable requests that were not sent since no message ID was free.
    pub without_message_id: u64,
}

impl RequestMeasures {
    /// Where nothing was counted yet.
    pub fn new() -> RequestMeasures
        ensures { result ≡ new_requests }
    {
        RequestMeasures {
            requests_sent: 0,
            requests_sent_again: 0,
            requests_reset: 0,
            requests_unanswered: 0,
            requests_waiting: 0,
            notifications_stale: 0,
            notification_blocks: 0,
            fetches: 0,
            without_message_id: 0,
        }
    }
}
