//! How HTTP clients were answered.

ghost use Rattle.std.specs.Prelude.{◌≡◌, ◌==◌, position};
ghost use Rattle.lw_metrics.specs.IoCounters.{new_responses, statuses, with_response, with_response_at};

use crate::tally::one_more;

/// The statuses that a server gives over HTTP.
pub const STATUSES: [u16; 16] = [
    200, 201, 204, 400, 401, 403, 404, 405, 410, 413, 414, 421, 431, 500, 501, 503,
];

/// How often HTTP clients were answered with each status.
#[derive(Clone, Copy, Debug)]
pub struct Responses {
    /// The responses with each of the statuses of `STATUSES`, in their order.
    pub counts: [u64; 16],
}

impl Responses {
    /// Of no HTTP client.
    pub fn new() -> Responses
        ensures { result ≡ new_responses }
    {
        Responses {
            counts: [0; STATUSES.len()],
        }
    }

    /// Counts a response with that status, if it is one of them.
    pub fn count(&mut self, status: u16)
        ensures { self.new ≡ with_response self.old status }
    {
        if let Some(place) = place_of(status) {
            self.counts[place] = one_more(self.counts[place]);
        }
    }
}

/// The place of a status among them, if it is one.
fn place_of(status: u16) -> Option<usize>
    ensures { result ≡ position (λ known. known == status) statuses }
{
    STATUSES.iter().position(|known| *known == status)
}
