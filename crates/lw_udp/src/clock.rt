ghost use Rattle.std.specs.Prelude.{◌≡◌, ◌<◌, ◌/◌, ◌^◌, ◌↔◌, IsSome, IfSome};
ghost use Rattle.std.specs.Duration.{as_nanos};
ghost use Rattle.lw_stamp.specs.Moment.{ms_of};

use lw_stamp::Moment;
use std::time::{Clock, Duration};

/// The clock of the host.
pub trait HostClock {
    /// The moment it is. There is none where the clock cannot be read or shows no `Moment`.
    fn now(&mut self) -> Option<Moment>;
}

/// The clock of the runtime, in milliseconds since 1970.
#[derive(Drop)]
pub struct SystemClock<'a, C: Clock> {
    pub clock: &'a C,
}

impl<C: Clock> HostClock for SystemClock<'_, C> {
    fn now(&mut self) -> Option<Moment> {
        moment_after(self.clock.since_1970().ok()?)
    }
}

/// The moment so long after 1970.
fn moment_after(time: Duration) -> Option<Moment>
    ensures in_range { IsSome result ↔ (as_nanos time / 1000000 < 2 ^ 48) }
    ensures value { IfSome result (λ moment. ms_of moment ≡ as_nanos time / 1000000) }
{
    Moment::new(u64::try_from(time.as_millis()).ok()?)
}
