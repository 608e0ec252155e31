//! A clock of the host that only goes on.

use lw_server::Stopwatch;
use std::io;
use std::time::{Clock, Instant};

/// How long ago it was made.
#[derive(Drop)]
pub struct SystemStopwatch<'a, C: Clock> {
    clock: &'a C,
    began: Instant,
}

impl<'a, C: Clock> SystemStopwatch<'a, C> {
    /// One that begins now.
    pub fn start(clock: &'a C) -> io::Result<SystemStopwatch<'a, C>> {
        let began = Instant::now(clock)?;
        Ok(SystemStopwatch { clock, began })
    }
}

impl<C: Clock> Stopwatch for SystemStopwatch<'_, C> {
    fn microseconds(&self) -> Option<u64> {
        let passed = self.began.elapsed(self.clock).ok()?;
        u64::try_from(passed.as_micros()).ok()
    }
}
