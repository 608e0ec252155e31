//! A run.

use crate::event_loop::EventLoop;
use crate::{Clocks, Incoming, Measured, RunFault, Server, Transport};
use log::Log;
use lw_log::DeltaLog;
use lw_udp::{BUFFER, WireFault};
use std::time::Duration;

/// Whether a run has its log go on from all that the node knows, where what stands behind that is large.
#[derive(Clone, Copy, Debug, PartialEq, Eq)]
pub enum Compaction {
    WhereDue,
    /// For a log that keeps nothing.
    Never,
}

/// Serves until the transport tells that it is over. Where nothing comes for so long a time a turn is made without
/// datagrams.
pub fn run_on<T: Transport, G: DeltaLog + Measured, C: Clocks, L: Log>(
    transport: &mut T,
    server: Server<G, C>,
    log: &L,
    wait: Duration,
    compaction: Compaction,
) -> Result<(), RunFault> {
    let mut buffer = vec![in server.allocator(); 0; BUFFER]?;
    let mut event_loop = EventLoop::new(server, compaction);
    for _turn in 0..u64::MAX {
        let (polled, incoming) = event_loop.poll(transport, &mut buffer, wait);
        event_loop = polled;
        event_loop.note_command(log)?;
        match incoming {
            Ok(Incoming::Datagram(count, from)) => event_loop.take(
                transport,
                log,
                &mut buffer,
                count,
                from,
            )?,
            Ok(Incoming::Nothing) => event_loop.tick(transport, log, &mut buffer)?,
            Ok(Incoming::Closed) => return Ok(()),
            Err(WireFault) => event_loop.fail(log)?,
        }
    }
    Ok(())
}
