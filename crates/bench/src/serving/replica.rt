//! A replica that answers, as that of `fleet run` does, until it has answered so many datagrams.

ghost use Rattle.std.specs.Prelude.{length, IfOk};
ghost use Rattle.lw_server.specs.Transport.{IsWithin};

use crate::fault::BenchFault;
use log::sink::Discard;
use lw_log::{DeltaLog, FleetId, Nowhere};
use lw_reg::Addr;
use lw_replica::{Randomness, Replica};
use lw_route::Api;
use lw_serve::{UdpWire, Wire};
use lw_server::{Compaction, HostClocks, Incoming, Responses, Server, TimedLog, Transport, run_on};
use lw_sockets::SystemStopwatch;
use lw_sqlite_log::SqliteLog;
use lw_stamp::Moment;
use lw_udp::{SystemClock, WireFault};
use std::alloc::Global;
use std::net::UdpSocket;
use std::time::{Clock, Duration};

/// What a start draws.
const CHANCE: Randomness = Randomness {
    fleet: FleetId { bytes: [1; 16] },
    tag: 1,
    number: 1,
};

/// Where a replica keeps what it is told.
#[derive(Clone, Copy)]
pub(crate) struct Kept<'a> {
    pub(crate) host: &'a HostRuntime,
    pub(crate) folder: &'a str,
}

/// A wire on which nothing comes any more once so many replies were sent.
#[derive(Drop)]
struct CountedTransport {
    wire: UdpWire,
    left: u32,
}

impl CountedTransport {
    fn hear(&mut self, buffer: &mut [u8]) -> Result<Incoming, WireFault>
        ensures { IfOk result (IsWithin (length buffer.new)) }
    {
        if self.left == 0 {
            return Ok(Incoming::Closed);
        }
        let (count, from) = self.wire.wait(buffer)?;
        Ok(Incoming::Datagram(count, from))
    }
}

impl Transport for CountedTransport {
    fn poll<A: Api + Drop>(
        &mut self,
        api: A,
        buffer: &mut [u8],
        _time: Duration,
    ) -> (A, Result<Incoming, WireFault>) {
        (api, self.hear(buffer))
    }

    fn more(&mut self, buffer: &mut [u8]) -> Result<Option<(usize, Addr)>, WireFault> {
        self.wire.more(buffer)
    }

    fn send(&mut self, to: Addr, bytes: &[u8]) -> Result<(), WireFault> {
        self.left = self.left.saturating_sub(1);
        self.wire.send(to, bytes)
    }

    fn responses(&self) -> Responses {
        Responses::new()
    }

    fn drops(&self) -> u64 {
        0
    }
}

/// Answers so many datagrams.
pub(super) fn answer_by_replica<R: Clock>(
    rt: &R,
    alloc: Global,
    socket: UdpSocket,
    count: u32,
    kept: Option<Kept<'_>>,
) -> Result<(), BenchFault> {
    match kept {
        None => {
            let log = Nowhere::new(alloc);
            answer_over(rt, alloc, socket, count, log, Compaction::Never)
        }
        Some(Kept { host, folder }) => {
            let log = SqliteLog::open(host, folder)?;
            answer_over(rt, alloc, socket, count, log, Compaction::WhereDue)
        }
    }
}

fn answer_over<R: Clock, G: DeltaLog>(
    rt: &R,
    alloc: Global,
    socket: UdpSocket,
    count: u32,
    log: G,
    compaction: Compaction,
) -> Result<(), BenchFault> {
    let timed = TimedLog::new(log, SystemStopwatch::start(rt)?);
    let replica = Replica::begin(alloc, timed, &CHANCE, Moment::START)?;
    let server = Server::new(
        alloc,
        replica,
        HostClocks::new(
            SystemClock { clock: rt },
            SystemStopwatch::start(rt)?,
            Moment::START,
        ),
        0,
        Moment::START,
        None,
    );
    let mut transport = CountedTransport {
        wire: UdpWire::new(socket),
        left: count,
    };
    let wait = Duration::from_secs(1);
    Ok(run_on(&mut transport, server, &Discard, wait, compaction)?)
}
