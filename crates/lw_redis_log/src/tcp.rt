//! Connections over TCP.

use crate::clock::RedisClock;
use crate::connects::{Connects, Notice};
use log::{Log, error, warn};
use std::io::{self, ErrorKind};
use std::net::{Net, OpenStream, SocketAddr, TcpStream, ToSocketAddrs};
use std::time::{Clock, Duration, Instant};

/// How long connecting takes at most, in milliseconds.
const CONNECTING: u64 = 1_000;

/// A Redis at a host and a port, a stopwatch, a log, and what time it is by the clock of the Redis.
#[derive(Drop)]
pub struct TcpRedis<'a, 'n, R: Net + Clock, L: Log> {
    runtime: &'a R,
    log: &'a L,
    host: &'n str,
    port: u16,
    began: Option<Instant>,
    clock: &'a RedisClock<'a, R>,
}

impl<'a, 'n, R: Net + Clock, L: Log> TcpRedis<'a, 'n, R, L> {
    /// The Redis of a host, which is a name or an IP address. What time it tells is noted in the clock.
    pub fn new(
        runtime: &'a R,
        log: &'a L,
        host: &'n str,
        port: u16,
        clock: &'a RedisClock<'a, R>,
    ) -> TcpRedis<'a, 'n, R, L> {
        TcpRedis {
            runtime,
            log,
            host,
            port,
            began: Instant::now(runtime).ok(),
            clock,
        }
    }

    fn connect_to(&self, address: &SocketAddr) -> io::Result<R::Stream> {
        let limit = Duration::from_millis(CONNECTING);
        let connection = TcpStream::connect_timeout(self.runtime, address, limit)?;
        connection.set_nodelay(true)?;
        Ok(connection)
    }
}

impl<R: Net + Clock, L: Log> Connects for TcpRedis<'_, '_, R, L> {
    type Connection = R::Stream;

    /// The first address that answers.
    fn connect(&mut self) -> io::Result<R::Stream> {
        let mut last = io::Error::from(ErrorKind::NotFound);
        for address in (self.host, self.port).to_socket_addrs(self.runtime)? {
            match self.connect_to(&address) {
                Ok(connection) => return Ok(connection),
                Err(error) => last = error,
            }
        }
        Err(last)
    }

    fn limit(&mut self, connection: &R::Stream, milliseconds: u64) -> io::Result<()> {
        let limit = Some(Duration::from_millis(milliseconds));
        connection.set_read_timeout(limit)?;
        connection.set_write_timeout(limit)
    }

    fn milliseconds(&self) -> Option<u64> {
        let passed = self.began?.elapsed(self.runtime).ok()?;
        u64::try_from(passed.as_millis()).ok()
    }

    fn hear(&mut self, notice: Notice<'_>) {
        let log = self.log;
        match notice {
            Notice::Refused(text) => warn!(log; "redis refused error={text}"),
            Notice::KeepsNothing => warn!(log; "redis keeps nothing on its disk"),
            Notice::IsReplica => warn!(log; "redis is a replica"),
            Notice::Evicts => warn!(log; "redis may evict the stream"),
            Notice::Lost => warn!(log; "redis lost the end of the stream"),
            Notice::PassedOver(id) => {
                warn!(log; "entry passed over position={}-{}", id.major, id.minor);
            }
            Notice::AnotherFleet(id) => {
                error!(log; "entry of another fleet passed over id={}-{}", id.major, id.minor);
            }
            Notice::AnotherStream => error!(log; "stream of another fleet"),
            Notice::Time { told, took } => self.clock.note(told, took),
            Notice::TellsNoTime => warn!(log; "redis tells no time"),
        }
    }
}
