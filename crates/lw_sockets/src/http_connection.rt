//! A connection of an HTTP client.

use crate::request_line::RequestLine;
use http_server::Connection;
use log::{Log, info};
use lw_http::{AccessPolicy, advance, new_connection};
use lw_route::Api;
use mio::Token;
use mio::net::TcpStream;
use std::alloc::Global;
use std::hash::RandomState;
use std::io::{self, ErrorKind, Read};
use std::net::SocketAddr;
use std::time::{Duration, Instant};

/// How often a connection reads or writes before others have their turn.
const STEPS: u32 = 8;

/// How many bytes are read at once, for which a connection always has room.
const AT_ONCE: usize = 4096;

/// How many seconds a connection lasts at most.
const MAX_SECONDS: u64 = 5;

/// How many seconds old a connection is that has not asked before it makes room for another.
const GRACE_SECONDS: u64 = 1;

/// What may go before a response (RFC 9110, section 15.2.1).
const CONTINUE: &[u8] = b"HTTP/1.1 100 Continue\r\n\r\n";

/// A connection that is answered.
#[derive(Drop)]
pub(crate) struct HttpConnection {
    stream: TcpStream,
    peer: SocketAddr,
    connection: Connection,
    /// What it is waited for under.
    pub(crate) token: Token,
    /// When it came.
    began: Instant,
    /// Whether it may go on.
    pub(crate) is_ready: bool,
    /// The turn since which it may.
    pub(crate) ready_since: u64,
    request_line: RequestLine,
    /// The status of the response, once there is one.
    pub(crate) status: Option<u16>,
    /// How many bytes were sent.
    sent: usize,
}

/// How a connection goes on.
#[derive(Clone, Copy, PartialEq, Eq)]
pub(crate) enum ConnectionState {
    /// It has more to do now.
    Ready,
    /// It waits for its peer.
    Blocked,
    /// It is over.
    Closed,
}

impl HttpConnection {
    pub(crate) fn new(
        alloc: Global,
        keys: RandomState,
        stream: TcpStream,
        peer: SocketAddr,
        token: Token,
        began: Instant,
        ready_since: u64,
    ) -> HttpConnection {
        HttpConnection {
            stream,
            peer,
            connection: new_connection(alloc, keys),
            token,
            began,
            is_ready: true,
            ready_since,
            request_line: RequestLine::new(),
            status: None,
            sent: 0,
        }
    }

    /// Whether a whole request has come.
    fn has_request(&self) -> bool {
        self.connection.wants_write() || !self.connection.wants_read()
    }

    fn age(&self, now: Instant) -> Duration {
        now.saturating_duration_since(self.began)
    }

    /// It may go on, since this turn or an earlier one.
    pub(crate) fn make_ready(&mut self, turn: u64) {
        if !self.is_ready {
            self.is_ready = true;
            self.ready_since = turn;
        }
    }

    /// Whether it has lasted as long as it may.
    pub(crate) fn is_late(&self, now: Instant) -> bool {
        self.age(now) >= Duration::from_secs(MAX_SECONDS)
    }

    /// How long it is before it makes room for another, where it waits for its peer. One that has asked makes none.
    pub(crate) fn until_evictable(&self, now: Instant) -> Option<Duration> {
        if self.is_ready || self.has_request() {
            return None;
        }
        Some(Duration::from_secs(GRACE_SECONDS).saturating_sub(self.age(now)))
    }

    /// Reads, answers and writes as far as it goes, but not for ever. It gives the API back.
    pub(crate) fn step<A: Api + Drop>(
        &mut self,
        alloc: Global,
        api: A,
        policy: &AccessPolicy,
    ) -> (A, ConnectionState) {
        let mut api = api;
        for _step in 0..STEPS {
            api = advance(alloc, &mut self.connection, api, policy);
            if self.connection.is_done() {
                return (api, ConnectionState::Closed);
            }
            if let Some(state) = self.moved() {
                return (api, state);
            }
        }
        (api, ConnectionState::Ready)
    }

    /// Reads or writes once. It tells how the connection goes on, where that can be told.
    fn moved(&mut self) -> Option<ConnectionState> {
        let moved = if self.connection.wants_write() {
            self.write()
        } else {
            self.read()
        };
        match moved {
            Ok(()) => None,
            Err(error) if error.kind() == ErrorKind::WouldBlock => Some(ConnectionState::Blocked),
            Err(_) => Some(ConnectionState::Closed),
        }
    }

    fn read(&mut self) -> io::Result<()> {
        let mut room = [0; AT_ONCE];
        let count = self.stream.read(&mut room)?;
        let mut bytes = &room[..count.min(AT_ONCE)];
        self.request_line.note(bytes);
        self.connection.read_from(&mut bytes)?;
        Ok(())
    }

    fn write(&mut self) -> io::Result<()> {
        self.status = self.status.or(status_of(self.connection.output()));
        let count = self.connection.write_to(&mut self.stream)?;
        self.sent = self.sent.saturating_add(count);
        Ok(())
    }

    /// Tells of the request, if it was answered.
    pub(crate) fn log_request<L: Log>(&self, log: &L) {
        let Some(status) = self.status else {
            return;
        };
        let (peer, bytes) = (self.peer, self.sent);
        let (method, target) = (&self.request_line.method, &self.request_line.target);
        info!(log; "http peer={peer} method={method} target={target} status={status} bytes={bytes}");
    }
}

/// The status of the response that is sent next (RFC 9112, section 4).
fn status_of(output: &[u8]) -> Option<u16> {
    let response = output.strip_prefix(CONTINUE).unwrap_or(output);
    let digits = response.get(b"HTTP/1.1 ".len()..b"HTTP/1.1 200".len())?;
    str::from_utf8(digits).ok()?.parse().ok()
}
