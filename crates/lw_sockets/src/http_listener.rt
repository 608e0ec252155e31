//! The listener of HTTP, and its connections.

use crate::http_connection::{ConnectionState, HttpConnection};
use log::Log;
use lw_http::AccessPolicy;
use lw_metrics::Responses;
use lw_route::Api;
use mio::net::TcpListener;
use mio::{Interest, Poll, Token};
use std::alloc::Global;
use std::hash::RandomState;
use std::io::{self, ErrorKind};
use std::net::{Net, SocketAddr};
use std::time::{Duration, Instant};

/// What the listener is waited for under. The connections have those behind it.
const LISTENER: Token = Token(1);

/// How many connections there are at once at most.
const MAX_CONNECTIONS: usize = 16;

/// How many milliseconds are waited before a connection is accepted again for which the host had nothing left.
const PAUSE: u64 = 100;

/// Whether connections wait to be accepted.
#[derive(Clone, Copy)]
enum Backlog {
    /// None does: the poll tells of the next.
    Empty,
    /// Some may.
    Waiting,
    /// Some may, and the host had nothing left for the first of them.
    Failed,
}

/// A listener, and the connections that it has accepted, the oldest first.
#[derive(Drop)]
pub(crate) struct HttpListener {
    alloc: Global,
    keys: RandomState,
    policy: AccessPolicy,
    socket: TcpListener,
    backlog: Backlog,
    connections: Vec<HttpConnection>,
    /// What the last connection is waited for under.
    last: Token,
    /// How often a connection has gone on.
    turn: u64,
    /// How those were answered that are over.
    pub(crate) responses: Responses,
}

impl HttpListener {
    pub(crate) fn bind<N: Net>(
        net: &N,
        alloc: Global,
        keys: RandomState,
        policy: AccessPolicy,
        poll: &Poll,
        address: SocketAddr,
    ) -> io::Result<HttpListener> {
        let mut socket = TcpListener::bind(net, address)?;
        poll.registry()
            .register(&mut socket, LISTENER, Interest::READABLE)?;
        Ok(HttpListener {
            alloc,
            keys,
            policy,
            socket,
            backlog: Backlog::Waiting,
            connections: Vec::new(alloc),
            last: LISTENER,
            turn: 0,
            responses: Responses::new(),
        })
    }

    pub(crate) fn local_address(&self) -> io::Result<SocketAddr> {
        self.socket.local_addr()
    }

    /// Notes what the poll tells of.
    pub(crate) fn note(&mut self, token: Token) {
        if token == LISTENER {
            self.backlog = Backlog::Waiting;
        }
        for connection in self.connections.iter_mut() {
            if connection.token == token {
                connection.make_ready(self.turn);
            }
        }
    }

    /// Accepts connections, closes those that last too long, and goes on with one of those that may. It gives the API
    /// back.
    pub(crate) fn serve<A: Api + Drop, L: Log>(
        &mut self,
        poll: &Poll,
        now: Instant,
        api: A,
        log: &L,
    ) -> A {
        self.close_late(now, log);
        self.accept_all(poll, now, log);
        self.advance_one(now, api, log)
    }

    /// How long may be waited before this is to be looked at again.
    pub(crate) fn timeout(&self, now: Instant) -> Duration {
        if self
            .connections
            .iter()
            .any(|connection| connection.is_ready)
        {
            return Duration::ZERO;
        }
        match self.backlog {
            Backlog::Empty => Duration::MAX,
            Backlog::Waiting => self.until_room(now),
            Backlog::Failed => Duration::from_millis(PAUSE),
        }
    }

    /// How long it is until there is room for the next connection, if none ends before.
    fn until_room(&self, now: Instant) -> Duration {
        if self.connections.len() < MAX_CONNECTIONS {
            return Duration::ZERO;
        }
        let mut soonest = Duration::MAX;
        for connection in self.connections.iter() {
            if let Some(until_evictable) = connection.until_evictable(now) {
                soonest = soonest.min(until_evictable);
            }
        }
        soonest
    }

    /// Accepts the connections that wait, as far as there is room.
    fn accept_all<L: Log>(&mut self, poll: &Poll, now: Instant, log: &L) {
        for _connection in 0..MAX_CONNECTIONS {
            if matches!(self.backlog, Backlog::Empty) || self.until_room(now) > Duration::ZERO {
                return;
            }
            self.backlog = match self.accept_next(poll, now, log) {
                Ok(()) => Backlog::Waiting,
                Err(error) if error.kind() == ErrorKind::WouldBlock => Backlog::Empty,
                Err(_) => Backlog::Failed,
            };
            if matches!(self.backlog, Backlog::Failed) {
                return;
            }
        }
    }

    /// Accepts the first connection that waits. Where there is no room, another one makes it.
    fn accept_next<L: Log>(&mut self, poll: &Poll, now: Instant, log: &L) -> io::Result<()> {
        let (mut stream, peer) = self.socket.accept()?;
        let token = Token(self.last.0.saturating_add(1));
        let interest = Interest::READABLE | Interest::WRITABLE;
        poll.registry().register(&mut stream, token, interest)?;
        self.last = token;
        self.evict_oldest(now, log);
        let turn = self.turn;
        let connection = HttpConnection::new(self.alloc, self.keys, stream, peer, token, now, turn);
        self.connections.push(connection)?;
        Ok(())
    }

    /// Where there is no room, the oldest connection that may be closed is.
    fn evict_oldest<L: Log>(&mut self, now: Instant, log: &L) {
        if self.connections.len() < MAX_CONNECTIONS {
            return;
        }
        let may_go = |connection: &HttpConnection| connection.until_evictable(now)
            == Some(Duration::ZERO);
        if let Some(place) = self.connections.iter().position(may_go) {
            self.close(place, log);
        }
    }

    /// Closes the connection at the place, if there is one, and logs its request. The others keep their order.
    fn close<L: Log>(&mut self, place: usize, log: &L) {
        if place < self.connections.len() {
            let connection = self.connections.remove(place);
            if let Some(status) = connection.status {
                self.responses.count(status);
            }
            connection.log_request(log);
        }
    }

    /// Closes the connections that last too long and wait for their peers.
    fn close_late<L: Log>(&mut self, now: Instant, log: &L) {
        for place in (0..self.connections.len()).rev() {
            let Some(connection) = self.connections.get(place) else {
                return;
            };
            if !connection.is_ready && connection.is_late(now) {
                self.close(place, log);
            }
        }
    }

    /// Of the connections that may go on, the one that has waited for the most turns, and of several the oldest.
    fn next_place(&self) -> Option<usize> {
        let mut next = None;
        let mut first = u64::MAX;
        for (place, connection) in self.connections.iter().enumerate() {
            if connection.is_ready && connection.ready_since < first {
                (next, first) = (Some(place), connection.ready_since);
            }
        }
        next
    }

    /// Goes on with one connection, and closes it if it is over, or lasts too long.
    fn advance_one<A: Api + Drop, L: Log>(&mut self, now: Instant, api: A, log: &L) -> A {
        let Some(place) = self.next_place() else {
            return api;
        };
        let Some(connection) = self.connections.get_mut(place) else {
            return api;
        };
        self.turn = self.turn.saturating_add(1);
        let (api, state) = connection.step(self.alloc, api, &self.policy);
        connection.is_ready = false;
        if state == ConnectionState::Ready {
            // Behind those that may go on by now.
            connection.make_ready(self.turn.saturating_add(1));
        }
        if state == ConnectionState::Closed || connection.is_late(now) {
            self.close(place, log);
        }
        api
    }
}
