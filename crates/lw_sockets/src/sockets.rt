//! Sockets, and the one wait for them.

ghost use Rattle.std.specs.Prelude.{length, IfOk, IfSome};
ghost use Rattle.lw_server.specs.Transport.{IsWithin};

use crate::drops::Drops;
use crate::http_listener::HttpListener;
use log::Log;
use lw_http::AccessPolicy;
use lw_metrics::Responses;
use lw_reg::Addr;
use lw_route::Api;
use lw_server::{Incoming, Transport};
use lw_udp::{WireFault, address_of, socket_address_of};
use mio::net::UdpSocket;
use mio::{Events, Interest, Poll, Token};
use std::alloc::Global;
use std::hash::RandomState;
use std::io::{self, ErrorKind};
use std::net::{Net, SocketAddr};
use std::rt::Files;
use std::time::{Clock, Duration, Instant};

/// What the socket of datagrams is waited for under.
const DATAGRAMS: Token = Token(0);

/// How many events a wait tells of.
const EVENTS: usize = 32;

/// How many seconds may pass from the end of a wait to the next before HTTP clients have to wait for a turn.
const STILL: u64 = 3;

/// A UDP socket that never waits itself, a listener of HTTP where there is one, and what waits for them. The host has
/// the clock, and tells what it dropped.
#[derive(Drop)]
pub struct Sockets<'a, H: Clock + Files + AllocGlobal, L: Log> {
    host: &'a H,
    log: &'a L,
    alloc: Global,
    poll: Poll,
    events: Events<Global>,
    datagrams: UdpSocket,
    drops: Drops,
    listener: Option<HttpListener>,
    /// When the last wait ended.
    left: Option<Instant>,
}

impl<'a, H: Clock + Files + AllocGlobal, L: Log> Sockets<'a, H, L> {
    /// Binds a UDP socket at the address. Of each HTTP request that is answered a line is logged.
    pub fn bind<N: Net>(
        net: &N,
        host: &'a H,
        log: &'a L,
        alloc: Global,
        address: SocketAddr,
    ) -> io::Result<Sockets<'a, H, L>> {
        let poll = Poll::new(net)?;
        let events = Events::with_capacity(alloc, EVENTS)?;
        let mut datagrams = UdpSocket::bind(net, address)?;
        poll.registry()
            .register(&mut datagrams, DATAGRAMS, Interest::READABLE)?;
        let drops = Drops::new(alloc, datagrams.local_addr()?)?;
        Ok(Sockets {
            host,
            log,
            alloc,
            poll,
            events,
            datagrams,
            drops,
            listener: None,
            left: None,
        })
    }

    /// Where datagrams come.
    pub fn local_address(&self) -> io::Result<SocketAddr> {
        self.datagrams.local_addr()
    }

    /// Listens for HTTP at the address, and gives the address at which it is.
    pub fn listen<N: Net>(
        &mut self,
        net: &N,
        keys: RandomState,
        policy: AccessPolicy,
        address: SocketAddr,
    ) -> io::Result<SocketAddr> {
        let listener = HttpListener::bind(net, self.alloc, keys, policy, &self.poll, address)?;
        let bound = listener.local_address()?;
        self.listener = Some(listener);
        Ok(bound)
    }

    /// Waits until something is there, and notes what.
    fn look(&mut self, time: Duration) -> Result<(), WireFault> {
        self.poll
            .poll(&mut self.events, Some(time))
            .map_err(|_| WireFault)?;
        if let Some(listener) = &mut self.listener {
            for event in self.events.iter() {
                listener.note(event.token());
            }
        }
        Ok(())
    }

    /// Accepts connections of HTTP, and goes on with one of them. It gives the API back.
    ///
    /// Once the time is over none goes on before the next turn. So what the API tells is no older than the time, also
    /// where the process was stopped while it waited.
    fn serve_http<A: Api + Drop>(
        &mut self,
        api: A,
        began: Instant,
        time: Duration,
    ) -> (A, Result<(), WireFault>) {
        if self.listener.is_none() {
            return (api, Ok(()));
        }
        let now = match self.look_now() {
            Ok(now) => now,
            Err(fault) => return (api, Err(fault)),
        };
        if now.saturating_duration_since(began) >= time {
            return (api, Ok(()));
        }
        match &mut self.listener {
            Some(listener) => (listener.serve(&self.poll, now, api, self.log), Ok(())),
            None => (api, Ok(())),
        }
    }

    /// Drops are told over HTTP alone.
    fn look_at_drops(&mut self, now: Instant) {
        if self.listener.is_some() {
            self.drops.look(self.host, now);
        }
    }

    /// Notes what is there, without waiting, and tells the moment.
    fn look_now(&mut self) -> Result<Instant, WireFault> {
        self.look(Duration::ZERO)?;
        self.now()
    }

    /// What there is to do without waiting: a datagram, before what the API has to send.
    fn at_once(
        &mut self,
        wants_to_send: bool,
        buffer: &mut [u8],
    ) -> Result<Option<Incoming>, WireFault>
        ensures { IfOk result (λ there. IfSome there (IsWithin (length buffer.new))) }
    {
        // The wait tells of what comes, and not of what is there: that is looked for first.
        match self.more(buffer)? {
            Some((count, from)) => Ok(Some(Incoming::Datagram(count, from))),
            None if wants_to_send => Ok(Some(Incoming::Nothing)),
            None => Ok(None),
        }
    }

    /// What there is to do at once, or after a wait; nothing, where it is to be looked for again.
    fn next(
        &mut self,
        wants_to_send: bool,
        buffer: &mut [u8],
        began: Instant,
        time: Duration,
    ) -> Result<Option<Incoming>, WireFault>
        ensures { IfOk result (λ there. IfSome there (IsWithin (length buffer.new))) }
    {
        if let Some(incoming) = self.at_once(wants_to_send, buffer)? {
            return Ok(Some(incoming));
        }
        if self.wait(began, time)? {
            return Ok(None);
        }
        Ok(Some(Incoming::Nothing))
    }

    /// Whether so much time has passed since the last wait that the API may lack what has happened meanwhile: the
    /// process was stopped, or the turn took long.
    fn stood_still(&self, now: Instant) -> bool {
        match self.left {
            Some(left) => now.saturating_duration_since(left) > Duration::from_secs(STILL),
            None => false,
        }
    }

    /// Waits for so long a time from then on, and has the API answer HTTP clients meanwhile.
    fn poll_from<A: Api + Drop>(
        &mut self,
        api: A,
        buffer: &mut [u8],
        began: Instant,
        time: Duration,
    ) -> (A, Result<Incoming, WireFault>)
        ensures { IfOk result.1 (IsWithin (length buffer.new)) }
    {
        let mut api = api;
        for _turn in 0..u64::MAX {
            let (back, served) = self.serve_http(api, began, time);
            api = back;
            if let Err(fault) = served {
                return (api, Err(fault));
            }
            match self.next(api.wants_to_send(), buffer, began, time) {
                Ok(Some(incoming)) => return (api, Ok(incoming)),
                Ok(None) => {}
                Err(fault) => return (api, Err(fault)),
            }
        }
        (api, Ok(Incoming::Nothing))
    }

    fn now(&self) -> Result<Instant, WireFault> {
        Instant::now(self.host).map_err(|_| WireFault)
    }

    /// Waits for what comes next, but no longer than is left of the time. It tells whether some was left.
    fn wait(&mut self, began: Instant, time: Duration) -> Result<bool, WireFault> {
        let now = self.now()?;
        let left = time.saturating_sub(now.saturating_duration_since(began));
        let timeout = match &self.listener {
            Some(listener) => listener.timeout(now),
            None => Duration::MAX,
        };
        let wait = left.min(timeout);
        if wait > Duration::ZERO {
            self.look(wait)?;
        }
        Ok(left > Duration::ZERO)
    }
}

impl<H: Clock + Files + AllocGlobal, L: Log> Transport for Sockets<'_, H, L> {
    fn poll<A: Api + Drop>(
        &mut self,
        api: A,
        buffer: &mut [u8],
        time: Duration,
    ) -> (A, Result<Incoming, WireFault>) {
        let began = match self.now() {
            Ok(began) => began,
            Err(fault) => return (api, Err(fault)),
        };
        self.look_at_drops(began);
        if self.stood_still(began) {
            self.left = Some(began);
            return (api, Ok(Incoming::Nothing));
        }
        let (api, incoming) = self.poll_from(api, buffer, began, time);
        self.left = self.now().ok();
        (api, incoming)
    }

    fn more(&mut self, buffer: &mut [u8]) -> Result<Option<(usize, Addr)>, WireFault> {
        match self.datagrams.recv_from(buffer) {
            Ok((count, from)) => Ok(Some((count, address_of(&from)))),
            Err(error) if error.kind() == ErrorKind::WouldBlock => Ok(None),
            Err(_) => Err(WireFault),
        }
    }

    fn send(&mut self, to: Addr, bytes: &[u8]) -> Result<(), WireFault> {
        match self.datagrams.send_to(bytes, socket_address_of(&to)) {
            Ok(count) if count == bytes.len() => Ok(()),
            _ => Err(WireFault),
        }
    }

    fn responses(&self) -> Responses {
        match &self.listener {
            Some(listener) => listener.responses,
            None => Responses::new(),
        }
    }

    fn drops(&self) -> u64 {
        self.drops.count
    }
}
