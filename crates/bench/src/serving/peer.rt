//! What answers the clients, and how fast.

use super::client::{Client, Codes, loopback};
use super::replica::{Kept, answer_by_replica};
use crate::fault::BenchFault;
use log::sink::Discard;
use lw_serve::{Plan, ServeFault, SystemClock, UdpWire, serve_on};
use std::alloc::Global;
use std::io;
use std::net::{Net, UdpSocket};
use std::sync::Wait;
use std::thread::{self, Threads};
use std::time::{Clock, Duration, Instant};

/// How many clients there are.
pub(super) const CLIENTS: u8 = 8;

/// What answers.
#[derive(Clone, Copy)]
pub(super) enum Peer<'a> {
    /// So many nodes with so many workers.
    Rounds { nodes: u16, workers: u32 },
    /// A replica, and where it keeps what it is told, if it does.
    Replica(Option<Kept<'a>>),
    /// Each datagram is sent back as it came.
    Echo,
}

impl Peer<'_> {
    fn codes(self) -> Codes {
        match self {
            Peer::Rounds { .. } | Peer::Replica(_) => Codes::OF_SERVERS,
            Peer::Echo => Codes {
                register: 0x02,
                update: 0x02,
            },
        }
    }
}

/// How long all clients together take for so many requests each, every one of which has to be answered.
pub(super) fn measure<R: Threads + Wait + Net + Clock + Sync>(
    rt: &R,
    alloc: Global,
    peer: Peer<'_>,
    requests: u32,
) -> Result<Duration, BenchFault> {
    let socket = UdpSocket::bind(rt, loopback(0))?;
    let mut clients = clients(rt, alloc, &[socket.local_addr()?.port()])?;
    time_of(rt, alloc, peer, socket, &mut clients, requests)
}

fn time_of<R: Threads + Wait + Net + Clock + Sync>(
    rt: &R,
    alloc: Global,
    peer: Peer<'_>,
    socket: UdpSocket,
    clients: &mut [Client],
    requests: u32,
) -> Result<Duration, BenchFault> {
    let start = Instant::now(rt)?;
    let answered = exchange(rt, alloc, peer, socket, clients, requests);
    let time = start.elapsed(rt)?;
    answered?;
    are_answered(clients, requests)?;
    Ok(time)
}

/// Each client was answered each of so many requests.
pub(super) fn are_answered(clients: &[Client], requests: u32) -> Result<(), BenchFault> {
    if clients.iter().all(|client| client.answered == requests) {
        Ok(())
    } else {
        Err(BenchFault::Unexpected)
    }
}

/// All clients ask while they are answered.
fn exchange<R: Threads + Wait + Clock + Sync>(
    rt: &R,
    alloc: Global,
    peer: Peer<'_>,
    socket: UdpSocket,
    clients: &mut [Client],
    requests: u32,
) -> Result<(), BenchFault> {
    let all = requests.saturating_mul(u32::from(CLIENTS));
    let (answered, ()) = thread::join(
        rt,
        || answer(rt, alloc, peer, socket, all),
        || ask(rt, clients, requests, peer.codes()),
    );
    answered
}

/// A client of each of the servers in turn.
pub(super) fn clients<R: Net>(
    rt: &R,
    alloc: Global,
    servers: &[u16],
) -> Result<Vec<Client>, BenchFault> {
    let mut clients = Vec::new(alloc);
    for number in 0..CLIENTS {
        let server = server_of(servers, number)?;
        clients.push(Client::new(rt, b'0' + number, server)?)?;
    }
    Ok(clients)
}

/// The server that a client asks.
fn server_of(servers: &[u16], client: u8) -> Result<u16, BenchFault> {
    let place = usize::from(client).checked_rem(servers.len());
    match place.and_then(|place| servers.get(place)) {
        Some(server) => Ok(*server),
        None => Err(BenchFault::Unexpected),
    }
}

/// Has each client ask on a thread of its own.
pub(super) fn ask<R: Threads + Sync>(rt: &R, clients: &mut [Client], requests: u32, codes: Codes) {
    let each = |_place: usize, client: &mut Client| client.ask_all(requests, codes);
    thread::for_each_mut(rt, clients, CLIENTS as usize, &each);
}

/// Answers so many datagrams.
fn answer<R: Threads + Wait + Clock + Sync>(
    rt: &R,
    alloc: Global,
    peer: Peer<'_>,
    socket: UdpSocket,
    count: u32,
) -> Result<(), BenchFault> {
    match peer {
        Peer::Rounds { nodes, workers } => match Plan::new(count, nodes, workers, None) {
            Some(plan) => Ok(serve(rt, alloc, socket, &plan)?),
            None => Err(BenchFault::Unexpected),
        },
        Peer::Replica(kept) => answer_by_replica(rt, alloc, socket, count, kept),
        Peer::Echo => Ok(echo(&socket, count)?),
    }
}

fn serve<R: Threads + Wait + Clock + Sync>(
    rt: &R,
    alloc: Global,
    socket: UdpSocket,
    plan: &Plan,
) -> Result<(), ServeFault> {
    let mut written = Vec::new(alloc);
    let wire = &mut UdpWire::new(socket);
    let clock = &mut SystemClock { clock: rt };
    serve_on(rt, alloc, wire, clock, &Discard, plan, &mut written)
}

/// Sends so many datagrams back.
fn echo(socket: &UdpSocket, count: u32) -> io::Result<()> {
    let mut buffer = [0; 64];
    for _ in 0..count {
        let (length, from) = socket.recv_from(&mut buffer)?;
        socket.send_to(&buffer[..length], from)?;
    }
    Ok(())
}
