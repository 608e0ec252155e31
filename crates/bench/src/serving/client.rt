//! A device over UDP: it registers, and then updates its registration again and again.

use crate::fault::BenchFault;
use std::io;
use std::net::{IpAddr, Ipv4Addr, Net, SocketAddr, UdpSocket};
use std::time::Duration;

/// The address of a port of the loopback.
pub(super) fn loopback(port: u16) -> SocketAddr {
    SocketAddr::new(IpAddr::V4(Ipv4Addr::LOCALHOST), port)
}

/// The codes of the replies that a client expects: to its Register, and to each Update.
#[derive(Clone, Copy)]
pub(super) struct Codes {
    pub(super) register: u8,
    pub(super) update: u8,
}

impl Codes {
    /// 2.01 and 2.04, as a server replies.
    pub(super) const OF_SERVERS: Codes = Codes {
        register: 0x41,
        update: 0x44,
    };
}

/// The identifier in a Register's reply: its last 16 bytes.
const ID_LENGTH: usize = 16;

/// A device, and how many of its requests were answered.
#[derive(Drop)]
pub(super) struct Client {
    socket: UdpSocket,
    /// The last character of its endpoint name.
    name: u8,
    pub(super) answered: u32,
}

impl Client {
    /// A client of the server at the port, which waits five seconds for a reply.
    pub(super) fn new<R: Net>(rt: &R, name: u8, server: u16) -> Result<Client, BenchFault> {
        let socket = UdpSocket::bind(rt, loopback(0))?;
        connect(&socket, server)?;
        Ok(Client {
            socket,
            name,
            answered: 0,
        })
    }

    /// Sends so many requests, each when the one before was answered, and stops where one is not.
    pub(super) fn ask_all(&mut self, requests: u32, codes: Codes) {
        let Some(id) = self.register(codes.register) else {
            return;
        };
        for turn in 1..requests {
            if self.exchange(&update(turn, id), codes.update).is_none() {
                return;
            }
        }
    }

    /// The identifier that a Register is given.
    fn register(&mut self, code: u8) -> Option<[u8; ID_LENGTH]> {
        let datagram = register(self.name);
        let reply = self.exchange(&datagram, code)?;
        let mut id = [b'0'; ID_LENGTH];
        if let Some(last) = reply.0.get(reply.1.checked_sub(ID_LENGTH)?..reply.1) {
            id.copy_from_slice(last);
        }
        Some(id)
    }

    /// The reply with its length, if there is one and it has the code.
    fn exchange(&mut self, datagram: &[u8], code: u8) -> Option<([u8; 64], usize)> {
        let mut buffer = [0; 64];
        self.socket.send(datagram).ok()?;
        let length = self.socket.recv(&mut buffer).ok()?;
        if length < 2 || buffer[1] != code {
            return None;
        }
        self.answered = self.answered.saturating_add(1);
        Some((buffer, length))
    }
}

fn connect(socket: &UdpSocket, server: u16) -> io::Result<()> {
    socket.connect(loopback(server))?;
    socket.set_read_timeout(Some(Duration::from_secs(5)))
}

/// A confirmable Register of `ep=cN` with the object list `</>`.
fn register(name: u8) -> [u8; 17] {
    [
        0x40, 0x02, 0, 0, 0xb2, b'r', b'd', 0x45, b'e', b'p', b'=', b'c', name, 0xff, b'<', b'/',
        b'>',
    ]
}

/// A confirmable Update of the registration, without parameters. The turn is its token and its message ID, so that no
/// two are one request that came again.
fn update(turn: u32, id: [u8; ID_LENGTH]) -> [u8; 27] {
    let [first, second, high, low] = turn.to_be_bytes();
    let mut datagram = [0; 27];
    datagram[..11].copy_from_slice(&[
        0x42, 0x02, high, low, first, second, 0xb2, b'r', b'd', 0x0d, 0x03,
    ]);
    datagram[11..].copy_from_slice(&id);
    datagram
}
