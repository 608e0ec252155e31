ghost use Rattle.std.specs.Prelude.{◌≡◌, true};

use crate::wire::Wire;
use lw_reg::Addr;
use lw_udp::{WireFault, address_of, socket_address_of};
use std::io::{self, ErrorKind};
use std::net::UdpSocket;

/// A UDP socket as a wire.
#[derive(Drop)]
pub struct UdpWire {
    socket: UdpSocket,
    /// Whether the socket waits where no datagram is there.
    waits: bool,
}

impl UdpWire {
    /// The wire of a socket that is bound and waits.
    pub fn new(socket: UdpSocket) -> UdpWire
        ensures { result ≡ record { socket = socket; waits = true } }
    {
        UdpWire {
            socket,
            waits: true,
        }
    }

    /// Sets whether the socket waits.
    fn set_waits(&mut self, waits: bool) -> io::Result<()> {
        if self.waits != waits {
            self.socket.set_nonblocking(!waits)?;
            self.waits = waits;
        }
        Ok(())
    }

    /// Sends a datagram, or tells that it would have to wait for that.
    fn is_sent(&self, to: Addr, bytes: &[u8]) -> Result<bool, WireFault> {
        match self.socket.send_to(bytes, socket_address_of(&to)) {
            Ok(count) if count == bytes.len() => Ok(true),
            Err(error) if error.kind() == ErrorKind::WouldBlock => Ok(false),
            _ => Err(WireFault),
        }
    }
}

impl Wire for UdpWire {
    fn wait(&mut self, buffer: &mut [u8]) -> Result<(usize, Addr), WireFault> {
        // Where a run is busy, the next datagram is there already.
        if !self.waits {
            if let Some(there) = self.more(buffer)? {
                return Ok(there);
            }
        }
        self.set_waits(true).map_err(|_| WireFault)?;
        match self.socket.recv_from(buffer) {
            Ok((length, from)) => Ok((length, address_of(&from))),
            Err(_) => Err(WireFault),
        }
    }

    fn more(&mut self, buffer: &mut [u8]) -> Result<Option<(usize, Addr)>, WireFault> {
        if self.set_waits(false).is_err() {
            return Ok(None);
        }
        match self.socket.recv_from(buffer) {
            Ok((length, from)) => Ok(Some((length, address_of(&from)))),
            Err(error) if error.kind() == ErrorKind::WouldBlock => Ok(None),
            Err(_) => Err(WireFault),
        }
    }

    fn send(&mut self, to: Addr, bytes: &[u8]) -> Result<(), WireFault> {
        if self.is_sent(to, bytes)? {
            return Ok(());
        }
        // The system has no room for it now, and the socket may not have waited for that.
        self.set_waits(true).map_err(|_| WireFault)?;
        if self.is_sent(to, bytes)? {
            Ok(())
        } else {
            Err(WireFault)
        }
    }
}
