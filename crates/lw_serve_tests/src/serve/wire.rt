//! A wire, a clock and a writer in memory.

ghost use Rattle.std.specs.Prelude.{◌≤◌, length, IfOk};

use super::*;
use std::io::{self, ErrorKind, Write};

/// When a datagram comes.
#[derive(Clone, Copy)]
pub(super) enum Coming {
    /// When it is waited for.
    Alone,
    /// With the one before.
    AtOnce,
    /// When it is waited for, and before that the wire fails once.
    BehindFault,
}

/// A port of 127.0.0.1, the datagram that comes from there, and when it comes.
pub(super) type Arrival<'a> = (u16, &'a [u8], Coming);

/// A wire in memory. Where all datagrams have come it fails.
#[derive(Drop)]
pub(super) struct MemoryWire<'a> {
    pub(super) alloc: Global,
    /// How many times it still fails when it is waited for.
    pub(super) faults: u32,
    pub(super) arrivals: &'a [Arrival<'a>],
    /// How many have come.
    pub(super) taken: usize,
    pub(super) send_fails: bool,
    /// What was sent, and to which ports.
    pub(super) sent: Vec<(u16, Vec<u8>)>,
}

impl<'a> MemoryWire<'a> {
    pub(super) fn new(alloc: Global, arrivals: &'a [Arrival<'a>]) -> MemoryWire<'a> {
        MemoryWire {
            alloc,
            faults: 0,
            arrivals,
            taken: 0,
            send_fails: false,
            sent: Vec::new(alloc),
        }
    }

    fn next(&mut self, buffer: &mut [u8]) -> Result<(usize, Addr), WireFault>
        ensures { IfOk result (λ taken. taken.0 ≤ length buffer.new) }
    {
        let Some((port, bytes, _coming)) = self.arrivals.get(self.taken) else {
            return Err(WireFault);
        };
        self.taken = self.taken.wrapping_add(1);
        let length = bytes.len().min(buffer.len());
        buffer[..length].copy_from_slice(&bytes[..length]);
        let from = Addr::V4 {
            address: [127, 0, 0, 1],
            port: *port,
        };
        Ok((length, from))
    }
}

impl Wire for MemoryWire<'_> {
    fn wait(&mut self, buffer: &mut [u8]) -> Result<(usize, Addr), WireFault> {
        if self.faults > 0 {
            self.faults -= 1;
            return Err(WireFault);
        }
        self.next(buffer)
    }

    fn more(&mut self, buffer: &mut [u8]) -> Result<Option<(usize, Addr)>, WireFault> {
        match self.arrivals.get(self.taken) {
            Some((_, _, Coming::AtOnce)) => Ok(Some(self.next(buffer)?)),
            Some((_, _, Coming::BehindFault)) => Err(WireFault),
            _ => Ok(None),
        }
    }

    fn send(&mut self, to: Addr, bytes: &[u8]) -> Result<(), WireFault> {
        if self.send_fails {
            return Err(WireFault);
        }
        let (Addr::V4 { port, .. } | Addr::V6 { port, .. }) = to;
        let Ok(bytes) = bytes.to_vec(self.alloc) else {
            return Err(WireFault);
        };
        match self.sent.push((port, bytes)) {
            Ok(()) => Ok(()),
            Err(_) => Err(WireFault),
        }
    }
}

/// A clock in memory, which counts its readings. It gives the moments of these milliseconds in turn, and the last of
/// them from then on.
#[derive(Drop)]
pub(super) struct Ticks<'a> {
    pub(super) moments: &'a [u64],
    pub(super) readings: u32,
}

impl<'a> Ticks<'a> {
    pub(super) fn new(moments: &'a [u64]) -> Ticks<'a> {
        Ticks {
            moments,
            readings: 0,
        }
    }
}

impl HostClock for Ticks<'_> {
    fn now(&mut self) -> Option<Moment> {
        let moment = self.moments.get(self.readings as usize);
        self.readings = self.readings.wrapping_add(1);
        Moment::new(*moment.or(self.moments.last())?)
    }
}

/// Takes three bytes at a time while there is room, and then takes none or fails. Every other write is interrupted.
#[derive(Drop)]
pub(super) struct FewWrites {
    pub(super) taken: Vec<u8>,
    pub(super) room: usize,
    pub(super) fails: bool,
    pub(super) flush_fails: bool,
    pub(super) interrupts: bool,
}

impl Write for FewWrites {
    fn write(&mut self, buf: &[u8]) -> io::Result<usize> {
        self.interrupts = !self.interrupts;
        if self.interrupts {
            return Err(io::Error::from(ErrorKind::Interrupted));
        }
        let count = buf.len().min(3).min(self.room);
        if count == 0 && self.fails {
            return Err(io::Error::from(ErrorKind::Other));
        }
        self.taken.extend_from_slice(&buf[..count])?;
        self.room -= count;
        Ok(count)
    }

    fn flush(&mut self) -> io::Result<()> {
        if self.flush_fails {
            return Err(io::Error::from(ErrorKind::Other));
        }
        Ok(())
    }
}
