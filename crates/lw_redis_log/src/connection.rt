//! A connection, which is made again after a pause.

use crate::connects::Connects;
use crate::patience::{SHORTEST_PAUSE, longer_pause, patience_for};
use crate::replies::has_come;
use std::alloc::Global;
use std::io::{ErrorKind, Read, Write};

/// How many bytes are read at once.
const CHUNK: usize = 16_384;

/// Whatever it was, there is no connection any more.
#[derive(Clone, Copy, Debug)]
pub(crate) struct Gone;

/// A connection, and when it is made again.
#[derive(Drop)]
pub(crate) struct Line<C: Connects> {
    alloc: Global,
    pub(crate) world: C,
    connection: Option<C::Connection>,
    /// How long the next pause is, in milliseconds.
    pause: u64,
    /// Until when no connection is made.
    until: Option<u64>,
}

impl<C: Connects> Line<C> {
    /// One that is not made yet.
    pub(crate) fn new(alloc: Global, world: C) -> Line<C> {
        Line {
            alloc,
            world,
            connection: None,
            pause: SHORTEST_PAUSE,
            until: None,
        }
    }

    pub(crate) fn is_open(&self) -> bool {
        self.connection.is_some()
    }

    /// Whether a pause lasts.
    fn is_pausing(&self) -> bool {
        match (self.until, self.world.milliseconds()) {
            (Some(until), Some(now)) => now < until,
            _ => false,
        }
    }

    /// Makes the connection, unless a pause lasts.
    pub(crate) fn open(&mut self) -> Result<(), Gone> {
        if self.is_pausing() {
            return Err(Gone);
        }
        match self.world.connect() {
            Ok(connection) => {
                self.connection = Some(connection);
                Ok(())
            }
            Err(_) => Err(self.close()),
        }
    }

    /// Lets the connection go, and begins a pause.
    pub(crate) fn close(&mut self) -> Gone {
        self.connection = None;
        self.until = match self.world.milliseconds() {
            Some(now) => Some(now.saturating_add(self.pause)),
            None => None,
        };
        self.pause = longer_pause(self.pause);
        Gone
    }

    /// The server does what it is asked: the next pause is a short one.
    pub(crate) fn settle(&mut self) {
        self.pause = SHORTEST_PAUSE;
    }

    /// The bytes of the reply to a command.
    pub(crate) fn ask(&mut self, command: &[u8]) -> Result<Vec<u8>, Gone> {
        match self.exchange(command) {
            Some(bytes) => Ok(bytes),
            None => Err(self.close()),
        }
    }

    /// Writes a command, and reads until the reply is whole. It may come slowly, as long as something comes.
    fn exchange(&mut self, command: &[u8]) -> Option<Vec<u8>> {
        let connection = self.connection.as_mut()?;
        self.world
            .limit(connection, patience_for(command.len()))
            .ok()?;
        connection.write_all(command).ok()?;
        let mut bytes = Vec::new(self.alloc);
        for _ in 0..u64::MAX {
            read_some(connection, &mut bytes)?;
            if has_come(&bytes)? {
                return Some(bytes);
            }
        }
        None
    }
}

/// Puts what is read at once behind the bytes.
fn read_some<R: Read>(connection: &mut R, bytes: &mut Vec<u8>) -> Option<()> {
    let mut chunk = [0; CHUNK];
    match connection.read(&mut chunk) {
        Ok(0) => None,
        Ok(count) => bytes.extend_from_slice(&chunk[..count]).ok(),
        Err(error) if error.kind() == ErrorKind::Interrupted => Some(()),
        Err(_) => None,
    }
}
