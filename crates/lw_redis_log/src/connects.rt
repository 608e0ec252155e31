//! What a log over a Redis stands on.

use lw_resp::StreamId;
use std::io::{self, Read, Write};

/// Something that a log over a Redis tells its caller, as it happens.
#[derive(Clone, Copy, Debug, PartialEq, Eq)]
pub enum Notice<'a> {
    /// The server refused, with an error that begins so.
    Refused(&'a str),
    /// The server keeps no file of what is appended: it has nothing when it is started again.
    KeepsNothing,
    /// The server is a replica of another one: it may lack what that one has, and writes nothing.
    IsReplica,
    /// The server may have the stream go where its memory is full.
    Evicts,
    /// The stream is gone, or has lost its end.
    Lost,
    /// What stands there is no entry of a log, and is passed over.
    PassedOver(StreamId),
    /// What stands there is a delta of another fleet, and is passed over.
    AnotherFleet(StreamId),
    /// The stream begins with a delta of another fleet.
    AnotherStream,
    /// The server told what time it is, in milliseconds since 1970. Question and answer took so many milliseconds.
    Time { told: u64, took: u64 },
    /// The server does not tell what time it is.
    TellsNoTime,
}

/// Connections to a Redis, a clock that only goes on, and who is told.
pub trait Connects: Drop {
    type Connection: Read + Write + Drop;

    /// A new connection.
    fn connect(&mut self) -> io::Result<Self::Connection>;

    /// Has a read or a write of the connection fail that takes longer than so many milliseconds.
    fn limit(&mut self, connection: &Self::Connection, milliseconds: u64) -> io::Result<()>;

    /// How many milliseconds have passed since some moment, if the clock tells.
    fn milliseconds(&self) -> Option<u64>;

    /// Is told something.
    fn hear(&mut self, notice: Notice<'_>);
}
