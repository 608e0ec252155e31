//! Runs of a server over a transport in memory, by a clock in memory.

mod api;
mod blocks;
mod clocks;
mod compacting;
mod measured;
mod observing;
mod refused;
mod replies;
mod run;
mod runs;
mod shared_log;
mod stage;
mod timed_log;
mod transport;
mod turns;
mod twice;

use lw_log::{DeltaLog, FleetId, LogFault, MemoryCall, MemoryLog, Position};
use lw_replica::{Randomness, Replica};
use lw_server::*;
use run::{Piece, Run, plays};
use shared_log::Trouble;
use stage::{STAGE, Stage};
use std::alloc::Global;
use timed_log::Readings;
use transport::{Coming, MemoryTransport, Question, Ticks};
use turns::{TURN, Turn, takes};

/// An empty message, message ID 7, and its reply.
const PING: &str = "40000007";

const PONG: &str = "70000007";

/// A Register of `a` with the object list `</>`, message ID 4, and the reply to it at a new node 1.
const REGISTER: &str = "40020004b272644465703d61ff3c2f3e";

const CREATED: &str = "604100048272640d0330303030303030303030303130303031";

/// The same for a second.
const REGISTER_FOR_A_SECOND: &str = "40020004b272644465703d61046c743d31ff3c2f3e";

/// An Update of it, message ID 16; its reply, and the one where no such registration is shown.
const UPDATE: &str = "40020010b272640d0330303030303030303030303130303031";

const CHANGED: &str = "60440010";

const NOT_FOUND: &str = "60840010";
