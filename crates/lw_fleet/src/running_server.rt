//! Running a server until it is killed, and the faults that end it.

ghost use Rattle.std.specs.Prelude.{◌≡◌};
ghost use Rattle.lw_fleet.specs.RunningServer.{running_line, IsRunningTold};

use crate::output::write_text;
use crate::run_options::RunOptions;
use std::io::Write;
use std::sync::Wait;
use thiserror::Error;

/// What runs a server until it is killed.
pub trait Runs {
    /// Serves devices at the address, and keeps what is registered, as the options say. It ends at a fault, or where
    /// nothing more can come.
    fn run<R: Wait>(&mut self, rt: &R, options: &RunOptions<'_>) -> Result<(), RunningFault>;
}

/// What ends `run`. Each is told as a line of its own on standard error.
#[derive(Clone, Copy, Debug, PartialEq, Eq, Error)]
pub enum RunningFault {
    /// What is kept could not be made, opened, read or written.
    #[error("data failed: the folder or its file cannot be made, opened, read or written")]
    DataFailed,
    /// Another process has what is kept.
    #[error("data in use: another process has the folder's file")]
    DataInUse,
    /// What is kept is no log of this program, or is damaged.
    #[error("data damaged: the file is no log of this program, or fails its sums")]
    DataDamaged,
    /// What is kept is in a format of a later build.
    #[error("data newer: an entry is of a format that this build does not read")]
    DataNewer,
    /// The beginning of what is kept is missing.
    #[error("data cut: what is kept does not begin with the first start, and has no whole entry")]
    DataCut,
    /// What is kept is of another fleet.
    #[error("another fleet: the log has deltas of another fleet")]
    AnotherFleet,
    /// Another start has the number that this one chose.
    #[error("number taken: another start was faster with the same number")]
    NumberTaken,
    /// No number is left for a start.
    #[error("numbers ended: all 65535 numbers had a start")]
    NumbersEnded,
    /// The stream tells of no fleet, and none is founded.
    #[error("no fleet: the stream in Redis tells of none; begin one server with --found")]
    NoFleet,
    /// The stream tells of a fleet, and one is to be founded.
    #[error("fleet exists: the stream in Redis tells of one; begin without --found")]
    FleetExists,
    /// Redis could not be reached at the start.
    #[error("redis away: no connection in the first 10 seconds")]
    RedisAway,
    /// Redis answered an error that does not pass.
    #[error("redis refused: Redis answered an error that does not pass; its text is in the log")]
    RedisRefused,
    /// The file of the login gives none.
    #[error("login refused: the file cannot be read, or is not a user and a password, on a line each")]
    LoginRefused,
    /// No socket could be bound to the address.
    #[error("bind failed: no socket could be bound to the address and the port")]
    BindFailed,
    /// The address is one of a link alone, and nothing tells of which.
    #[error("link-local refused: an address of fe80::/10 is one of each link, and --bind names none")]
    LinkLocalRefused,
    /// No socket could be bound to the address for HTTP.
    #[error("http bind failed: no socket could be bound to the address of --http")]
    HttpBindFailed,
    /// The file of the token gives none.
    #[error("token refused: the file cannot be read, or its first line is no token")]
    TokenRefused,
    /// The file of the page gives none.
    #[error("page refused: the file cannot be read, has more than 1048576 bytes, or is not UTF-8")]
    PageRefused,
    /// The socket failed again and again.
    #[error("receive failed: the socket failed 1000 times in a row")]
    ReceiveFailed,
    /// The host gave no moment.
    #[error("clock refused: the host's clock could not be read, or shows no moment")]
    ClockRefused,
    /// The host gave no random bytes.
    #[error("random failed: the system gives no random bytes")]
    RandomFailed,
    /// Memory ran out.
    #[error("no memory: there was none at the start, or for 1000 rounds in a row")]
    NoMemory,
}

impl RunningFault {
    /// Writes the line of the fault, and tells whether all of it was taken.
    pub fn tell<E: Write>(self, errors: &mut E) -> bool
        ensures { IsRunningTold self result (E.contents errors.old) (E.contents errors.new) }
    {
        write_text(errors, self.line().as_bytes()).is_ok()
    }

    /// The line, with its line feed.
    fn line(self) -> &'static str
        ensures { result.now ≡ running_line self }
    {
        match self {
            RunningFault::DataFailed => "data failed\n",
            RunningFault::DataInUse => "data in use\n",
            RunningFault::DataDamaged => "data damaged\n",
            RunningFault::DataNewer => "data newer\n",
            RunningFault::DataCut => "data cut\n",
            RunningFault::AnotherFleet => "another fleet\n",
            RunningFault::NumberTaken => "number taken\n",
            RunningFault::NumbersEnded => "numbers ended\n",
            RunningFault::NoFleet => "no fleet\n",
            RunningFault::FleetExists => "fleet exists\n",
            RunningFault::RedisAway => "redis away\n",
            RunningFault::RedisRefused => "redis refused\n",
            RunningFault::LoginRefused => "login refused\n",
            RunningFault::BindFailed => "bind failed\n",
            RunningFault::LinkLocalRefused => "link-local refused\n",
            RunningFault::HttpBindFailed => "http bind failed\n",
            RunningFault::TokenRefused => "token refused\n",
            RunningFault::PageRefused => "page refused\n",
            RunningFault::ReceiveFailed => "receive failed\n",
            RunningFault::ClockRefused => "clock refused\n",
            RunningFault::RandomFailed => "random failed\n",
            RunningFault::NoMemory => "no memory\n",
        }
    }
}
