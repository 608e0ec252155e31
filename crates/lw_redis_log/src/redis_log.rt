//! A log over a stream.

ghost use Rattle.std.specs.Prelude.{◌≢◌, IfErr};

use crate::commands::{ReadFrom, append_command, read_command, trim_command};
use crate::connection::Line;
use crate::connects::{Connects, Notice};
use crate::errors::shown;
use crate::fleets::{Fleet, Owner, fleet_of_delta};
use crate::login::Login;
use crate::notice_rate::{NoticeRate, Refusals};
use crate::outcomes::RedisFault;
use crate::pages::{id_of, position_of};
use crate::replies::{appended, page_read, trimmed};
use crate::seen::Seen;
use crate::settings::Settings;
use crate::timing::Timing;
use crate::trims::Trims;
use lw_log::{Bytes, DeltaLog, EntryFault, LogFault, PAGE, Position};
use lw_resp::StreamId;
use lw_stamp::NoMemory;
use std::alloc::Global;

/// Keeps entries in one stream of a Redis, which other processes append to and trim at any time.
///
/// A connection that fails is made again after a pause, and each call answers `Unavailable` until then.
///
/// A reading above the entry that was read last asks for that entry as well. Where the stream does not begin with it,
/// or lacks what this log has appended, it has lost something: the call answers `Lost`, and nothing is remembered of
/// it. So does an append whose identifier is not above all that was seen, or that finds no stream.
///
/// Entries that are to go stay for `TRIM_DELAY`, so that another server finds the entry that it has read last. They go
/// with a reading after that which has found that entry; a server that ends before leaves them.
///
/// The server is asked what time it is at each new connection, and then with a reading every `TIME_BETWEEN`.
///
/// The first delta that is read or appended tells the fleet. A delta of another fleet is given without its bytes, as
/// what is no entry. Where a stream begins with one, it is another fleet's, and reading it answers `Refused`.
#[derive(Drop)]
pub struct RedisLog<C: Connects> {
    pub(crate) alloc: Global,
    pub(crate) line: Line<C>,
    pub(crate) login: Option<Login>,
    pub(crate) key: Vec<u8>,
    /// What was told of a server.
    pub(crate) warned: Settings,
    /// Whether nothing was read yet over the connection.
    pub(crate) is_new: bool,
    seen: Seen,
    trims: Trims,
    fleet: Fleet,
    /// Whether the stream was told to be another fleet's.
    is_foreign: bool,
    rate: NoticeRate,
    refusals: Refusals,
    pub(crate) timing: Timing,
    /// Whether the next append makes the stream.
    makes: bool,
}

impl<C: Connects> RedisLog<C> {
    /// A log over the stream of the key. Nothing is asked before its first call.
    pub fn new(
        alloc: Global,
        world: C,
        login: Option<Login>,
        key: &[u8],
    ) -> Result<RedisLog<C>, NoMemory> {
        Ok(RedisLog {
            alloc,
            line: Line::new(alloc, world),
            login,
            key: key.to_vec(alloc)?,
            warned: Settings {
                keeps_nothing: false,
                is_replica: false,
                evicts: false,
            },
            is_new: false,
            seen: Seen::new(),
            trims: Trims::new(),
            fleet: Fleet::new(),
            is_foreign: false,
            rate: NoticeRate::new(),
            refusals: Refusals::new(),
            timing: Timing::new(),
            makes: false,
        })
    }

    /// What the log answers where the server did not do it.
    pub(crate) fn fail(&mut self, fault: RedisFault<'_>) -> LogFault
        ensures asked { result ≢ LogFault.NoMemory }
    {
        match fault {
            RedisFault::Unavailable => {
                self.line.close();
                LogFault::Unavailable
            }
            RedisFault::Refused(text) => {
                if self.refusals.tells(text, self.line.world.milliseconds()) {
                    self.line.world.hear(Notice::Refused(shown(text)));
                }
                LogFault::Refused
            }
            RedisFault::Lost => self.lose(),
        }
    }

    /// The stream has lost something. What is there now may be another one.
    fn lose(&mut self) -> LogFault
        ensures asked { result ≢ LogFault.NoMemory }
    {
        self.seen = Seen::new();
        self.trims = Trims::new();
        self.line.world.hear(Notice::Lost);
        LogFault::Lost
    }

    fn ask_read(
        &mut self,
        command: &[u8],
        from: ReadFrom,
    ) -> Result<Vec<(Position, Bytes)>, LogFault>
        ensures asked { IfErr result (λ fault. fault ≢ LogFault.NoMemory) }
    {
        self.make_ready()?;
        let bytes = self.ask(command)?;
        let page = match page_read(self.alloc, &bytes) {
            Ok(page) => page,
            Err(fault) => return Err(self.fail(fault)),
        };
        self.line.settle();
        let Some(mut page) = self.seen.take(from, page) else {
            return Err(self.lose());
        };
        self.end_greeting();
        self.note_page(from, &page);
        self.sift(&mut page)?;
        if let ReadFrom::At(_) = from
            && page.len() < PAGE
        {
            self.trim_what_is_due();
        }
        self.learn_time_if_due();
        Ok(page)
    }

    /// The connection works.
    fn end_greeting(&mut self) {
        if self.is_new {
            self.refusals.end();
        }
        self.is_new = false;
    }

    /// Asks what time it is, where it was not asked for a while. A failure closes the connection, so that the next call
    /// is as unavailable.
    fn learn_time_if_due(&mut self) {
        if self.line.is_open() && self.timing.is_due(self.line.world.milliseconds()) {
            let _ = self.learn_time();
        }
    }

    /// Remembers what was read.
    fn note_page(&mut self, from: ReadFrom, page: &[(Position, Bytes)]) {
        if from == ReadFrom::First {
            self.fleet.begin();
        }
        // Only a reading of the whole stream tells that there is none.
        if from == ReadFrom::First || !page.is_empty() {
            self.makes = page.is_empty();
        }
        self.seen.note_page(from, page);
    }

    /// Tells of what in the page is no entry of the fleet. Of a delta of another fleet no bytes are left.
    fn sift(&mut self, page: &mut Vec<(Position, Bytes)>) -> Result<(), LogFault>
        ensures asked { IfErr result (λ fault. fault ≢ LogFault.NoMemory) }
    {
        for (position, bytes) in page.iter_mut() {
            match fleet_of_delta(bytes) {
                Ok(None) | Err(EntryFault::Newer) => {}
                Ok(Some(fleet)) => match self.fleet.owner(fleet) {
                    Owner::Own => self.is_foreign = false,
                    Owner::Another => {
                        *bytes = Bytes::new();
                        self.tell(Notice::AnotherFleet(id_of(*position)));
                    }
                    Owner::AnotherStream => return Err(self.refuse_stream()),
                },
                Err(_) => self.tell(Notice::PassedOver(id_of(*position))),
            }
        }
        Ok(())
    }

    /// Tells of an entry that is passed over, unless many were told of in this second.
    fn tell(&mut self, notice: Notice<'_>) {
        if self.rate.tells(self.line.world.milliseconds()) {
            self.line.world.hear(notice);
        }
    }

    /// The stream is another fleet's. It is told once.
    fn refuse_stream(&mut self) -> LogFault
        ensures asked { result ≢ LogFault.NoMemory }
    {
        self.seen = Seen::new();
        self.trims = Trims::new();
        if !self.is_foreign {
            self.line.world.hear(Notice::AnotherStream);
        }
        self.is_foreign = true;
        LogFault::Refused
    }

    fn ask_append(&mut self, command: &[u8], entry: &[u8]) -> Result<Position, LogFault>
        ensures asked { IfErr result (λ fault. fault ≢ LogFault.NoMemory) }
    {
        self.make_ready()?;
        let bytes = self.ask(command)?;
        match appended(self.alloc, &bytes) {
            Ok(id) => {
                self.line.settle();
                self.refusals.end();
                self.makes = false;
                self.fleet.note_append(entry);
                if self.seen.note_append(id, entry) {
                    return Ok(position_of(id));
                }
                Err(self.lose())
            }
            Err(fault) => {
                self.makes = self.makes || fault == RedisFault::Lost;
                Err(self.fail(fault))
            }
        }
    }

    /// Has go what has waited for its time, from a stream that has just shown that it is the one that was read before.
    /// Where the server does not do it, it is asked again later.
    fn trim_what_is_due(&mut self) {
        let now = self.line.world.milliseconds();
        let Some(upto) = self.trims.due(now) else {
            return;
        };
        match self.ask_trim(upto) {
            Ok(()) => {
                self.trims.end_first();
                self.seen.note_trim(upto);
            }
            Err(_) => self.trims.put_off(now),
        }
    }

    fn ask_trim(&mut self, upto: StreamId) -> Result<(), LogFault> {
        let Ok(command) = trim_command(self.alloc, &self.key, upto) else {
            return Err(LogFault::NoMemory);
        };
        let bytes = self.ask(&command)?;
        match trimmed(self.alloc, &bytes) {
            Ok(_) => Ok(()),
            Err(fault) => Err(self.fail(fault)),
        }
    }

    /// The bytes of the reply to a command.
    pub(crate) fn ask(&mut self, command: &[u8]) -> Result<Vec<u8>, LogFault>
        ensures asked { IfErr result (λ fault. fault ≢ LogFault.NoMemory) }
    {
        match self.line.ask(command) {
            Ok(bytes) => Ok(bytes),
            Err(_) => Err(LogFault::Unavailable),
        }
    }
}

// Want of memory is told only before the server is asked. What is read or written later is as unavailable.
impl<C: Connects> DeltaLog for RedisLog<C> {
    fn read(&mut self, after: Option<Position>) -> Result<Vec<(Position, Bytes)>, LogFault> {
        let trims = self.trims.due(self.line.world.milliseconds()).is_some();
        let must_look = trims || self.is_new || !self.line.is_open();
        let from = self.seen.from(after.map(id_of), must_look);
        let Ok(command) = read_command(self.alloc, &self.key, from) else {
            return Err(LogFault::NoMemory);
        };
        self.ask_read(&command, from)
    }

    fn append(&mut self, entry: &[u8]) -> Result<Position, LogFault> {
        let Ok(command) = append_command(self.alloc, &self.key, entry, self.makes) else {
            return Err(LogFault::NoMemory);
        };
        self.ask_append(&command, entry)
    }

    /// Has the entries go with a later reading.
    fn trim(&mut self, upto: Position) -> Result<(), LogFault> {
        let now = self.line.world.milliseconds();
        self.trims.note(id_of(upto), now);
        Ok(())
    }

    fn is_alone(&self) -> bool {
        false
    }
}
