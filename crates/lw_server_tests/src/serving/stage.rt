//! What a run is made of, and what came of it as a text.

use super::shared_log::{SharedLog, asked_of, log_of, put_letters};
use super::*;
use log::sink::Memory;
use log::{Level, Logged};
use lw_replica::ReplicaFault;
use std::alloc::AllocError;
use std::cell::{Cell, RefCell};
use std::process::Abort;
use std::time::Duration;

/// What comes, the moments in milliseconds, by how many seconds clocks may differ, how the host's stands to the
/// fleet's, how many bytes another start has left in the log, whether nobody else writes into it, what ails its readings
/// and what does then, after how many appends one fails, whether each send fails, whether the log is compacted, and the
/// page that is told.
#[derive(Drop)]
pub(super) struct Stage {
    pub(super) comings: &'static [Coming],
    pub(super) moments: &'static [u64],
    pub(super) skew: u32,
    pub(super) offset: Offset,
    pub(super) kept: usize,
    pub(super) alone: bool,
    pub(super) trouble: Option<Trouble>,
    pub(super) next_trouble: Option<Trouble>,
    pub(super) appends: Option<u64>,
    pub(super) send_fails: bool,
    pub(super) compaction: Compaction,
    pub(super) page: Option<&'static str>,
}

/// Nothing comes, at moment 0, by a host's clock that is right, with a log that is empty, that nothing ails, and that
/// others write into.
pub(super) const STAGE: Stage = Stage {
    comings: &[],
    moments: &[0],
    skew: 0,
    offset: Offset::NONE,
    kept: 0,
    alone: false,
    trouble: None,
    next_trouble: None,
    appends: None,
    send_fails: false,
    compaction: Compaction::WhereDue,
    page: None,
};

/// The server of a run.
type Played<'a> = Server<TimedLog<SharedLog<'a>, Readings>, Ticks>;

impl Stage {
    /// Serves what comes with a new replica: how the run ended, what was asked of the log after the replica had begun,
    /// a letter each, and what was sent, a line each. Then what was logged, from level info on.
    pub(super) fn play(&self, rt: &impl Abort, alloc: Global) -> Result<String, ReplicaFault> {
        let mut log = log_of(rt, alloc, self.kept);
        if let Some(appends) = self.appends {
            log.fail_after(appends, false);
        }
        self.play_over(alloc, &RefCell::new(log))
    }

    fn play_over(&self, alloc: Global, log: &RefCell<MemoryLog>) -> Result<String, ReplicaFault> {
        let troubles = Cell::new((None, None));
        let shared = SharedLog {
            log,
            troubles: &troubles,
            alone: self.alone,
        };
        let server = self.server(alloc, shared)?;
        troubles.set((self.trouble, self.next_trouble));
        self.run(alloc, server, log)
    }

    /// The server of a new replica over the log, of which each append takes no time.
    fn server<'b>(&self, alloc: Global, shared: SharedLog<'b>) -> Result<Played<'b>, ReplicaFault> {
        let page = page_of(alloc, self.page)?;
        let log = TimedLog::new(shared, Readings::new(&[Some(0)]));
        let replica = Replica::begin(alloc, log, &CHANCE, Moment::START)?;
        let clock = Ticks::new(self.moments, self.offset);
        Ok(Server::new(alloc, replica, clock, self.skew, Moment::START, page))
    }

    /// Serves what comes, over the log of the server.
    fn run(
        &self,
        alloc: Global,
        server: Played<'_>,
        log: &RefCell<MemoryLog>,
    ) -> Result<String, ReplicaFault> {
        let begun = asked_of(log);
        let mut transport = MemoryTransport::new(alloc, self);
        let logged = Logged::new((), Level::Info, Memory::new(alloc));
        let wait = Duration::from_secs(1);
        let ended = run_on(&mut transport, server, &logged, wait, self.compaction);
        let lines = logged.into_parts().1.into_lines().into_vec();
        let mut text = String::new(alloc);
        put_end(&mut text, ended, log, begun)?;
        put_lines(&mut text, transport.into_sent().as_str(), &lines)?;
        Ok(text)
    }
}

/// Adds how a run ended, and what was asked of its log behind so many calls.
fn put_end(
    text: &mut String,
    ended: Result<(), RunFault>,
    log: &RefCell<MemoryLog>,
    begun: usize,
) -> Result<(), ReplicaFault> {
    write!(text, "{ended:?} ")?;
    put_letters(text, log, begun)?;
    text.push('\n')?;
    Ok(())
}

/// Adds what was sent and logged.
fn put_lines(text: &mut String, sent: &str, logged: &[String]) -> Result<(), AllocError> {
    text.push_str(sent)?;
    for line in logged {
        writeln!(text, "{line}")?;
    }
    Ok(())
}

fn page_of(alloc: Global, page: Option<&str>) -> Result<Option<String>, AllocError> {
    match page {
        Some(page) => Ok(Some(String::from_str(alloc, page)?)),
        None => Ok(None),
    }
}

/// What a start draws: number 1 is free.
pub(super) const CHANCE: Randomness = Randomness {
    fleet: FleetId { bytes: [7; 16] },
    tag: 9,
    number: 1,
};
