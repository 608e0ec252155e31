//! How a run goes on: turns, what they failed by, and what ends them.

ghost use Rattle.std.specs.Prelude.{◌≤◌, length, IfOk};
ghost use Rattle.lw_server.specs.Transport.{IsWithin};

use crate::counter::nears_end;
use crate::hearing::is_report;
use crate::receiving::{pass_over, pass_over_old, receive};
use crate::reply_lines::LineRate;
use crate::upkeep::{Upkeep, wait_of};
use crate::{
    Clocks, Compaction, Incoming, Measured, Offset, Passage, Progress, ReplicaFault, RunFault,
    Server, Transport, TurnFault,
};
use log::{Log, debug, error, info, warn};
use lw_log::DeltaLog;
use lw_reg::Addr;
use lw_stamp::Moment;
use lw_udp::{Datagram, WireFault, socket_address_of};
use std::time::Duration;

/// How many faults of the transport, or turns without memory, in a row end a run.
const FAULTS_IN_A_ROW: u32 = 1_000;

/// How many steps with devices are made in a turn.
const STEPS_A_TURN: u32 = 4_096;

/// How many milliseconds may pass from one turn to the next before what has come meanwhile is old.
const STILL: u64 = 3_000;

/// How many milliseconds a second has.
const MILLISECONDS: u64 = 1_000;

/// How many seconds a minute has.
const SECONDS: u64 = 60;

/// How many milliseconds the clocks of a host and of its fleet may differ beside the skew: for as long a fleet's clock
/// may take to tell the moment.
const LAG: u64 = 1_000;

/// How many microseconds a millisecond has.
const MICROSECONDS: u64 = 1_000;

/// A server, and how its last turns went.
#[derive(Drop)]
pub(crate) struct EventLoop<G: DeltaLog + Measured, C: Clocks> {
    server: Server<G, C>,
    /// How many times in a row the transport failed.
    faults: u32,
    /// How many turns in a row found no memory.
    turns_without_memory: u32,
    upkeep: Upkeep,
    /// Whether it was told that the counter nears its end.
    told_of_end: bool,
    /// The moment of the last turn, by the clock that never goes back.
    last: Moment,
    refusals: LineRate,
    fault_lines: LineRate,
    send_lines: LineRate,
    receive_lines: LineRate,
    clock_lines: LineRate,
}

impl<G: DeltaLog + Measured, C: Clocks> EventLoop<G, C> {
    pub(crate) fn new(server: Server<G, C>, compaction: Compaction) -> EventLoop<G, C> {
        let last = server.steady();
        let mut event_loop = EventLoop {
            server,
            upkeep: Upkeep::new(compaction),
            faults: 0,
            turns_without_memory: 0,
            told_of_end: false,
            last,
            refusals: LineRate::new(),
            fault_lines: LineRate::of(1),
            send_lines: LineRate::new(),
            receive_lines: LineRate::new(),
            clock_lines: LineRate::of(1),
        };
        event_loop.note_log();
        event_loop
    }

    /// Has HTTP clients ask the server until something comes.
    pub(crate) fn poll<T: Transport>(
        self,
        transport: &mut T,
        buffer: &mut [u8],
        wait: Duration,
    ) -> (EventLoop<G, C>, Result<Incoming, WireFault>)
        ensures { IfOk result.1 (IsWithin (length buffer.new)) }
    {
        let EventLoop {
            server,
            faults,
            turns_without_memory,
            upkeep,
            told_of_end,
            last,
            refusals,
            fault_lines,
            send_lines,
            receive_lines,
            clock_lines,
        } = self;
        let (server, incoming) = transport.poll(server, buffer, wait);
        let mut event_loop = EventLoop {
            server,
            faults,
            turns_without_memory,
            upkeep,
            told_of_end,
            last,
            refusals,
            fault_lines,
            send_lines,
            receive_lines,
            clock_lines,
        };
        event_loop.server.io_counters.responses = transport.responses();
        event_loop.server.io_counters.drops = transport.drops();
        (event_loop, incoming)
    }

    /// Notes how the last command went.
    pub(crate) fn note_command<L: Log>(&mut self, log: &L) -> Result<(), RunFault> {
        match self.server.take_fault() {
            Some(fault) => self.end_turn(log, Err(fault)),
            None => Ok(()),
        }
    }

    /// A turn with the datagram that came, and with those that are there behind it. Where the log is unavailable they
    /// are passed over.
    pub(crate) fn take<T: Transport, L: Log>(
        &mut self,
        transport: &mut T,
        log: &L,
        buffer: &mut [u8],
        count: usize,
        from: Addr,
    ) -> Result<(), RunFault>
        requires { count ≤ length buffer.old }
    {
        if self.server.log_unavailable {
            let passed = pass_over(transport, buffer);
            self.drop_datagrams(passed);
            return self.tick(transport, log, buffer);
        }
        self.faults = 0;
        let made = self.try_take(transport, log, buffer, count, from);
        self.end_turn(log, made)
    }

    fn try_take<T: Transport, L: Log>(
        &mut self,
        transport: &mut T,
        log: &L,
        buffer: &mut [u8],
        count: usize,
        from: Addr,
    ) -> Result<(), TurnFault>
        requires { count ≤ length buffer.old }
    {
        self.server.read_clock()?;
        if let Some(still) = self.stood_still() {
            self.drop_datagrams(1);
            return self.wake(transport, log, buffer, still);
        }
        let batch = receive(self.server.allocator(), transport, buffer, count, from)?;
        let batch = self.hear(transport, log, batch)?;
        // Also where nothing is left for the store: what has expired ends.
        for (to, bytes) in self.sends_of(batch)? {
            self.send(transport, log, to, bytes);
        }
        self.serve_devices(transport, log)
    }

    /// Hears the datagrams before the store does: those that go on to it.
    fn hear<T: Transport, L: Log>(
        &mut self,
        transport: &mut T,
        log: &L,
        batch: Vec<Datagram>,
    ) -> Result<Vec<Datagram>, TurnFault> {
        let alloc = self.server.allocator();
        let mut passed = Vec::with_capacity(alloc, batch.len())?;
        for datagram in batch {
            match self.server.hear(&datagram)? {
                Passage::Through if is_report(&datagram.bytes) => {
                    self.report(transport, log, datagram.from, &datagram.bytes)?;
                }
                Passage::Through => passed.push(datagram)?,
                Passage::Whole(message) => self.report(transport, log, datagram.from, &message)?,
                Passage::Held(Some(reply)) => self.send(transport, log, datagram.from, reply),
                Passage::Held(None) => {}
            }
        }
        Ok(passed)
    }

    /// Takes what a device reports, and answers it, if it is owed an answer.
    fn report<T: Transport, L: Log>(
        &mut self,
        transport: &mut T,
        log: &L,
        from: Addr,
        bytes: &[u8],
    ) -> Result<(), TurnFault> {
        if let Some(reply) = self.server.report(from, bytes)? {
            self.send(transport, log, from, reply);
        }
        Ok(())
    }

    /// Does what is left to do with devices, once what is due of requests is done.
    fn serve_devices<T: Transport, L: Log>(
        &mut self,
        transport: &mut T,
        log: &L,
    ) -> Result<(), TurnFault> {
        self.serve_requests(transport, log)?;
        for _step in 0..STEPS_A_TURN {
            match self.server.next_step()? {
                Progress::Idle => return Ok(()),
                Progress::Moved => {}
                Progress::Sends(to, bytes) => self.send_request(transport, log, to, &bytes),
            }
        }
        Ok(())
    }

    /// Sends the requests that are due, and gives up those whose time is over. So the observations of these end together.
    fn serve_requests<T: Transport, L: Log>(
        &mut self,
        transport: &mut T,
        log: &L,
    ) -> Result<(), TurnFault> {
        for _step in 0..STEPS_A_TURN {
            match self.server.step_requests()? {
                Progress::Idle => return Ok(()),
                Progress::Moved => {}
                Progress::Sends(to, bytes) => self.send_request(transport, log, to, &bytes),
            }
        }
        Ok(())
    }

    /// What a turn with the datagrams sends. Where the log is unavailable they are passed over.
    fn sends_of(&mut self, batch: Vec<Datagram>) -> Result<Vec<(Addr, Vec<u8>)>, TurnFault> {
        let count = batch.len() as u64;
        match self.server.take(batch) {
            Err(fault @ (TurnFault::Unavailable | TurnFault::Lost | TurnFault::Replica(_))) => {
                self.drop_datagrams(count);
                Err(fault)
            }
            taken => taken,
        }
    }

    fn drop_datagrams(&mut self, count: u64) {
        let io_counters = &mut self.server.io_counters;
        io_counters.dropped = io_counters.dropped.saturating_add(count);
    }

    /// Sends a reply.
    fn send<T: Transport, L: Log>(&mut self, transport: &mut T, log: &L, to: Addr, bytes: Vec<u8>) {
        let second = self.second();
        self.refusals.log_reply(log, second, to, &bytes);
        self.put_out(transport, log, to, &bytes);
    }

    /// Sends a request to a device.
    fn send_request<T: Transport, L: Log>(
        &mut self,
        transport: &mut T,
        log: &L,
        to: Addr,
        bytes: &[u8],
    ) {
        let address = socket_address_of(&to);
        debug!(log; "request to={address}");
        self.put_out(transport, log, to, bytes);
    }

    /// Sends a datagram. A fault is passed over.
    fn put_out<T: Transport, L: Log>(
        &mut self,
        transport: &mut T,
        log: &L,
        to: Addr,
        bytes: &[u8],
    ) {
        if transport.send(to, bytes).is_err() {
            let io_counters = &mut self.server.io_counters;
            io_counters.send_faults = io_counters.send_faults.saturating_add(1);
            let second = self.second();
            if self.send_lines.allows(second) {
                let address = socket_address_of(&to);
                warn!(log; "send passed over to={address}");
            }
        }
    }

    /// The second that it is, by the clock that never goes back.
    fn second(&self) -> u64 {
        self.server.steady().ms() / MILLISECONDS
    }

    /// A turn without datagrams.
    pub(crate) fn tick<T: Transport, L: Log>(
        &mut self,
        transport: &mut T,
        log: &L,
        buffer: &mut [u8],
    ) -> Result<(), RunFault> {
        self.faults = 0;
        let made = self.try_tick(transport, log, buffer);
        self.end_turn(log, made)
    }

    fn try_tick<T: Transport, L: Log>(
        &mut self,
        transport: &mut T,
        log: &L,
        buffer: &mut [u8],
    ) -> Result<(), TurnFault> {
        self.server.read_clock()?;
        match self.stood_still() {
            Some(still) => self.wake(transport, log, buffer, still),
            None => self.go_round(transport, log),
        }
    }

    /// For how many milliseconds the server has stood still before this turn, where others share its log and that is
    /// long: it was stopped, or a turn took so long.
    fn stood_still(&self) -> Option<u64> {
        let passed = self.server.steady().ms().saturating_sub(self.last.ms());
        (passed > STILL && !self.is_alone()).then_some(passed)
    }

    /// A turn of a server that has stood still. What devices sent meanwhile is old: they may have gone to another server,
    /// and what that has told them holds. So it is passed over.
    fn wake<T: Transport, L: Log>(
        &mut self,
        transport: &mut T,
        log: &L,
        buffer: &mut [u8],
        still: u64,
    ) -> Result<(), TurnFault> {
        let passed = pass_over_old(transport, buffer);
        self.drop_datagrams(passed);
        if !self.server.log_unavailable {
            warn!(log; "stood still for={still}ms");
        }
        self.go_round(transport, log)
    }

    /// What a turn without datagrams does, at the moment that the clocks told last.
    fn go_round<T: Transport, L: Log>(
        &mut self,
        transport: &mut T,
        log: &L,
    ) -> Result<(), TurnFault> {
        self.server.tick()?;
        if self.server.log_unavailable {
            // It is told first that the log is back.
            return Ok(());
        }
        self.serve_devices(transport, log)
    }

    /// A turn was made, or failed: whether the run goes on.
    fn end_turn<L: Log>(&mut self, log: &L, made: Result<(), TurnFault>) -> Result<(), RunFault> {
        self.note_time();
        self.note_clock(log);
        let ended = match made {
            Ok(()) => self.on_success(log),
            Err(fault) => self.on_fault(log, fault),
        };
        self.note_log();
        self.tell_of_end(log);
        ended
    }

    /// Tells once that the counter nears its end.
    fn tell_of_end<L: Log>(&mut self, log: &L) {
        if self.told_of_end {
            return;
        }
        let Some(node) = self.server.node() else {
            return;
        };
        let counter = node.clock();
        if nears_end(counter) {
            warn!(log; "counter near its end counter={counter}");
            self.told_of_end = true;
        }
    }

    /// Counts the time since the turn before, if the log has been unavailable since then.
    fn note_time(&mut self) {
        let now = self.server.steady();
        if self.server.log_unavailable {
            let milliseconds = now.ms().saturating_sub(self.last.ms());
            let io_counters = &mut self.server.io_counters;
            io_counters.log_unavailable = io_counters
                .log_unavailable
                .saturating_add(milliseconds.saturating_mul(MICROSECONDS));
        }
        self.last = now;
    }

    /// Notes how the host's clock stands to that of the fleet. Where they differ by more than the clocks of a fleet
    /// may, that is told once a minute at most.
    fn note_clock<L: Log>(&mut self, log: &L) {
        let offset = self.server.clock.offset();
        let milliseconds = offset.milliseconds();
        self.server.io_counters.clock_offset = milliseconds.saturating_mul(MICROSECONDS);
        let most = u64::from(self.server.skew).saturating_mul(MILLISECONDS);
        if milliseconds <= most.saturating_add(LAG) {
            return;
        }
        let minute = self.second() / SECONDS;
        if self.clock_lines.allows(minute) {
            match offset {
                Offset::Ahead(by) => warn!(log; "clock ahead by={by}ms"),
                Offset::Behind(by) => warn!(log; "clock behind by={by}ms"),
            }
        }
    }

    /// Notes what the log was asked.
    fn note_log(&mut self) {
        self.server.io_counters.log = self.server.replica.log().log_counters();
    }

    /// The transport failed.
    pub(crate) fn fail<L: Log>(&mut self, log: &L) -> Result<(), RunFault> {
        let io_counters = &mut self.server.io_counters;
        io_counters.receive_faults = io_counters.receive_faults.saturating_add(1);
        self.faults = self.faults.saturating_add(1);
        if self.faults >= FAULTS_IN_A_ROW {
            return Err(RunFault::ReceiveFailed);
        }
        let second = self.second();
        if self.receive_lines.allows(second) {
            warn!(log; "receive passed over");
        }
        Ok(())
    }

    /// A turn was made.
    fn on_success<L: Log>(&mut self, log: &L) -> Result<(), RunFault> {
        self.turns_without_memory = 0;
        if self.server.log_unavailable {
            self.server.log_unavailable = false;
            info!(log; "log back");
        }
        self.compact_if_due(log)
    }

    /// Whether nobody else writes into the log.
    fn is_alone(&self) -> bool {
        self.server.replica.log().is_alone()
    }

    fn is_compaction_due(&self) -> bool {
        self.upkeep.is_ready() && (self.is_to_be_mended() || self.has_waited())
    }

    /// Whether much has stood in the log for as long as this server leaves it to others to compact it.
    fn has_waited(&self) -> bool {
        let replica = &self.server.replica;
        let wait = if self.is_alone() {
            0
        } else {
            wait_of(replica.start().number, replica.log_size().snapshot)
        };
        self.upkeep.is_large_for(self.server.steady(), wait)
    }

    /// Whether the log has lost entries that this server can write anew.
    fn is_to_be_mended(&self) -> bool {
        self.upkeep.has_lost && self.server.replica.is_claimed()
    }

    /// Compacts the log where that is due. Where it fails for now, it is put off by some turns.
    fn compact_if_due<L: Log>(&mut self, log: &L) -> Result<(), RunFault> {
        let is_large = self.server.wants_compaction();
        self.upkeep.note_turn(is_large, self.server.steady());
        if !self.is_compaction_due() {
            return Ok(());
        }
        match self.server.compact() {
            Ok(()) => self.compacted(log),
            Err(TurnFault::Unavailable | TurnFault::NoMemory) => self.put_off(log),
            Err(TurnFault::Replica(fault)) if self.survives(fault) => {
                self.note_refusal(log, fault, false);
                self.put_off(log);
            }
            Err(fault) => return self.on_fault(log, fault),
        }
        Ok(())
    }

    fn compacted<L: Log>(&mut self, log: &L) {
        let io_counters = &mut self.server.io_counters;
        io_counters.compactions = io_counters.compactions.saturating_add(1);
        self.upkeep.compacted();
        info!(log; "compacted");
    }

    fn put_off<L: Log>(&mut self, log: &L) {
        warn!(log; "compaction put off");
        self.upkeep.put_off();
    }

    /// The log is unavailable from now on, until a turn is made.
    fn set_log_unavailable<L: Log>(&mut self, log: &L) {
        if !self.server.log_unavailable {
            self.server.log_unavailable = true;
            warn!(log; "log away");
        }
    }

    /// A turn failed: whether the run goes on.
    fn on_fault<L: Log>(&mut self, log: &L, fault: TurnFault) -> Result<(), RunFault> {
        match fault {
            TurnFault::Unavailable => self.set_log_unavailable(log),
            TurnFault::Lost => {
                self.upkeep.lose();
                warn!(log; "log lost");
                self.set_log_unavailable(log);
            }
            TurnFault::NoMemory => return self.on_no_memory(log),
            TurnFault::ClockRefused => return Err(RunFault::ClockRefused),
            TurnFault::Replica(fault) => return self.on_refusal(log, fault),
        }
        Ok(())
    }

    /// A turn found no memory: whether the run goes on.
    fn on_no_memory<L: Log>(&mut self, log: &L) -> Result<(), RunFault> {
        if self.turns_without_memory == 0 {
            warn!(log; "no memory for a round");
        }
        self.server.pass_over();
        self.turns_without_memory = self.turns_without_memory.saturating_add(1);
        if self.turns_without_memory >= FAULTS_IN_A_ROW {
            return Err(RunFault::NoMemory);
        }
        Ok(())
    }

    /// Whether the run goes on after the fault. What others do to a log that they share may pass, and each server that
    /// goes on keeps all that it knows: it can write that anew. One that found its number taken knows only what it read.
    fn survives(&self, fault: ReplicaFault) -> bool {
        !self.is_alone() && fault != ReplicaFault::NumberTaken
    }

    /// The log refused a turn, or has what this server does not read: whether the run goes on.
    fn on_refusal<L: Log>(&mut self, log: &L, fault: ReplicaFault) -> Result<(), RunFault> {
        if !self.survives(fault) {
            return Err(RunFault::from(fault));
        }
        let begins = !self.server.log_unavailable;
        self.note_refusal(log, fault, begins);
        self.set_log_unavailable(log);
        Ok(())
    }

    /// Counts that the log refused, and tells of it once a minute at most, or where that begins.
    fn note_refusal<L: Log>(&mut self, log: &L, fault: ReplicaFault, begins: bool) {
        let io_counters = &mut self.server.io_counters;
        io_counters.refusals = io_counters.refusals.saturating_add(1);
        let minute = self.second() / SECONDS;
        if self.fault_lines.allows(minute) || begins {
            error!(log; "log refused fault={fault}");
        }
    }
}
