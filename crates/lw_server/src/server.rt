//! A replica that takes datagrams.

ghost use Rattle.std.specs.Prelude.{◌≡◌, ◌↔◌, [], map, option_map, string_bytes, None, Some, IfErr, IfOk, OnErr, OnOk, IsTrue};
ghost use Rattle.lw_replica.specs.Compaction.{IsCompactionDue, IsCompacted, Compacts};
ghost use Rattle.lw_replica.specs.Own.{WritesOwn};
ghost use Rattle.lw_metrics.specs.Counting.{one_more};
ghost use Rattle.lw_server.specs.Clocks.{later as later_of};
ghost use Rattle.lw_server.specs.Server.{new_server, IsAtOnce, KeepsStill, ReadsClock, Stays};
ghost use Rattle.lw_server.specs.declared.clocks.Times.{Times};
ghost use Rattle.lw_server.specs.declared.fault.TurnFault.TheVariants.{ClockRefused};
ghost use Rattle.lw_server.specs.Turns.{IsTurn, GoesOn, sent};

use crate::blocks::{any_lacks_block, sort};
use crate::calling::moment_before;
use crate::devices::Devices;
use crate::exchanges::{fresh_of, keep_exchanges, with_unkept};
use crate::notifications::Notifications;
use crate::numbering::number_replies;
use crate::round::execute_round;
use crate::sending::put_sends;
use crate::{Clocks, TurnFault};
use lw_log::DeltaLog;
use lw_messaging::{Bodies, MessageIds, Replies};
use lw_metrics::{IoCounters, Tally};
use lw_reg::Addr;
use lw_replica::Replica;
use lw_stamp::Moment;
use lw_udp::Datagram;
use std::alloc::Global;
use std::marker::Model;

/// A replica, and the clocks that it takes datagrams by.
#[derive(Drop)]
pub struct Server<G: DeltaLog, C: Clocks> {
    pub(crate) alloc: Global,
    pub(crate) replica: Replica<G>,
    pub(crate) clock: C,
    /// How many seconds the clocks of the fleet's servers may differ.
    pub(crate) skew: u32,
    pub(crate) started: Moment,
    /// The moment that the host's clock told last: lifetimes go by it.
    pub(crate) latest: Moment,
    /// The moment of a clock that never goes back: what waits for an answer, and what is kept for some time, goes by
    /// it.
    pub(crate) steady: Moment,
    pub(crate) tally: Tally,
    /// How many turns failed for want of memory.
    pub(crate) passed_over: u64,
    /// What is told at `/`, if there is a page.
    pub(crate) page: Option<String>,
    /// What is counted of input and output.
    pub(crate) io_counters: IoCounters,
    /// Whether the last turn found that the log cannot be asked.
    pub(crate) log_unavailable: bool,
    /// The last requests that were answered, with their replies.
    kept: Replies,
    /// How many datagrams were requests that came again.
    pub(crate) duplicates: u64,
    /// How many turns had no memory for all that they answered.
    unkept: u64,
    /// The bodies whose blocks have not all come.
    pub(crate) bodies: Bodies,
    /// How many datagrams were blocks that were answered without the store, or made a message whole.
    pub(crate) blocks: u64,
    /// The message IDs of its own messages.
    pub(crate) ids: MessageIds,
    /// How many replies were not sent, since no message ID was free.
    pub(crate) without_message_id: u64,
    /// What devices told.
    pub(crate) notifications: Notifications,
    /// What is under way with devices.
    pub(crate) devices: Devices,
    /// What the last command failed by, until that is noted.
    pub(crate) fault: Option<TurnFault>,
}

impl<G: DeltaLog, C: Clocks> Model for Server<G, C> {
    ghost use Rattle.std.specs.Coded.{codes};
    ghost use Rattle.std.specs.Prelude.{option_map, string_bytes};
    ghost use Rattle.lw_node.specs.Node.{node_code};
    ghost use Rattle.lw_server.specs.Server.{ServerContent};

    ghost Value = { ServerContent };

    ghost coded = { Prim.hlevel (codes, node_code) };

    ghost view = { λ s. record {
      replica = s.replica;
      skew = s.skew;
      started = s.started;
      clock = C.told s.clock;
      latest = s.latest;
      steady = s.steady;
      tally = s.tally;
      passed_over = s.passed_over;
      page = option_map string_bytes s.page;
      io_counters = s.io_counters;
      log_unavailable = s.log_unavailable;
      kept = s.kept;
      duplicates = s.duplicates;
      unkept = s.unkept;
      bodies = s.bodies;
      blocks = s.blocks;
      ids = s.ids;
      without_message_id = s.without_message_id;
      notifications = s.notifications;
      devices = s.devices;
      fault = s.fault;
    } };
}

impl<G: DeltaLog, C: Clocks> Server<G, C> {
    /// The server of a replica, which is started at the moment. The clocks of the fleet's servers may differ by so many
    /// seconds.
    pub fn new(
        alloc: Global,
        replica: Replica<G>,
        clock: C,
        skew: u32,
        now: Moment,
        page: Option<String>,
    ) -> Server<G, C>
        ensures { result ≡ new_server replica (C.told clock) skew now (option_map string_bytes page) }
    {
        Server {
            alloc,
            replica,
            clock,
            skew,
            started: now,
            latest: now,
            steady: now,
            tally: Tally::new(),
            passed_over: 0,
            page,
            io_counters: IoCounters::new(),
            log_unavailable: false,
            kept: Replies::new(alloc),
            duplicates: 0,
            unkept: 0,
            bodies: Bodies::new(alloc),
            blocks: 0,
            ids: MessageIds::new(now),
            without_message_id: 0,
            notifications: Notifications::new(alloc),
            devices: Devices::new(alloc, now),
            fault: None,
        }
    }

    /// Reads the clocks. What the server does until it reads them again it does at the moment that they tell.
    pub fn read_clock(&mut self) -> Result<(), TurnFault>
        ensures read { OnOk result ((times : Times) × ReadsClock (Some times) self.old self.new) }
        ensures refused { OnErr result (ReadsClock None self.old self.new) }
        ensures fault { IfErr result (λ fault. fault ≡ ClockRefused) }
    {
        let Some(times) = self.clock.read() else {
            return Err(TurnFault::ClockRefused);
        };
        self.latest = times.moment;
        self.steady = later(self.steady, times.steady);
        Ok(())
    }

    /// Takes datagrams at the moment that the clocks told last, and ends what has expired: the replies that are to be
    /// sent, those that are sent again before the others. Where it fails nothing is to be sent, and nothing is kept.
    ///
    /// Where it fails blocks of the batch may have been put to their bodies. What a device sends behind one that was
    /// lost so is answered by 4.08, and the device begins its body anew.
    pub fn take(&mut self, batch: Vec<Datagram>) -> Result<Vec<(Addr, Vec<u8>)>, TurnFault>
        ensures turn { IfOk result (λ sends. IsTurn self.old batch.items (map sent sends.items) self.new) }
        // Also where it fails.
        ensures own { WritesOwn self.old.replica self.new.replica }
        ensures stays { Stays self.old self.new }
        ensures uncounted { OnErr result (self.new.tally ≡ self.old.tally) }
        ensures kept { OnErr result (KeepsStill self.old self.new) }
        ensures bodies { OnErr result (GoesOn self.old batch.items self.new) }
    {
        let (now, steady) = (self.latest, self.steady);
        let count = batch.len();
        let mut sends = Vec::new(self.alloc);
        let fresh = fresh_of(self.alloc, &self.kept, steady, batch, &mut sends)?;
        let again = count.saturating_sub(fresh.len()) as u64;
        let sorted = sort(self.alloc, &mut self.bodies, now, steady, fresh)?;
        let blocks = sorted.with_blocks(self.blocks);
        let before = moment_before(now, self.skew);
        let mut handled = execute_round(
            self.alloc,
            &mut self.replica,
            &mut self.tally,
            before,
            sorted,
            &mut sends,
        )?;
        self.duplicates = self.duplicates.saturating_add(again);
        self.blocks = blocks;
        self.without_message_id = number_replies(
            &mut self.ids,
            self.without_message_id,
            steady,
            &mut handled,
        );
        let is_all_kept = keep_exchanges(self.alloc, &mut self.kept, steady, &handled);
        let lacks_block = any_lacks_block(&handled);
        self.unkept = with_unkept(self.unkept, is_all_kept, lacks_block);
        put_sends(handled, &mut sends);
        Ok(sends)
    }

    /// A turn without datagrams.
    pub fn tick(&mut self) -> Result<(), TurnFault>
        ensures turn { OnOk result (IsTurn self.old [] [] self.new) }
        ensures own { WritesOwn self.old.replica self.new.replica }
        ensures stays { Stays self.old self.new }
        ensures uncounted { OnErr result (self.new.tally ≡ self.old.tally) }
        ensures kept { OnErr result (KeepsStill self.old self.new) }
        ensures bodies { self.new.bodies ≡ self.old.bodies }
    {
        self.take(Vec::new(self.alloc))?;
        Ok(())
    }

    /// Whether the log is to be compacted.
    pub fn wants_compaction(&self) -> bool
        ensures { IsTrue result ↔ IsCompactionDue self.now.replica }
    {
        self.replica.wants_compaction()
    }

    /// Writes all that the node knows anew into the log, and then has go what was read.
    pub fn compact(&mut self) -> Result<(), TurnFault>
        ensures compacted { OnOk result (IsCompacted self.old.replica self.new.replica) }
        // Also where it fails.
        ensures own { Compacts self.old.replica self.new.replica }
        ensures stays { Stays self.old self.new }
        ensures same { (self.new.tally ≡ self.old.tally) × IsAtOnce self.old self.new }
        ensures kept { KeepsStill self.old self.new }
        ensures bodies { self.new.bodies ≡ self.old.bodies }
    {
        self.replica.compact()?;
        Ok(())
    }

    /// Counts a turn that failed for want of memory.
    pub(crate) fn pass_over(&mut self)
        ensures { self.new ≡ record (self.old) { passed_over = one_more self.old.passed_over } }
    {
        self.passed_over = self.passed_over.saturating_add(1);
    }

    /// How many datagrams were requests that came again, and were answered again.
    pub fn duplicates(&self) -> u64
        ensures { result ≡ self.now.duplicates }
    {
        self.duplicates
    }

    /// How many turns had no memory for all that they answered. What was not kept is taken again if it comes again, and
    /// the reply to a body may have gone without its block.
    pub fn unkept(&self) -> u64
        ensures { result ≡ self.now.unkept }
    {
        self.unkept
    }

    /// How many datagrams were blocks that were answered without the store, or made a message whole.
    pub fn blocks(&self) -> u64
        ensures { result ≡ self.now.blocks }
    {
        self.blocks
    }

    /// What the last command failed by, once.
    pub(crate) fn take_fault(&mut self) -> Option<TurnFault> {
        self.fault.take()
    }

    pub(crate) fn allocator(&self) -> Global {
        self.alloc
    }

    /// The moment by the clock that never goes back.
    pub(crate) fn steady(&self) -> Moment {
        self.steady
    }
}

/// The later of two moments.
fn later(a: Moment, b: Moment) -> Moment
    ensures { result ≡ later_of a b }
{
    if a.ms() < b.ms() { b } else { a }
}
