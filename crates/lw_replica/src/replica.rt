//! A replica.

ghost use Rattle.std.specs.Prelude.{◌≡◌, ◌↔◌, IfErr, IfOk, IfSome, IsNone, IsTrue, OnOk, Err, true, false, option_map};
ghost use Rattle.lw_node.specs.Exchange.{known_by};
ghost use Rattle.lw_replica.specs.Beginning.{IsBegun};
ghost use Rattle.lw_replica.specs.Clocks.{IsPast2100};
ghost use Rattle.lw_log.specs.declared.log_fault.LogFault.TheVariants.{Lost as IsLost};
ghost use Rattle.lw_replica.specs.declared.fault.ReplicaFault.TheVariants.{ClockAhead as IsAhead, Log as IsLog};
ghost use Rattle.lw_replica.specs.Compaction.{IsCompactionDue, IsCompacted, Compacts};
ghost use Rattle.lw_replica.specs.Replica.{BeginsAnew, IsCoveredBy};
ghost use Rattle.lw_replica.specs.Own.{NumbersOwn, WritesOwn};
ghost use Rattle.lw_replica.specs.Refusals.{Refuses};
ghost use Rattle.lw_replica.specs.Rounds.{IsRound};

use crate::clocks::{floor_at, is_past_2100, is_years_ahead};
use crate::compaction::compact;
use crate::looking::look;
use crate::rounds::{catch_up, round};
use crate::state::ReplicaState;
use crate::{LogSize, Randomness, ReplicaFault};
use lw_call::{Call, Reply};
use lw_log::{DeltaLog, FleetId, Start};
use lw_node::Node;
use lw_stamp::Moment;
use std::alloc::Global;
use std::marker::Model;

/// A server of a fleet: a node, and its log, which it owns.
#[derive(Drop)]
pub struct Replica<G: DeltaLog> {
    log: G,
    state: ReplicaState,
}

impl<G: DeltaLog> Model for Replica<G> {
    ghost use Rattle.std.specs.Coded.{codes};
    ghost use Rattle.lw_node.specs.Node.{node_code};
    ghost use Rattle.lw_replica.specs.Replica.{ReplicaContent};

    ghost Value = { ReplicaContent };

    ghost coded = { Prim.hlevel (codes, node_code) };

    ghost use Rattle.lw_replica.specs.Parts.{content_of, IsReplica};

    ghost view = { λ m. content_of (G.calls m.log) m.state };

    ghost invariant = { λ m. IsReplica (G.calls m.log) m.state };
}

impl<G: DeltaLog> Replica<G> {
    /// Reads the log to its end, takes the first number from that of the randomness on which no start in it has had, and is then
    /// a new node that has merged it. It writes nothing. At a moment from 2100 on, or years after what the clock of the
    /// log tells, it is refused.
    pub fn begin(
        alloc: Global,
        log: G,
        randomness: &Randomness,
        moment: Moment,
    ) -> Result<Replica<G>, ReplicaFault>
        ensures begun { IfOk result (IsBegun (G.calls log) moment randomness.now.tag randomness.now.number) }
        ensures past { IsPast2100 moment → result ≡ Err IsAhead }
        // Only over a log of its own does it go on behind what it has written.
        ensures alone { IfOk result (λ replica. replica.alone ≡ true → G.alone ≡ true) }
    {
        if is_past_2100(moment) {
            return Err(ReplicaFault::ClockAhead);
        }
        let mut log = log;
        let found = look(alloc, &mut log)?;
        let Some(number) = found.used_numbers.free_from(randomness.number) else {
            return Err(ReplicaFault::NumbersEnded);
        };
        let start = Start {
            number,
            tag: randomness.tag,
        };
        let mut state = ReplicaState::new(
            alloc,
            start,
            randomness.fleet,
            log.is_alone(),
            floor_at(moment),
            found.sequence(),
        )?;
        if catch_up(&mut log, &mut state)? {
            return Err(ReplicaFault::NumberTaken);
        }
        if is_years_ahead(moment, state.node.clock()) {
            return Err(ReplicaFault::ClockAhead);
        }
        Ok(Replica { log, state })
    }

    /// One round: reads the log to its end, makes the calls, writes what has changed, and gives the replies. Where it fails
    /// nothing is given, and what was done is written by the next round that succeeds.
    pub fn round(&mut self, calls: &[Call]) -> Result<Vec<Reply>, ReplicaFault>
        ensures round { IfOk result (λ replies. IsRound self.old calls.now replies.items self.new) }
        // Also where it fails.
        ensures own { WritesOwn self.old self.new }
        ensures sequence { NumbersOwn self.old self.new }
        // What the log has lost is read and written again.
        ensures lost { IfErr result (λ fault. fault ≡ IsLog IsLost → BeginsAnew self.new) }
        ensures refused { IfErr result (Refuses self.old self.new) }
    {
        round(&mut self.log, &mut self.state, calls)
    }

    /// Whether the log is to be compacted: the number is claimed, and what stands behind the last snapshot has more than
    /// 16 MiB, and more than four times its bytes.
    pub fn wants_compaction(&self) -> bool
        ensures { IsTrue result ↔ IsCompactionDue self.now }
    {
        self.state.claimed && self.state.size.is_large()
    }

    /// Reads the log to its end, appends all that the node knows, and then has go what was read.
    pub fn compact(&mut self) -> Result<(), ReplicaFault>
        ensures compacted { OnOk result (IsCompacted self.old self.new) }
        ensures refused { IfErr result (Refuses self.old self.new) }
        // Also where it fails.
        ensures own { Compacts self.old self.new }
        ensures sequence { NumbersOwn self.old self.new }
    {
        compact(&mut self.log, &mut self.state)
    }

    /// The node, where the log covers all that it knows. Else there is something that may not be told.
    pub fn node(&self) -> Option<&Node>
        ensures some { IfSome result (λ node. (node.now ≡ self.now.node)
            × IsCoveredBy self.now.calls (known_by node.now)) }
        ensures none { IsNone result ↔ (self.now.durable ≡ false) }
    {
        if self.state.durable {
            Some(&self.state.node)
        } else {
            None
        }
    }

    /// The number of its node, and the tag of this start.
    pub fn start(&self) -> Start
        ensures number { result.number ≡ self.now.node.number }
        ensures tag { result.tag ≡ self.now.tag }
    {
        self.state.start
    }

    /// The fleet, which is none while the log is empty.
    pub fn fleet(&self) -> Option<FleetId>
        ensures { option_map (λ fleet. fleet.bytes) result ≡ self.now.fleet }
    {
        self.state.fleet
    }

    /// Its log.
    pub fn log(&self) -> &G
        ensures { G.calls result.now ≡ self.now.calls }
    {
        &self.log
    }

    /// How many bytes its log has, as far as it was read and written.
    pub fn log_size(&self) -> LogSize
        ensures snapshot { result.snapshot ≡ self.now.snapshot }
        ensures behind { result.behind ≡ self.now.behind }
    {
        self.state.size
    }

    /// Whether the log has told that the number is its own.
    pub fn is_claimed(&self) -> bool
        ensures { result ≡ self.now.claimed }
    {
        self.state.claimed
    }
}
