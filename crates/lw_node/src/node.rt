ghost use Rattle.std.specs.Prelude.{◌≡◌, ◌↔◌, ◌+◌, ◌-◌, ◌^◌, ℕ, List, IsNone, IfSome, IsOk, IsErr, IfOk, OnOk, OnErr, None, Ok, Err, Some};
ghost use Rattle.lw_stamp.specs.Moment.{ms_of};
ghost use Rattle.lw_reg.specs.Marks.{Mark, among};
ghost use Rattle.lw_reg.specs.Reading.{shown_in};
ghost use Rattle.lw_reg.specs.Registration.{Registration};
ghost use Rattle.lw_stamp.specs.declared.stamp.Stamp.{Stamp as Stamps};
ghost use Rattle.lw_reg.specs.declared.watch.Watch.{Watch as Watches};
ghost use Rattle.lw_table.specs.LookUps.{ById, ByToken, ExpiredAfter};
ghost use Rattle.lw_node.specs.Calls.{Takes, IsSilent, Observes, Cancels, Sweeps};
ghost use Rattle.lw_node.specs.inner.Done.{IsDone};
ghost use Rattle.lw_node.specs.Node.{fresh, Knows, Issued, Leaves};
ghost use Rattle.lw_node.specs.Within.{FitsClock};
ghost use Rattle.lw_node.specs.inner.Within.{IsNextOf};

use crate::command::Command;
use crate::decision::Decision;
use lw_call::{ClockEnd, ObserveFault, Outgoing, Taken};
use lw_reg::{Addr, Op, Path, atom_with_endpoint};
use lw_stamp::{Clock, Moment, NoMemory, Stamp};
use lw_table::Table;
use std::alloc::Global;
use std::marker::Model;

/// A server of the cluster: its number, its clock, and what it knows of each endpoint.
#[derive(Drop)]
pub struct Node {
    pub(crate) alloc: Global,
    pub(crate) number: u16,
    pub(crate) clock: Clock,
    pub(crate) table: Table,
}

impl Model for Node {
    ghost use Rattle.lw_stamp.specs.Clock.{counter_of};
    ghost use Rattle.lw_node.specs.Node.{NodeContent, node_code, HasEndpoints};
    ghost use Rattle.lw_node.specs.Within.{FitsClock};

    ghost Value = { NodeContent };

    ghost coded = { node_code };

    ghost view = { λ n. record { number = n.number; clock = counter_of n.clock; table = n.table } };

    ghost invariant = { λ n. HasEndpoints n.table.state × FitsClock (counter_of n.clock) n.table.state };
}

impl Node {
    /// A node that has taken nothing.
    pub fn new(alloc: Global, number: u16) -> Node
        ensures { result ≡ fresh number }
    {
        Node {
            alloc,
            number,
            clock: Clock::new(),
            table: Table::new(alloc),
        }
    }

    /// Takes a datagram that came at this moment from this address.
    ///
    /// `NoMemory` may come in place of any answer, save where bytes that are no message get no reply.
    pub fn take(&mut self, now: Moment, from: Addr, bytes: &[u8]) -> Result<Taken, NoMemory>
        ensures read { IfOk result (λ t.
            Takes self.old (shown_in self.old.table.state) (ms_of now) from bytes.now t self.new) }
        ensures marks { (ms : List Mark) → Knows self.old ms
            → IfOk result (λ t. Takes self.old (among ms) (ms_of now) from bytes.now t self.new) }
        ensures unchanged { OnErr result (self.new ≡ self.old) }
        ensures silent { IsSilent bytes.now → IsOk result }
    {
        // The clock is read for what is known of it alone.
        let _clock = self.clock;
        let Decision {
            reply,
            notice,
            operation,
        } = self.decide(now, from, bytes)?;
        self.commit(operation)?;
        Ok(Taken { reply, notice })
    }

    /// Observes a path of the registration with the identifier, in the format that is accepted, if one is. The
    /// observation takes the place of the one that the registration has on the path. The message ID is that of the
    /// datagram, which is to be sent.
    pub fn observe(
        &mut self,
        now: Moment,
        id: Stamp,
        path: Path,
        accept: Option<u16>,
        mid: u16,
    ) -> Result<Outgoing, ObserveFault>
        ensures read { Observes self.old (shown_in self.old.table.state)
            (ms_of now) id path accept mid result self.new }
        ensures marks { (ms : List Mark) → Knows self.old ms
            → Observes self.old (among ms) (ms_of now) id path accept mid result self.new }
        ensures not_found { (result ≡ Err ObserveFault.NotFound)
            ↔ ById (shown_in self.old.table.state) (ms_of now) id None }
        ensures clock_end { (result ≡ Err ObserveFault.ClockEnd)
            ↔ ((self.old.clock ≡ 2 ^ 48 - 1)
            × ((r : Registration) × ById (shown_in self.old.table.state) (ms_of now) id (Some r))) }
        ensures unchanged { OnErr result (self.new ≡ self.old) }
    {
        // Nothing that is known of is above the clock.
        let _clock = self.clock();
        let command = self.decide_observe(now, id, path, accept, mid);
        self.carry_out(command)
    }

    /// Ends the observation with the token. The message ID is that of the datagram, which is to be sent.
    pub fn cancel(&mut self, now: Moment, token: Stamp, mid: u16) -> Result<Outgoing, ObserveFault>
        ensures read { Cancels self.old (shown_in self.old.table.state) (ms_of now) token mid result self.new }
        ensures marks { (ms : List Mark) → Knows self.old ms
            → Cancels self.old (among ms) (ms_of now) token mid result self.new }
        ensures not_found { (result ≡ Err ObserveFault.NotFound)
            ↔ ByToken (shown_in self.old.table.state) (ms_of now) token None }
        ensures clock_end { (result ≡ Err ObserveFault.ClockEnd)
            ↔ ((self.old.clock ≡ 2 ^ 48 - 1)
            × ((x : Registration × Watches) × ByToken (shown_in self.old.table.state) (ms_of now) token (Some x))) }
        ensures unchanged { OnErr result (self.new ≡ self.old) }
    {
        // Nothing that is known of is above the clock.
        let _clock = self.clock();
        let command = self.decide_cancel(now, token, mid);
        self.carry_out(command)
    }

    /// Ends the registration of the least endpoint that has expired, as it was last seen: its identifier. An Update
    /// elsewhere with a greater stamp than what it was last seen by revives it with its watches. It takes no memory.
    pub fn sweep(&mut self, now: Moment) -> Result<Option<Stamp>, ClockEnd>
        ensures read { Sweeps self.old (shown_in self.old.table.state) (ms_of now) result self.new }
        ensures marks { (ms : List Mark) → Knows self.old ms → Sweeps self.old (among ms) (ms_of now) result self.new }
        ensures none { (result ≡ Ok None) ↔ ExpiredAfter (shown_in self.old.table.state) (ms_of now) None None }
        ensures clock_end { IsErr result
            ↔ ((self.old.clock ≡ 2 ^ 48 - 1)
            × ((x : List ℕ × Stamps) × ExpiredAfter (shown_in self.old.table.state) (ms_of now) None (Some x))) }
        ensures unchanged { OnErr result (self.new ≡ self.old) }
    {
        let Some(stamp) = self.next_stamp() else {
            return match self.table.expired_after(now, None) {
                Some(_) => Err(ClockEnd),
                None => Ok(None),
            };
        };
        let Some(id) = self.table.lift_first(now) else {
            return Ok(None);
        };
        self.clock.raise(stamp.counter);
        Ok(Some(id))
    }

    /// The greatest counter that the node has issued, or that a delta brought. No stamp that can be read from the node
    /// is above it.
    pub fn clock(&self) -> u64
        ensures value { result ≡ self.now.clock }
        ensures within { FitsClock result self.now.table.state }
    {
        self.clock.counter()
    }

    /// What is known of the endpoints.
    pub fn table(&self) -> &Table
        ensures { result.now ≡ self.now.table }
    {
        &self.table
    }

    /// How often what is known of an endpoint has changed. It stays at the greatest number.
    pub fn change(&self) -> u64
        ensures { result ≡ self.now.table.count.change }
    {
        self.table.change()
    }

    /// The stamp of the next operation. There is none at the end of the clock.
    pub(crate) fn next_stamp(&self) -> Option<Stamp>
        ensures end { IsNone result ↔ (self.now.clock ≡ 2 ^ 48 - 1) }
        ensures stamp { IfSome result (λ s. (s.counter ≡ self.now.clock + 1) × (s.node ≡ self.now.number)) }
    {
        let mut clock = self.clock;
        clock.next(self.number)
    }

    /// Does what was decided. It is not done by halves.
    pub(crate) fn commit(&mut self, operation: Option<Op>) -> Result<(), NoMemory>
        requires { IfSome operation (IsNextOf self.old.clock) }
        ensures left { OnOk result (Leaves self.old operation self.new) }
        ensures unchanged { OnErr result (self.new ≡ self.old) }
        ensures calm { operation ≡ None → IsOk result }
    {
        match operation {
            Some(operation) => self.issue(operation),
            None => Ok(()),
        }
    }

    /// Sends what was decided, and issues its operation. What was refused stays so.
    fn carry_out(
        &mut self,
        command: Result<Command, ObserveFault>,
    ) -> Result<Outgoing, ObserveFault>
        requires { IfOk command (λ c. IsNextOf self.old.clock c.operation) }
        ensures done { IsDone self.old command result self.new }
        ensures unchanged { OnErr result (self.new ≡ self.old) }
    {
        let Command {
            outgoing,
            operation,
        } = command?;
        self.issue(operation)?;
        Ok(outgoing)
    }

    /// Joins what the operation tells, and moves the clock.
    pub(crate) fn issue(&mut self, operation: Op) -> Result<(), NoMemory>
        requires { IsNextOf self.old.clock operation }
        ensures issued { OnOk result (Issued self.old operation self.new) }
        ensures unchanged { OnErr result (self.new ≡ self.old) }
    {
        let counter = operation.stamp.counter;
        let (endpoint, slot) = atom_with_endpoint(self.alloc, operation)?;
        self.table.join(endpoint, slot)?;
        self.clock.raise(counter);
        Ok(())
    }
}
