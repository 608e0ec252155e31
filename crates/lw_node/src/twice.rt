//! Replies made twice, before anything changes.

ghost use Rattle.std.specs.Prelude.{◌≡◌, IfOk, IsOk, OnOk, OnErr};
ghost use Rattle.lw_stamp.specs.Moment.{ms_of};
ghost use Rattle.lw_node.specs.Calls.{Takes, IsSilent, Observes, Cancels};
ghost use Rattle.lw_node.specs.inner.Done.{IsDone};
ghost use Rattle.lw_node.specs.Exchange.{IsDeltaSince};
ghost use Rattle.lw_node.specs.Node.{Known, IsKnown, marks_in, Issued};
ghost use Rattle.lw_node.specs.Steps.{Asks};
ghost use Rattle.lw_node.specs.inner.Twice.{first_of, second_of};
ghost use Rattle.lw_node.specs.inner.Within.{IsNextOf};

use crate::command::Command;
use crate::decision::Decision;
use crate::node::Node;
use lw_call::{Answer, ObserveFault, Outgoing, Question, Sent, Taken};
use lw_reg::{Addr, Path};
use lw_stamp::{Moment, NoMemory, Stamp};

impl Node {
    pub(crate) fn take_twice(
        &mut self,
        now: Moment,
        from: Addr,
        bytes: &[u8],
    ) -> Result<(Taken, Taken), NoMemory>
        ensures same { first_of result ≡ second_of result }
        ensures taken { (known : Known) → IsKnown self.old.table.state known → IfOk (first_of result) (λ t.
            Takes self.old (marks_in self.old.table.state known) (ms_of now) from bytes.now t self.new) }
        ensures unchanged { OnErr result (self.new ≡ self.old) }
        ensures silent { IsSilent bytes.now → IsOk result }
    {
        let alloc = self.alloc;
        let Decision {
            reply,
            notice,
            operation,
        } = self.decide(now, from, bytes)?;
        let taken = Taken { reply, notice };
        let copy = taken.copy(alloc)?;
        self.commit(operation)?;
        Ok((taken, copy))
    }

    pub(crate) fn observe_twice(
        &mut self,
        now: Moment,
        id: Stamp,
        path: Path,
        accept: Option<u16>,
        mid: u16,
    ) -> (
        Result<Outgoing, ObserveFault>,
        Result<Outgoing, ObserveFault>,
    )
        ensures same { result.0 ≡ result.1 }
        ensures sent { (known : Known) → IsKnown self.old.table.state known
            → Observes self.old (marks_in self.old.table.state known) (ms_of now) id path accept mid result.0 self.new }
    {
        // Nothing that is known of is above the clock.
        let _clock = self.clock();
        let command = self.decide_observe(now, id, path, accept, mid);
        self.command_twice(command)
    }

    pub(crate) fn cancel_twice(
        &mut self,
        now: Moment,
        token: Stamp,
        mid: u16,
    ) -> (
        Result<Outgoing, ObserveFault>,
        Result<Outgoing, ObserveFault>,
    )
        ensures same { result.0 ≡ result.1 }
        ensures sent { (known : Known) → IsKnown self.old.table.state known
            → Cancels self.old (marks_in self.old.table.state known) (ms_of now) token mid result.0 self.new }
    {
        // Nothing that is known of is above the clock.
        let _clock = self.clock();
        let command = self.decide_cancel(now, token, mid);
        self.command_twice(command)
    }

    fn command_twice(
        &mut self,
        command: Result<Command, ObserveFault>,
    ) -> (
        Result<Outgoing, ObserveFault>,
        Result<Outgoing, ObserveFault>,
    )
        requires { IfOk command (λ c. IsNextOf self.old.clock c.operation) }
        ensures same { result.0 ≡ result.1 }
        ensures done { IsDone self.old command result.0 self.new }
    {
        let command = match command {
            Ok(command) => command,
            Err(fault) => return (Err(fault), Err(fault)),
        };
        match self.issue_pair(command) {
            Ok((first, second)) => (Ok(first), Ok(second)),
            Err(NoMemory) => (Err(ObserveFault::NoMemory), Err(ObserveFault::NoMemory)),
        }
    }

    fn issue_pair(&mut self, command: Command) -> Result<(Outgoing, Outgoing), NoMemory>
        requires { IsNextOf self.old.clock command.operation }
        ensures sent { IfOk result (λ p. (p.0 ≡ command.outgoing) × (p.1 ≡ command.outgoing)) }
        ensures issued { OnOk result (Issued self.old command.operation self.new) }
        ensures unchanged { OnErr result (self.new ≡ self.old) }
    {
        let Command {
            outgoing,
            operation,
        } = command;
        let copy = outgoing.copy(self.alloc)?;
        self.issue(operation)?;
        Ok((outgoing, copy))
    }

    pub(crate) fn send_twice(&self, since: u64) -> Result<(Sent, Sent), NoMemory>
        ensures same { first_of result ≡ second_of result }
        ensures sent { IfOk (first_of result) (λ sent. IsDeltaSince self.now since sent.delta
            × (sent.change ≡ self.now.table.count.change)) }
    {
        let sent = self.send(since)?;
        let copy = sent.copy()?;
        Ok((sent, copy))
    }

    pub(crate) fn ask_twice(
        &self,
        now: Moment,
        question: &Question,
    ) -> Result<(Answer, Answer), NoMemory>
        ensures same { first_of result ≡ second_of result }
        ensures answered { (known : Known) → IsKnown self.now.table.state known
            → Asks self.now (marks_in self.now.table.state known) (ms_of now) question.now (first_of result) }
    {
        let answer = self.ask(now, question)?;
        let copy = answer.copy(self.alloc)?;
        Ok((answer, copy))
    }
}

/// Each of a pair that was made, or the refusal of both.
pub(crate) fn both<T>(pair: Result<(T, T), NoMemory>) -> (Result<T, NoMemory>, Result<T, NoMemory>)
    ensures first { result.0 ≡ first_of pair }
    ensures second { result.1 ≡ second_of pair }
{
    match pair {
        Ok((first, second)) => (Ok(first), Ok(second)),
        Err(NoMemory) => (Err(NoMemory), Err(NoMemory)),
    }
}
