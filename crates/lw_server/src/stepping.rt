//! What is left to do with devices, a step at a time.

ghost use Rattle.std.specs.Prelude.{◌≡◌, ◌≢◌, ◌⊎◌, true, false, Option, option_map, IfOk, OnErr, OnOk};
ghost use Rattle.std.specs.List.{list_any};
ghost use Rattle.std.specs.Option.{is_some, option_to_list};
ghost use Rattle.lw_stamp.specs.Moment.{ms_of};
ghost use Rattle.lw_reg.specs.Reading.{shown_in};
ghost use Rattle.lw_reg.specs.Registration.{Registration};
ghost use Rattle.lw_reg.specs.declared.watch.Watch.{Watch};
ghost use Rattle.lw_table.specs.LookUps.{ByToken};
ghost use Rattle.lw_replica.specs.Own.{WritesOwn};
ghost use Rattle.lw_server.specs.declared.devices.Progress.TheVariants.{Moved};
ghost use Rattle.lw_server.specs.Devices.{Check, Close, Cut, End, Tell, Undo};
ghost use Rattle.lw_server.specs.Stepping.{closing as closing_of, code_in as code_of, done_first, is_refused as is_refused_in, overdue as overdue_of};
ghost use Rattle.lw_server.specs.Stepping.{CancelsIf, Cancels, Closes, IsAtStake, IsDone, IsEnding, IsLeft};
ghost use Rattle.lw_server.specs.Stepping.{IsGiven, IsNextStep, IsReport, IsRequestStep, IsTokenOn, LeavesReport, TellsEnd};
ghost use Rattle.lw_server.specs.inner.Devices.{task_in, task_of};
ghost use Rattle.lw_server.specs.inner.Stepping.{LeavesCheck};

use crate::devices::{First, Task};
use crate::one_call::call_once;
use crate::{Clocks, Progress, Server, TurnFault};
use bytes::Bytes;
use lw_call::{Call, Notice, ObserveFault, Reply, Taken};
use lw_log::DeltaLog;
use lw_messaging::stamp_of_token;
use lw_node::Node;
use lw_reg::{Addr, Path};
use lw_stamp::{Moment, NoMemory, Stamp, Text};

/// The store looks at the token of a notification, and not where it comes from.
const ANYWHERE: Addr = Addr::V4 {
    address: [0; 4],
    port: 0,
};

/// How many observations of a registration are looked through at most.
const MOST_WATCHES: u32 = 65_536;

impl<G: DeltaLog, C: Clocks> Server<G, C> {
    /// Does the first thing that is left to do with devices, or what is to be done with the first request that is due,
    /// at the moment that the clocks told last. Where it fails, that is still left to do.
    pub fn next_step(&mut self) -> Result<Progress, TurnFault>
        ensures stepped { IfOk result (λ it. IsNextStep self.old it self.new) }
        // Also where it fails.
        ensures own { WritesOwn self.old.replica self.new.replica }
        ensures left { OnErr result (IsLeft self.old self.new) }
    {
        match self.devices.first(self.alloc)? {
            Some(first) => self.do_first(first),
            None => self.step_requests(),
        }
    }

    /// Does what is to be done with the first request that is due.
    pub(crate) fn step_requests(&mut self) -> Result<Progress, TurnFault>
        ensures steps { IfOk result (λ it. IsRequestStep self.old it self.new) }
        ensures replica { self.new.replica ≡ self.old.replica }
        ensures left { OnErr result (self.new ≡ self.old) }
    {
        Ok(self.devices.step(self.steady, &mut self.ids)?)
    }

    fn do_first(&mut self, first: First) -> Result<Progress, TurnFault>
        ensures done { IfOk result (λ it. (it ≡ Moved) × IsDone (task_in first) self.old self.new) }
        ensures own { WritesOwn self.old.replica self.new.replica }
        ensures left { OnErr result (IsLeft self.old self.new) }
    {
        self.carry_out_first(first)?;
        Ok(Progress::Moved)
    }

    fn carry_out_first(&mut self, first: First) -> Result<(), TurnFault>
        ensures done { OnOk result (IsDone (task_in first) self.old self.new) }
        ensures own { WritesOwn self.old.replica self.new.replica }
        ensures left { OnErr result (IsLeft self.old self.new) }
    {
        match first {
            First::End { token, code } => self.end(token, code),
            First::Close { notice, is_over } => self.close(notice, is_over),
            First::Check(notice) => self.check(notice),
            First::Cut(fetch) => self.cut(fetch),
            First::Tell { bytes, is_complete } => self.tell(bytes, is_complete),
            First::Undo { id, path, before } => self.undo(id, path, before),
        }
    }

    fn drop_first(&mut self)
        ensures { self.new ≡ done_first self.old }
    {
        self.devices.drop_first();
    }

    /// What has come of the fetch is to be told next.
    fn cut(&mut self, fetch: u32) -> Result<(), TurnFault>
        ensures done { OnOk result (IsDone (Cut fetch) self.old self.new) }
        ensures replica { self.new.replica ≡ self.old.replica }
        ensures left { OnErr result (self.new ≡ self.old) }
    {
        self.devices.cut_first(fetch)?;
        Ok(())
    }

    /// An observation whose request came to nothing is to end with the others that are to end, if it lives.
    fn end(&mut self, token: Stamp, code: u8) -> Result<(), TurnFault>
        ensures done { OnOk result (IsDone (End token code) self.old self.new) }
        ensures replica { self.new.replica ≡ self.old.replica }
        ensures left { OnErr result (self.new ≡ self.old) }
    {
        let notice = self.ending(token, code)?;
        self.devices.put_behind(closing(notice))?;
        Ok(())
    }

    /// What is told of an observation that ends so, if it lives.
    fn ending(&self, token: Stamp, code: u8) -> Result<Option<Notice>, TurnFault>
        ensures { IfOk result (λ notice. IsEnding self.now token code notice) }
    {
        let Some(node) = self.replica.node() else {
            return Err(TurnFault::Unavailable);
        };
        let Some((shown, watch)) = node.by_token(self.latest, token) else {
            return Ok(None);
        };
        Ok(Some(Notice {
            token,
            id: shown.id,
            endpoint: Text::copy_of(self.alloc, shown.endpoint)?,
            path: watch.path,
            code,
            observe: None,
            format: None,
            ended: true,
            payload: Vec::new(self.alloc),
        }))
    }

    /// Ends all observations that are to end; or tells this one, if it has ended.
    fn close(&mut self, notice: Notice, is_over: bool) -> Result<(), TurnFault>
        ensures done { OnOk result (IsDone (Close notice is_over) self.old self.new) }
        ensures own { WritesOwn self.old.replica self.new.replica }
        ensures left { OnErr result (IsLeft self.old self.new) }
    {
        if is_over {
            self.tell_end(notice)
        } else {
            self.close_all()
        }
    }

    /// Ends all observations that are to end, in one round. They are told next.
    fn close_all(&mut self) -> Result<(), TurnFault>
        ensures closed { OnOk result (Closes self.old self.new) }
        ensures own { WritesOwn self.old.replica self.new.replica }
        ensures left { OnErr result (IsLeft self.old self.new) }
    {
        let calls = self.devices.cancels(self.alloc, self.latest)?;
        let replies = self.replica.round(&calls)?;
        self.tally.count(&calls, &replies);
        had_memory(&replies)?;
        self.devices.close_all();
        Ok(())
    }

    /// Tells an observation that has ended.
    fn tell_end(&mut self, notice: Notice) -> Result<(), TurnFault>
        ensures told { OnOk result (TellsEnd notice self.old self.new) }
        ensures replica { self.new.replica ≡ self.old.replica }
        ensures left { OnErr result (IsLeft self.old self.new) }
    {
        self.notifications.reserve(1)?;
        self.notifications.publish(self.steady, notice, true);
        self.drop_first();
        Ok(())
    }

    /// An observation of which a report came whose round failed is to be told as ended, if it lives no more.
    fn check(&mut self, notice: Notice) -> Result<(), TurnFault>
        ensures done { OnOk result (IsDone (Check notice) self.old self.new) }
        ensures replica { self.new.replica ≡ self.old.replica }
        ensures left { OnErr result (self.new ≡ self.old) }
    {
        let lives = self.lives(notice.token)?;
        self.devices.put_behind(overdue(notice, lives))?;
        Ok(())
    }

    /// Whether the observation with the token lives.
    fn lives(&self, token: Stamp) -> Result<bool, TurnFault>
        ensures { IfOk result (λ lives. (found : Option (Registration × Watch))
            × ByToken (shown_in self.now.replica.node.table.state) (ms_of self.now.latest) token found
            × (lives ≡ is_some found)) }
    {
        let Some(node) = self.replica.node() else {
            return Err(TurnFault::Unavailable);
        };
        Ok(node.by_token(self.latest, token).is_some())
    }

    /// Ends the observation that a failed round has left on the path of the registration, if it has.
    fn undo(&mut self, id: Stamp, path: Path, before: Option<Stamp>) -> Result<(), TurnFault>
        ensures done { OnOk result (IsDone (Undo id path before) self.old self.new) }
        ensures own { WritesOwn self.old.replica self.new.replica }
        ensures left { OnErr result (IsLeft self.old self.new) }
    {
        let there = self.token_there(id, path)?;
        self.cancel_other(there, before)?;
        self.drop_first();
        Ok(())
    }

    /// The token of what is observed on the path of the registration.
    fn token_there(&self, id: Stamp, path: Path) -> Result<Option<Stamp>, TurnFault>
        ensures { IfOk result (λ token.
            IsTokenOn (shown_in self.now.replica.node.table.state) (ms_of self.now.latest) id path token) }
    {
        let Some(node) = self.replica.node() else {
            return Err(TurnFault::Unavailable);
        };
        Ok(token_on(node, self.latest, id, path))
    }

    /// Ends what is there, if it is not what was there before.
    fn cancel_other(&mut self, there: Option<Stamp>, before: Option<Stamp>) -> Result<(), TurnFault>
        ensures stays { there ≡ before → OnOk result (self.new ≡ self.old) }
        ensures ends { there ≢ before → OnOk result (CancelsIf there self.old self.new) }
        ensures own { WritesOwn self.old.replica self.new.replica }
        ensures left { OnErr result (IsLeft self.old self.new) }
    {
        if there == before {
            return Ok(());
        }
        match there {
            Some(token) => self.cancel(token),
            None => Ok(()),
        }
    }

    fn cancel(&mut self, token: Stamp) -> Result<(), TurnFault>
        ensures cancels { OnOk result (Cancels token self.old self.new) }
        ensures own { WritesOwn self.old.replica self.new.replica }
        ensures left { OnErr result (IsLeft self.old self.new) }
    {
        let call = Call::Cancel {
            now: self.latest,
            token,
            mid: 0,
        };
        let _reply = call_once(self.alloc, &mut self.replica, &mut self.tally, call)?;
        Ok(())
    }

    /// Tells a notification that came in blocks.
    fn tell(&mut self, bytes: Bytes, is_complete: bool) -> Result<(), TurnFault>
        ensures done { OnOk result (IsDone (Tell bytes is_complete) self.old self.new) }
        ensures own { WritesOwn self.old.replica self.new.replica }
        ensures left { OnErr result (IsLeft self.old self.new) }
    {
        self.take_report(ANYWHERE, bytes, is_complete)?;
        self.drop_first();
        Ok(())
    }

    /// Takes what a device reports, in a round of its own, at the moment that the clocks told last, and tells it: what
    /// answers it, if it is owed an answer. Where it fails, and its observation lives no more then, that is told later.
    pub fn report(&mut self, from: Addr, bytes: &[u8]) -> Result<Option<Vec<u8>>, TurnFault>
        ensures report { IfOk result (λ answer. IsReport from bytes.now true self.old answer self.new) }
        // Also where it fails.
        ensures own { WritesOwn self.old.replica self.new.replica }
        ensures left { OnErr result (LeavesReport bytes.now self.old self.new) }
    {
        let notice = self.at_stake(bytes)?;
        let bytes = Bytes::copy_from_slice(self.alloc, bytes)?;
        match notice {
            Some(notice) => self.report_of(notice, from, bytes),
            None => self.take_report(from, bytes, true),
        }
    }

    /// Takes what a device reports of a live observation.
    fn report_of(
        &mut self,
        notice: Notice,
        from: Addr,
        bytes: Bytes,
    ) -> Result<Option<Vec<u8>>, TurnFault>
        ensures report { IfOk result (λ answer. IsReport from bytes true self.old answer self.new) }
        ensures own { WritesOwn self.old.replica self.new.replica }
        ensures left { OnErr result ((self.new ≡ self.old) ⊎ LeavesCheck notice self.old self.new) }
    {
        let count = self.devices.tasks_left();
        self.devices.leave(Task::Check(notice))?;
        let taken = self.take_report(from, bytes, true);
        if taken.is_ok() {
            self.devices.keep_first(count);
        }
        taken
    }

    /// What is to be told of a report where its round fails and its observation lives no more: it is of a live one now.
    fn at_stake(&self, bytes: &[u8]) -> Result<Option<Notice>, TurnFault>
        ensures { IfOk result (λ notice. IsAtStake self.now bytes.now notice) }
    {
        match stamp_of_token(bytes) {
            Some(token) if self.replica.node().is_some() => self.ending(token, code_in(bytes)),
            _ => Ok(None),
        }
    }

    fn take_report(
        &mut self,
        from: Addr,
        bytes: Bytes,
        is_complete: bool,
    ) -> Result<Option<Vec<u8>>, TurnFault>
        ensures report { IfOk result (λ answer. IsReport from bytes is_complete self.old answer self.new) }
        ensures own { WritesOwn self.old.replica self.new.replica }
        ensures left { OnErr result (IsLeft self.old self.new) }
    {
        let now = self.latest;
        self.notifications.reserve(1)?;
        let call = Call::Take { now, from, bytes };
        let reply = call_once(self.alloc, &mut self.replica, &mut self.tally, call)?;
        let Taken { reply, notice } = taken_of(reply)?;
        self.notifications
            .publish_if_any(self.steady, notice, is_complete);
        Ok(reply)
    }
}

/// The token of what is observed on the path of the registration.
pub(crate) fn token_on(node: &Node, now: Moment, id: Stamp, path: Path) -> Option<Stamp>
    ensures { IsTokenOn (shown_in node.now.table.state) (ms_of now) id path result }
{
    let mut after: Option<Path> = None;
    for _watch in 0..MOST_WATCHES {
        let (_shown, watch) = node.watch_after(now, id, after.as_ref())?;
        if watch.path == path {
            return Some(watch.token);
        }
        after = Some(watch.path);
    }
    None
}

/// What is left to do with an observation that is to end, if it lives.
fn closing(notice: Option<Notice>) -> Option<Task>
    ensures { option_to_list (option_map task_of result) ≡ closing_of notice }
{
    let notice = notice?;
    Some(Task::Close {
        notice,
        is_over: false,
    })
}

/// What is left to do with an observation of which a report came whose round failed.
fn overdue(notice: Notice, lives: bool) -> Option<Task>
    ensures { (found : Option (Registration × Watch)) → lives ≡ is_some found
        → option_to_list (option_map task_of result) ≡ overdue_of notice found }
{
    if lives {
        return None;
    }
    Some(Task::Close {
        notice,
        is_over: true,
    })
}

/// The code of a message, which stands behind its first byte.
fn code_in(bytes: &[u8]) -> u8
    ensures { result ≡ code_of bytes.now }
{
    match bytes {
        [_, code, ..] => *code,
        _ => 0,
    }
}

/// There was memory to end observations.
fn had_memory(replies: &[Reply]) -> Result<(), NoMemory>
    ensures { OnOk result (list_any is_refused_in replies.now ≡ false) }
{
    if is_any_refused(replies) {
        return Err(NoMemory);
    }
    Ok(())
}

fn is_any_refused(replies: &[Reply]) -> bool
    ensures { result ≡ list_any is_refused_in replies.now }
{
    replies.iter().any(|reply| is_refused(reply))
}

/// Whether there was no memory to end an observation.
fn is_refused(reply: &Reply) -> bool
    ensures { result ≡ is_refused_in reply.now }
{
    matches!(reply, Reply::Cancel(Err(ObserveFault::NoMemory)))
}

/// What the node has given for a datagram.
fn taken_of(reply: Reply) -> Result<Taken, NoMemory>
    ensures { IfOk result (λ given. IsGiven reply given) }
{
    match reply {
        Reply::Take(Ok(taken)) => Ok(taken),
        Reply::Take(Err(NoMemory)) => Err(NoMemory),
        _other => Ok(Taken {
            reply: None,
            notice: None,
        }),
    }
}
