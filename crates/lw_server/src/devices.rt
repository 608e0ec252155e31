//! What is under way with devices: requests that wait for an answer, notifications that come in blocks, and what is
//! left to do of both.

ghost use Rattle.std.specs.Prelude.{◌≡◌, ◌<◌, ◌≤◌, ◌+◌, ◌++◌, length, map, option_map, vec_capacity, vec_len};
ghost use Rattle.std.specs.Prelude.{IfOk, OnErr, OnOk};
ghost use Rattle.std.specs.Option.{option_to_list};
ghost use Rattle.lw_messaging.specs.PendingRequest.{HasRoom};
ghost use Rattle.lw_server.specs.Devices.{left_of, new_counts, new_devices, with_task};
ghost use Rattle.lw_server.specs.Hearing.{counts_block, counts_matched, is_confirmable as is_confirmable_in, left_by, AsksRest, IsPassed, Passes, WholePasses};
ghost use Rattle.lw_server.specs.Stepping.{cancel_of as cancel_in, cancels_of, first_of, over, with_sent, without_first, IsFirstCut, StepsRequests};
ghost use Rattle.lw_server.specs.inner.Devices.{task_in, task_of, with_first};

use crate::hearing::Passage;
use bytes::Bytes;
use lw_call::{Call, Notice};
use lw_messaging::{Fetches, Matched, MessageIds, OutgoingRequests, Parcel, Purpose, Step};
use lw_reg::{Addr, Path, Watch};
use lw_stamp::{Moment, NoMemory, Stamp};
use std::alloc::Global;
use std::marker::Model;

/// The code of an empty message, which a Reset is (RFC 7252, section 4.1).
const EMPTY: u8 = 0x00;

/// 5.04 Gateway Timeout: nobody has answered (RFC 7252, section 5.9.3.5).
const GATEWAY_TIMEOUT: u8 = 0xa4;

/// What is left to do, in a round of its own.
#[derive(Drop)]
pub(crate) enum Task {
    /// The observation with the token is to end, since its request came to nothing. The code says how.
    End {
        token: Stamp,
        code: u8,
    },
    /// It is to end, if it has not ended yet, and the notice is to be told of that.
    Close {
        notice: Notice,
        /// Whether it has ended, and the log covers that.
        is_over: bool,
    },
    /// The round of a report failed: the notice is to be told, if its observation lives no more.
    Check(Notice),
    /// What came of the fetch with the number is to be told, since its request came to nothing.
    Cut(u32),
    /// A notification is to be told that came in blocks, of which perhaps some did not come.
    Tell {
        message: Vec<u8>,
        is_complete: bool,
    },
    /// The round of an Observe failed: what is observed on the path of the registration is to end, if it is not the
    /// observation that was there before.
    Undo {
        id: Stamp,
        path: Path,
        before: Option<Stamp>,
    },
}

/// The first thing that is left to do.
#[derive(Drop)]
pub(crate) enum First {
    End {
        token: Stamp,
        code: u8,
    },
    Close {
        notice: Notice,
        is_over: bool,
    },
    Check(Notice),
    Cut(u32),
    Tell {
        bytes: Bytes,
        is_complete: bool,
    },
    Undo {
        id: Stamp,
        path: Path,
        before: Option<Stamp>,
    },
}

/// How many requests were sent to devices, and what became of them.
#[derive(Clone, Copy, Debug, PartialEq, Eq)]
pub struct RequestCounts {
    pub sent: u64,
    pub sent_again: u64,
    pub reset: u64,
    pub unanswered: u64,
    /// How many datagrams were blocks of notifications.
    pub blocks: u64,
}

impl RequestCounts {
    fn new() -> RequestCounts
        ensures { result ≡ new_counts }
    {
        RequestCounts {
            sent: 0,
            sent_again: 0,
            reset: 0,
            unanswered: 0,
            blocks: 0,
        }
    }

    /// Counts a datagram that was a block.
    fn count_block(&mut self, parcel: &Parcel)
        ensures { self.new ≡ counts_block parcel.now self.old }
    {
        match parcel {
            Parcel::Through => {}
            Parcel::Taken { .. } | Parcel::Whole { .. } => {
                self.blocks = self.blocks.saturating_add(1);
            }
        }
    }

    /// Counts a request that is sent, for the first time or again.
    fn count(&mut self, again: bool)
        ensures { self.new ≡ with_sent self.old again }
    {
        if again {
            self.sent_again = self.sent_again.saturating_add(1);
        } else {
            self.sent = self.sent.saturating_add(1);
        }
    }
}

/// What a step with devices has come to.
#[derive(Drop)]
pub enum Progress {
    /// There was nothing to do.
    Idle,
    /// Something was done.
    Moved,
    /// The bytes are to be sent to the address.
    Sends(Addr, Vec<u8>),
}

#[derive(Drop)]
pub(crate) struct Devices {
    pub(crate) requests: OutgoingRequests,
    pub(crate) fetches: Fetches,
    pub(crate) tasks: Vec<Task>,
    pub(crate) counts: RequestCounts,
}

impl Model for Devices {
    ghost use Rattle.std.specs.Prelude.{map};
    ghost use Rattle.lw_server.specs.Devices.{DevicesContent};
    ghost use Rattle.lw_server.specs.inner.Devices.{task_of};

    ghost Value = { DevicesContent };

    ghost view = { λ d. record {
      requests = d.requests.list;
      fetches = d.fetches;
      tasks = map task_of d.tasks.items;
      counts = d.counts;
    } };
}

impl Devices {
    /// Nothing yet.
    pub(crate) fn new(alloc: Global, start: Moment) -> Devices
        ensures { result ≡ new_devices start }
    {
        Devices {
            requests: OutgoingRequests::new(alloc),
            fetches: Fetches::new(alloc, start),
            tasks: Vec::new(alloc),
            counts: RequestCounts::new(),
        }
    }

    /// Hears a datagram, with the watch that its token names where it is a block.
    pub(crate) fn hear(
        &mut self,
        now: Moment,
        from: Addr,
        watch: Option<Watch>,
        bytes: &[u8],
    ) -> Result<Passage, NoMemory>
        ensures passed { IfOk result (λ passage. IsPassed now from watch bytes.now self.old passage self.new) }
        ensures unchanged { OnErr result (self.new ≡ self.old) }
    {
        self.tasks.reserve(2)?;
        let parcel = self.fetches.take(now, from, watch, bytes)?;
        let matched = self.requests.match_response(from, bytes);
        note_matched(&mut self.counts, &mut self.tasks, matched);
        self.counts.count_block(&parcel);
        Ok(pass(&mut self.requests, &mut self.tasks, now, from, parcel))
    }

    /// How many requests wait.
    pub(crate) fn waiting(&self) -> usize
        ensures { result ≡ length self.now.requests }
    {
        self.requests.count()
    }

    /// How much is left to do.
    pub(crate) fn tasks_left(&self) -> usize
        ensures { result ≡ length self.now.tasks }
    {
        self.tasks.len()
    }

    /// Leaves one more thing to do.
    pub(crate) fn leave(&mut self, task: Task) -> Result<(), NoMemory>
        ensures left { OnOk result (self.new ≡ with_task (task_of task) self.old) }
        ensures unchanged { OnErr result (self.new ≡ self.old) }
    {
        self.tasks.push(task)?;
        Ok(())
    }

    /// Only so much of what is left to do is still to be done: the first of it.
    pub(crate) fn keep_first(&mut self, count: usize)
        ensures { self.new ≡ with_first count self.old }
    {
        self.tasks.truncate(count);
    }

    /// The first thing that is left to do is done, and this is left to do behind the others, if it is something.
    pub(crate) fn put_behind(&mut self, task: Option<Task>) -> Result<(), NoMemory>
        ensures behind { OnOk result (self.new
            ≡ record (self.old) { tasks = without_first (self.old.tasks ++ option_to_list (option_map task_of task)) }) }
        ensures unchanged { OnErr result (self.new ≡ self.old) }
    {
        if let Some(task) = task {
            self.tasks.push(task)?;
        }
        self.drop_first();
        Ok(())
    }

    /// The calls that end the observations which are to end.
    pub(crate) fn cancels(&self, alloc: Global, now: Moment) -> Result<Vec<Call>, NoMemory>
        ensures { IfOk result (λ calls. calls.items ≡ cancels_of now self.now.tasks) }
    {
        let mut calls = Vec::new(alloc);
        put_cancels(&mut calls, now, &self.tasks)?;
        Ok(calls)
    }

    /// All observations that were to end have ended.
    pub(crate) fn close_all(&mut self)
        ensures { self.new ≡ record (self.old) { tasks = map over self.old.tasks } }
    {
        all_over(&mut self.tasks);
    }

    /// The first thing that is left to do.
    pub(crate) fn first(&self, alloc: Global) -> Result<Option<First>, NoMemory>
        ensures { IfOk result (λ first. option_map task_in first ≡ first_of self.now.tasks) }
    {
        let Some(task) = self.tasks.first() else {
            return Ok(None);
        };
        Ok(Some(match task {
            Task::End { token, code } => First::End {
                token: *token,
                code: *code,
            },
            Task::Close { notice, is_over } => First::Close {
                notice: notice.copy(alloc)?,
                is_over: *is_over,
            },
            Task::Check(notice) => First::Check(notice.copy(alloc)?),
            Task::Cut(fetch) => First::Cut(*fetch),
            Task::Undo { id, path, before } => First::Undo {
                id: *id,
                path: *path,
                before: *before,
            },
            Task::Tell {
                message,
                is_complete,
            } => First::Tell {
                bytes: Bytes::copy_from_slice(alloc, message)?,
                is_complete: *is_complete,
            },
        }))
    }

    /// It is done.
    pub(crate) fn drop_first(&mut self)
        ensures { self.new ≡ record (self.old) { tasks = without_first self.old.tasks } }
    {
        if !self.tasks.is_empty() {
            self.tasks.remove(0);
        }
    }

    /// What came of the fetch is to be told, in place of the first thing that is left to do.
    pub(crate) fn cut_first(&mut self, fetch: u32) -> Result<(), NoMemory>
        ensures cut { OnOk result (IsFirstCut fetch self.old self.new) }
        ensures unchanged { OnErr result (self.new ≡ self.old) }
    {
        let cut = self.fetches.cut(fetch)?;
        match (cut, self.tasks.first_mut()) {
            (Some(message), Some(first)) => {
                *first = Task::Tell {
                    message,
                    is_complete: false,
                };
            }
            _ => self.drop_first(),
        }
        Ok(())
    }

    /// Does what is to be done with the first request that is due.
    pub(crate) fn step(&mut self, now: Moment, ids: &mut MessageIds) -> Result<Progress, NoMemory>
        ensures stepped { IfOk result (λ progress. StepsRequests now self.old ids.old progress self.new ids.new) }
        ensures unchanged { OnErr result ((self.new ≡ self.old) × (ids.new ≡ ids.old)) }
    {
        self.tasks.reserve(1)?;
        let Some(step) = self.requests.step(now, ids)? else {
            return Ok(Progress::Idle);
        };
        match step {
            Step::Send { to, bytes, again } => {
                self.counts.count(again);
                Ok(Progress::Sends(to, bytes))
            }
            Step::TimedOut(purpose) => {
                self.counts.unanswered = self.counts.unanswered.saturating_add(1);
                put_left(&mut self.tasks, purpose, GATEWAY_TIMEOUT);
                Ok(Progress::Moved)
            }
            Step::Postponed => Ok(Progress::Moved),
        }
    }
}

/// Puts the calls that end the observations which are to end behind the others.
fn put_cancels(calls: &mut Vec<Call>, now: Moment, tasks: &[Task]) -> Result<(), NoMemory>
    ensures { OnOk result (calls.new.items ≡ calls.old.items ++ cancels_of now (map task_of tasks.now)) }
{
    for task in tasks {
        if let Some(call) = cancel_of(now, task) {
            calls.push(call)?;
        }
    }
    Ok(())
}

/// The call that ends an observation which is to end.
fn cancel_of(now: Moment, task: &Task) -> Option<Call>
    ensures { result ≡ cancel_in now (task_of task.now) }
{
    match task {
        Task::Close {
            notice,
            is_over: false,
        } => Some(Call::Cancel {
            now,
            token: notice.token,
            mid: 0,
        }),
        _ => None,
    }
}

/// All observations that were to end have ended.
fn all_over(tasks: &mut [Task])
    ensures { map task_of tasks.new ≡ map over (map task_of tasks.old) }
{
    for task in tasks.iter_mut() {
        note_over(task);
    }
}

/// An observation that was to end has ended.
fn note_over(task: &mut Task)
    ensures { task_of task.new ≡ over (task_of task.old) }
{
    if let Task::Close { is_over, .. } = task {
        *is_over = true;
    }
}

/// Counts a request that was rejected, and puts what is left to do of it. There is room for it.
fn note_matched(counts: &mut RequestCounts, tasks: &mut Vec<Task>, matched: Matched)
    requires { vec_len tasks.old < vec_capacity tasks.old }
    ensures counts { counts.new ≡ counts_matched matched counts.old }
    ensures left { map task_of tasks.new.items ≡ map task_of tasks.old.items ++ left_by matched }
    ensures len { vec_len tasks.new ≤ vec_len tasks.old + 1 }
    ensures capacity { vec_capacity tasks.new ≡ vec_capacity tasks.old }
{
    match matched {
        Matched::Reset(purpose) => {
            counts.reset = counts.reset.saturating_add(1);
            put_left(tasks, purpose, EMPTY);
        }
        Matched::Acknowledged(_) | Matched::Nothing => {}
    }
}

/// What becomes of a datagram that was one of these. There is room for a task.
fn pass(
    requests: &mut OutgoingRequests,
    tasks: &mut Vec<Task>,
    now: Moment,
    from: Addr,
    parcel: Parcel,
) -> Passage
    requires { vec_len tasks.old < vec_capacity tasks.old }
    ensures { Passes now from parcel requests.old.list (map task_of tasks.old.items) result requests.new.list
        (map task_of tasks.new.items) }
{
    match parcel {
        Parcel::Through => Passage::Through,
        Parcel::Taken {
            acknowledgement,
            request,
            fetch,
        } => {
            ask_rest(requests, tasks, now, from, fetch, request);
            Passage::Held(acknowledgement)
        }
        Parcel::Whole {
            acknowledgement,
            message,
            is_complete,
        } => pass_whole(tasks, acknowledgement, message, is_complete),
    }
}

/// Asks for the rest of a notification. Where as many requests wait as can, what has come of it is told. There is room
/// for a task.
fn ask_rest(
    requests: &mut OutgoingRequests,
    tasks: &mut Vec<Task>,
    now: Moment,
    to: Addr,
    fetch: u32,
    request: Vec<u8>,
)
    requires { vec_len tasks.old < vec_capacity tasks.old }
    ensures { AsksRest now to fetch request.items requests.old.list (map task_of tasks.old.items) requests.new.list
        (map task_of tasks.new.items) }
{
    let purpose = Purpose::Rest(fetch);
    requests.forget(purpose);
    match requests.reserve() {
        Ok(()) => requests.add(now, to, purpose, request),
        Err(NoMemory) => tasks.push_reserved(Task::Cut(fetch)),
    }
}

/// What becomes of a whole message. There is room for a task.
fn pass_whole(
    tasks: &mut Vec<Task>,
    acknowledgement: Option<Vec<u8>>,
    message: Vec<u8>,
    is_complete: bool,
) -> Passage
    requires { vec_len tasks.old < vec_capacity tasks.old }
    ensures { WholePasses (is_confirmable_in message.items) acknowledgement message is_complete
        (map task_of tasks.old.items) result (map task_of tasks.new.items) }
{
    if is_confirmable(&message) {
        return Passage::Whole(message);
    }
    tasks.push_reserved(Task::Tell {
        message,
        is_complete,
    });
    Passage::Held(acknowledgement)
}

/// Whether a message is confirmable.
fn is_confirmable(bytes: &[u8]) -> bool
    ensures { result ≡ is_confirmable_in bytes.now }
{
    match bytes.first() {
        Some(first) => first / 16 % 4 == 0,
        None => false,
    }
}

/// Puts what is left to do where a request came to nothing. There is room for it.
fn put_left(tasks: &mut Vec<Task>, purpose: Purpose, code: u8)
    requires { vec_len tasks.old < vec_capacity tasks.old }
    ensures left { map task_of tasks.new.items ≡ map task_of tasks.old.items ++ left_of purpose code }
    ensures len { vec_len tasks.new ≤ vec_len tasks.old + 1 }
    ensures capacity { vec_capacity tasks.new ≡ vec_capacity tasks.old }
{
    match purpose {
        Purpose::Observation(token) => tasks.push_reserved(Task::End { token, code }),
        Purpose::Rest(fetch) => tasks.push_reserved(Task::Cut(fetch)),
        Purpose::Cancellation(_) => {}
    }
}
