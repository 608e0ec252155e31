//! Requests of the server's own that wait for an answer.

ghost use Rattle.std.specs.Prelude.{◌≡◌, ◌<◌, [], length, slice_get, OnErr, OnOk, IfOk, IfSome, Some, option_map};
ghost use Rattle.std.specs.List.{list_any};
ghost use Rattle.lw_stamp.specs.Moment.{ms_of};
ghost use Rattle.lw_messaging.specs.PendingRequest.{after_match, matched as matched_in, is_due as is_due_in, step_content, place_answered as place_answered_in, place_due as place_due_in, with_request, without_purpose, HasRoom, IsStepped, IsSteppedWith};

use crate::message_ids::MessageIds;
use crate::pending_request::{PendingRequest, Purpose, is_reset};
use lw_reg::Addr;
use lw_stamp::{Moment, NoMemory, Stamp};
use std::alloc::Global;
use std::marker::Model;

/// How many requests wait at most.
pub const MAX_REQUESTS: usize = 1_536;

/// What was done with a request that was due.
#[derive(Drop)]
pub enum Step {
    /// The bytes are to be sent to the address. They were sent before, or were not.
    Send {
        to: Addr,
        bytes: Vec<u8>,
        again: bool,
    },
    /// It was not answered, and waits no more.
    TimedOut(Purpose),
    /// No message ID is free for it.
    Postponed,
}

/// What a datagram answers.
#[derive(Clone, Copy, Debug, PartialEq, Eq)]
pub enum Matched {
    /// No request.
    Nothing,
    /// The request has come, and waits no more.
    Acknowledged(Purpose),
    /// The request was rejected, and waits no more.
    Reset(Purpose),
}

/// The requests that wait, in the order in which they were put here.
#[derive(Drop)]
pub struct OutgoingRequests {
    list: Vec<PendingRequest>,
    alloc: Global,
}

impl Model for OutgoingRequests {
    ghost use Rattle.std.specs.Prelude.{◌≤◌, length, vec_capacity};
    ghost use Rattle.lw_messaging.specs.PendingRequest.{most, OutgoingRequestsContent};

    ghost Value = { OutgoingRequestsContent };

    ghost view = { λ r. record { list = r.list.items; capacity = vec_capacity r.list } };

    ghost invariant = { λ r. length r.list.items ≤ most };
}

impl OutgoingRequests {
    /// None yet.
    pub fn new(alloc: Global) -> OutgoingRequests
        ensures { result ≡ record { list = []; capacity = 0 } }
    {
        OutgoingRequests {
            list: Vec::new(alloc),
            alloc,
        }
    }

    /// How many wait.
    pub fn count(&self) -> usize
        ensures { result ≡ length self.now.list }
    {
        self.list.len()
    }

    /// Makes room for one more. For more than so many as wait at most there is none.
    pub fn reserve(&mut self) -> Result<(), NoMemory>
        ensures room { OnOk result (HasRoom self.new) }
        ensures list { self.new.list ≡ self.old.list }
    {
        if self.list.len() >= MAX_REQUESTS {
            return Err(NoMemory);
        }
        self.list.reserve(1)?;
        Ok(())
    }

    /// Puts a request behind the others, which is due now. Its message ID is 0. There is room for it.
    pub fn add(&mut self, now: Moment, to: Addr, purpose: Purpose, bytes: Vec<u8>)
        requires { HasRoom self.old }
        ensures list { self.new.list ≡ with_request self.old.list now to purpose bytes.items }
        ensures capacity { self.new.capacity ≡ self.old.capacity }
    {
        self.list
            .push_reserved(PendingRequest::new(now, to, purpose, bytes));
    }

    /// Whether one is due.
    pub fn is_due(&self, now: Moment) -> bool
        ensures { result ≡ list_any (is_due_in (ms_of now)) self.now.list }
    {
        let now = now.ms();
        self.list.iter().any(|request| request.is_due(now))
    }

    /// Does what is to be done with the first that is due, if one is.
    pub fn step(&mut self, now: Moment, ids: &mut MessageIds) -> Result<Option<Step>, NoMemory>
        ensures stepped { IfOk result (λ step.
            IsStepped now self.old.list ids.old (option_map step_content step) self.new.list ids.new) }
        ensures unchanged { OnErr result ((self.new ≡ self.old) × (ids.new ≡ ids.old)) }
    {
        let Some(place) = self.place_due(now) else {
            return Ok(None);
        };
        Ok(Some(self.step_at(now, ids, place)?))
    }

    /// The place of the first that is due.
    fn place_due(&self, now: Moment) -> Option<usize>
        ensures place { result ≡ place_due_in now self.now.list }
        ensures within { IfSome result (λ place. place < length self.now.list) }
    {
        let now = now.ms();
        self.list.iter().position(|request| request.is_due(now))
    }

    fn step_at(&mut self, now: Moment, ids: &mut MessageIds, place: usize) -> Result<Step, NoMemory>
        requires { place < length self.old.list }
        ensures stepped { IfOk result (λ step. IsSteppedWith now self.old.list ids.old place (slice_get self.old.list place)
            (Some (step_content step)) self.new.list ids.new) }
        ensures unchanged { OnErr result ((self.new ≡ self.old) × (ids.new ≡ ids.old)) }
    {
        if !self.list[place].goes_on() {
            let given_up = self.list.remove(place);
            return Ok(Step::TimedOut(given_up.purpose));
        }
        self.list[place].step(self.alloc, now, ids)
    }

    /// Whether a datagram from the address answers a request, which then waits no more.
    pub fn match_response(&mut self, from: Addr, bytes: &[u8]) -> Matched
        ensures matched { result ≡ matched_in self.old.list from bytes.now }
        ensures list { self.new.list ≡ after_match self.old.list from bytes.now }
        ensures capacity { self.new.capacity ≡ self.old.capacity }
    {
        let Some(place) = self.place_answered(from, bytes) else {
            return Matched::Nothing;
        };
        let answered = self.list.remove(place);
        if is_reset(bytes) {
            Matched::Reset(answered.purpose)
        } else {
            Matched::Acknowledged(answered.purpose)
        }
    }

    fn place_answered(&self, from: Addr, bytes: &[u8]) -> Option<usize>
        ensures place { result ≡ place_answered_in from bytes.now self.now.list }
        ensures within { IfSome result (λ place. place < length self.now.list) }
    {
        self.list
            .iter()
            .position(|request| request.is_answered(from, bytes))
    }

    /// Lets the requests go that are for this.
    pub fn forget(&mut self, purpose: Purpose)
        ensures list { self.new.list ≡ without_purpose self.old.list purpose }
        ensures capacity { self.new.capacity ≡ self.old.capacity }
    {
        self.list
            .retain(|request| request.has_other_purpose(purpose));
    }
}
