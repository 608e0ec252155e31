//! A request of the server's own that waits for an answer.

ghost use Rattle.std.specs.Prelude.{◌≡◌, ◌<◌, nat_lt, IfOk, OnErr};
ghost use Rattle.lw_stamp.specs.Moment.{ms_of};
ghost use Rattle.lw_messaging.specs.PendingRequest.{has_type as has_type_in, is_acknowledgement as is_acknowledgement_in, is_answered as is_answered_in, is_due as is_due_in, has_other_purpose as has_other_purpose_in, is_reset as is_reset_in, is_separate as is_separate_in, is_told as is_told_in, most_sent, postponed, same_purpose, sent_again, sent_first, step_content, timeout_behind as timeout_in, token_in as token_of};
ghost use Rattle.lw_messaging.specs.inner.PendingRequest.{IsSteppedTo};

use crate::message_ids::{MessageIds, put_message_id};
use crate::outgoing_requests::Step;
use crate::request::message_id;
use lw_reg::Addr;
use lw_stamp::{Moment, NoMemory, Stamp};
use std::alloc::Global;
use std::marker::Model;

/// ACK_TIMEOUT in milliseconds (RFC 7252, section 4.8).
const ACK_TIMEOUT_MS: u64 = 2_000;

/// By how many milliseconds the first time-outs differ: ACK_RANDOM_FACTOR is 1.5.
const SPREAD_MS: u64 = 1_000;

/// How often a request is sent at most: once, and MAX_RETRANSMIT times again.
const MOST_SENT: u32 = 5;

/// In how many milliseconds a message ID is looked for again.
const POSTPONED_MS: u64 = 1_000;

const CONFIRMABLE: u8 = 0;

const NON_CONFIRMABLE: u8 = 1;

const ACKNOWLEDGEMENT: u8 = 2;

const RESET: u8 = 3;

/// How many bytes a header has.
const HEADER: usize = 4;

/// What a request is for.
#[derive(Clone, Copy, Debug, PartialEq, Eq)]
pub enum Purpose {
    /// It asks for the observation with the token.
    Observation(Stamp),
    /// It ends the observation with the token.
    Cancellation(Stamp),
    /// It asks for a block of the notification whose fetch has the number.
    Rest(u32),
}

impl Purpose {
    fn is_same(self, other: Purpose) -> bool
        ensures { result ≡ same_purpose self other }
    {
        match (self, other) {
            (Purpose::Observation(a), Purpose::Observation(b)) => a == b,
            (Purpose::Cancellation(a), Purpose::Cancellation(b)) => a == b,
            (Purpose::Rest(a), Purpose::Rest(b)) => a == b,
            _ => false,
        }
    }
}

/// A request that waits.
#[derive(Drop)]
pub(crate) struct PendingRequest {
    pub(crate) to: Addr,
    pub(crate) purpose: Purpose,
    pub(crate) bytes: Vec<u8>,
    /// Its message ID, once it was sent.
    id: u16,
    /// How often it was sent.
    pub(crate) sent: u32,
    /// The moment in milliseconds at which it is sent next, or given up.
    due: u64,
}

impl Model for PendingRequest {
    ghost use Rattle.std.specs.Prelude.{◌≤◌};
    ghost use Rattle.lw_messaging.specs.PendingRequest.{PendingContent};

    ghost Value = { PendingContent };

    ghost view = { λ w. record { to = w.to; purpose = w.purpose; bytes = w.bytes.items; id = w.id; sent = w.sent; due = w.due } };

    ghost invariant = { λ w. w.sent ≤ 5 };
}

impl PendingRequest {
    /// A request that is sent first at the moment.
    pub(crate) fn new(now: Moment, to: Addr, purpose: Purpose, bytes: Vec<u8>) -> PendingRequest
        ensures { result ≡ record { to = to; purpose = purpose; bytes = bytes.items; id = 0; sent = 0; due = ms_of now } }
    {
        PendingRequest {
            to,
            purpose,
            bytes,
            id: 0,
            sent: 0,
            due: now.ms(),
        }
    }

    /// Whether it is to be sent, or given up.
    pub(crate) fn is_due(&self, now: u64) -> bool
        ensures { result ≡ is_due_in now self.now }
    {
        self.due <= now
    }

    /// Whether it may be sent once more.
    pub(crate) fn goes_on(&self) -> bool
        ensures { result ≡ nat_lt self.now.sent most_sent }
    {
        self.sent < MOST_SENT
    }

    /// Sends it, or postpones it.
    pub(crate) fn step(
        &mut self,
        alloc: Global,
        now: Moment,
        ids: &mut MessageIds,
    ) -> Result<Step, NoMemory>
        requires { self.old.sent < 5 }
        ensures stepped { IfOk result (λ step. IsSteppedTo now ids.old self.old (step_content step) self.new ids.new) }
        ensures unchanged { OnErr result ((self.new ≡ self.old) × (ids.new ≡ ids.old)) }
    {
        let mut bytes = Vec::from_slice(alloc, &self.bytes)?;
        if self.sent > 0 {
            self.send_again(now);
            return Ok(Step::Send {
                to: self.to,
                bytes,
                again: true,
            });
        }
        let Some(id) = ids.next(now, self.to) else {
            self.postpone(now);
            return Ok(Step::Postponed);
        };
        self.send_first(now, id);
        put_message_id(&mut bytes, id);
        Ok(Step::Send {
            to: self.to,
            bytes,
            again: false,
        })
    }

    /// It is sent for the first time, under the message ID.
    pub(crate) fn send_first(&mut self, now: Moment, id: u16)
        ensures { self.new ≡ sent_first (ms_of now) self.old id }
    {
        put_message_id(&mut self.bytes, id);
        self.id = id;
        self.sent = 1;
        self.due = now.ms() + timeout(id, 0);
    }

    /// It is sent again.
    pub(crate) fn send_again(&mut self, now: Moment)
        requires { self.old.sent < 5 }
        ensures { self.new ≡ sent_again (ms_of now) self.old }
    {
        self.due = now.ms() + timeout(self.id, self.sent);
        self.sent += 1;
    }

    /// It waits for a message ID.
    pub(crate) fn postpone(&mut self, now: Moment)
        ensures { self.new ≡ postponed (ms_of now) self.old }
    {
        self.due = now.ms() + POSTPONED_MS;
    }

    /// Whether a datagram from the address answers it.
    pub(crate) fn is_answered(&self, from: Addr, bytes: &[u8]) -> bool
        ensures { result ≡ is_answered_in from bytes.now self.now }
    {
        self.to == from && self.sent > 0 && self.is_told(bytes)
    }

    /// Whether a datagram has its message ID, or its token.
    fn is_told(&self, bytes: &[u8]) -> bool
        ensures { result ≡ is_told_in self.now bytes.now }
    {
        (is_acknowledgement(bytes) || is_reset(bytes)) && message_id(bytes) == self.id
            || is_separate(bytes) && token_in(bytes) == token_in(&self.bytes)
    }

    /// Whether it is not for this.
    pub(crate) fn has_other_purpose(&self, purpose: Purpose) -> bool
        ensures { result ≡ has_other_purpose_in purpose self.now }
    {
        !self.purpose.is_same(purpose)
    }
}

/// For how many milliseconds is waited, where a request was sent so often before.
fn timeout(id: u16, sent: u32) -> u64
    requires { sent < 5 }
    ensures value { result ≡ timeout_in id sent }
    ensures most { result < 48000 }
{
    (ACK_TIMEOUT_MS + u64::from(id) % SPREAD_MS) << sent
}

/// Whether the version is 1, and the type is that of the number.
fn has_type(bytes: &[u8], number: u8) -> bool
    ensures { result ≡ has_type_in number bytes.now }
{
    match bytes.first() {
        Some(first) => first / 64 == 1 && first / 16 % 4 == number,
        None => false,
    }
}

fn is_acknowledgement(bytes: &[u8]) -> bool
    ensures { result ≡ is_acknowledgement_in bytes.now }
{
    bytes.len() >= HEADER && has_type(bytes, ACKNOWLEDGEMENT)
}

/// Whether the datagram is a Reset, which is empty.
pub(crate) fn is_reset(bytes: &[u8]) -> bool
    ensures { result ≡ is_reset_in bytes.now }
{
    bytes.len() == HEADER && has_type(bytes, RESET)
}

/// Whether the datagram is a response of its own, and no acknowledgement.
fn is_separate(bytes: &[u8]) -> bool
    ensures { result ≡ is_separate_in bytes.now }
{
    bytes.len() >= HEADER
        && (has_type(bytes, CONFIRMABLE) || has_type(bytes, NON_CONFIRMABLE))
        && 64 <= bytes[1]
        && bytes[1] < 192
}

/// The token of a message.
pub(crate) fn token_in(bytes: &[u8]) -> &[u8]
    ensures { result.now ≡ token_of bytes.now }
{
    match bytes {
        [first, _, _, _, rest @ ..] => &rest[..usize::from(first % 16).min(rest.len())],
        _ => &[],
    }
}
