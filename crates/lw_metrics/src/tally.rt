//! How often each thing was done.

ghost use Rattle.std.specs.Prelude.{◌≡◌, fold};
ghost use Rattle.lw_metrics.specs.Counting.{one_more as one_more_of};

use crate::REPLY_CODES;
use crate::reply_codes::place_of;
use lw_call::{Call, MergeFault, ObserveFault, Reply, Taken};
use lw_coap::codes::EMPTY;
use lw_stamp::NoMemory;

/// How often each thing was done in the rounds of a server since it was started. A number stays at 2^64 - 1.
#[derive(Clone, Copy, Debug)]
pub struct Tally {
    pub rounds: u64,
    pub datagrams: u64,
    /// The replies with each of the codes of `REPLY_CODES`, in their order.
    pub replies: [u64; 12],
    /// The replies that are empty messages.
    pub empty_replies: u64,
    /// The datagrams that are owed no reply.
    pub unanswered: u64,
    /// What devices tell of observations.
    pub notifications: u64,
    /// The registrations that had expired and were ended.
    pub swept: u64,
    /// The calls that failed for want of memory.
    pub no_memory: u64,
}

impl Tally {
    ghost use Rattle.lw_metrics.specs.Counting.{new_tally, counted, with_call, with_reply, with_taken, with_bytes, with_code};

    /// A tally of nothing.
    pub fn new() -> Tally
        ensures { result ≡ new_tally }
    {
        Tally {
            rounds: 0,
            datagrams: 0,
            replies: [0; REPLY_CODES.len()],
            empty_replies: 0,
            unanswered: 0,
            notifications: 0,
            swept: 0,
            no_memory: 0,
        }
    }

    /// Counts a round: its calls, and what came of them.
    pub fn count(&mut self, calls: &[Call], replies: &[Reply])
        ensures { self.new ≡ counted self.old calls.now replies.now }
    {
        self.rounds = one_more(self.rounds);
        self.count_calls(calls);
        self.count_replies(replies);
    }

    fn count_calls(&mut self, calls: &[Call])
        ensures { self.new ≡ fold with_call self.old calls.now }
    {
        for call in calls {
            self.count_call(call);
        }
    }

    fn count_call(&mut self, call: &Call)
        ensures { self.new ≡ with_call self.old call.now }
    {
        if let Call::Take { .. } = call {
            self.datagrams = one_more(self.datagrams);
        }
    }

    fn count_replies(&mut self, replies: &[Reply])
        ensures { self.new ≡ fold with_reply self.old replies.now }
    {
        for reply in replies {
            self.count_reply(reply);
        }
    }

    fn count_reply(&mut self, reply: &Reply)
        ensures { self.new ≡ with_reply self.old reply.now }
    {
        match reply {
            Reply::Take(Ok(taken)) => self.count_taken(taken),
            Reply::Sweep(Ok(Some(_))) => self.swept = one_more(self.swept),
            Reply::Take(Err(NoMemory))
            | Reply::Observe(Err(ObserveFault::NoMemory))
            | Reply::Cancel(Err(ObserveFault::NoMemory))
            | Reply::Send(Err(NoMemory))
            | Reply::Merge(Err(MergeFault::NoMemory { .. }))
            | Reply::Ask(Err(NoMemory)) => self.no_memory = one_more(self.no_memory),
            _ => {}
        }
    }

    fn count_taken(&mut self, taken: &Taken)
        ensures { self.new ≡ with_taken self.old taken.now }
    {
        match &taken.reply {
            Some(bytes) => self.count_bytes(bytes),
            None => self.unanswered = one_more(self.unanswered),
        }
        if taken.notice.is_some() {
            self.notifications = one_more(self.notifications);
        }
    }

    /// Counts a reply by its code, which is the second byte (RFC 7252, section 3).
    fn count_bytes(&mut self, bytes: &[u8])
        ensures { self.new ≡ with_bytes self.old bytes.now }
    {
        if let [_, code, ..] = bytes {
            self.count_code(*code);
        }
    }

    fn count_code(&mut self, code: u8)
        ensures { self.new ≡ with_code self.old code }
    {
        if code == EMPTY {
            self.empty_replies = one_more(self.empty_replies);
        } else if let Some(place) = place_of(code) {
            self.replies[place] = one_more(self.replies[place]);
        }
    }
}

/// One more, up to 2^64 - 1.
pub(crate) fn one_more(number: u64) -> u64
    ensures { result ≡ one_more_of number }
{
    number.saturating_add(1)
}
