use crate::request::message_id;
use bytes::Bytes;
use lw_reg::Addr;
use lw_stamp::Moment;

/// A request, and what was replied.
#[derive(Drop)]
pub struct Exchange {
    /// The moment at which the request was answered.
    pub moment: Moment,
    /// Where the request came from.
    pub from: Addr,
    /// The datagram that it came in.
    pub bytes: Bytes,
    /// The datagram that it was answered by, if it was owed one.
    pub reply: Option<Bytes>,
}

/// EXCHANGE_LIFETIME, 247 seconds (RFC 7252, section 4.8.2).
const EXCHANGE_LIFETIME_MS: u64 = 247_000;

impl Exchange {
    ghost use Rattle.std.specs.Prelude.{◌≡◌, ◌+◌, ◌-◌, ◌<◌, ◌^◌, option_map, SomeIff};
    ghost use Rattle.lw_messaging.specs.Replies.{length_of, size_of, is_within as is_within_lifetime};
    ghost use Rattle.lw_messaging.specs.inner.Held.{key_of};

    /// Whether the moment is at most the lifetime of an exchange apart from its own.
    pub(crate) fn is_within(&self, now: Moment) -> bool
        ensures { result ≡ is_within_lifetime now self.now.moment }
    {
        self.moment.ms().abs_diff(now.ms()) <= EXCHANGE_LIFETIME_MS
    }

    /// The source and the message ID.
    pub(crate) fn key(&self) -> (Addr, u16)
        ensures { result ≡ key_of self.now }
    {
        (self.from, message_id(self.bytes.as_slice()))
    }

    /// A count of bytes with those of the request and the reply, where that is a number.
    pub(crate) fn added_to(&self, size: usize) -> Option<usize>
        ensures { SomeIff result (size + size_of self.now < 2 ^ 64) (size + size_of self.now) }
    {
        size.checked_add(self.bytes.len())?
            .checked_add(self.reply_len())
    }

    /// A count of bytes without those of the request and the reply.
    pub(crate) fn taken_from(&self, size: usize) -> usize
        ensures { result ≡ size - size_of self.now }
    {
        size.saturating_sub(self.bytes.len())
            .saturating_sub(self.reply_len())
    }

    fn reply_len(&self) -> usize
        ensures { result ≡ length_of self.now.reply }
    {
        match &self.reply {
            Some(reply) => reply.len(),
            None => 0,
        }
    }

    /// What was replied, if something was.
    pub(crate) fn reply(&self) -> Option<&[u8]>
        ensures { option_map (λ reply. reply.now) result ≡ self.now.reply }
    {
        match &self.reply {
            Some(reply) => Some(reply.as_slice()),
            None => None,
        }
    }
}
