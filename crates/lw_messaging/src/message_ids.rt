//! The message IDs of the server's own messages (RFC 7252, section 4.4).

ghost use Rattle.std.specs.Prelude.{◌≡◌, ◌<◌};
ghost use Rattle.lw_messaging.specs.MessageIds.{counter_of, allotted, counter_after, first_counter, with_message_id};

use lw_reg::Addr;
use lw_stamp::Moment;
use std::marker::Model;

/// How many counters there are.
const COUNTERS: usize = 16;

/// How many message IDs an epoch has: half of all.
const EPOCH: u16 = 32_768;

/// How long an epoch lasts at least, in milliseconds: EXCHANGE_LIFETIME (RFC 7252, section 4.8.2).
const LIFETIME_MS: u64 = 247_000;

/// How many milliseconds of a start count for one message ID.
const MS_PER_ID: u64 = 4;

/// A count of message IDs that some addresses share. It goes on in epochs of half of all message IDs.
#[derive(Clone, Copy)]
pub(crate) struct IdCounter {
    /// The message ID that is next.
    next: u16,
    /// How many are left of the epoch.
    left: u16,
    /// When the epoch began.
    began: Moment,
}

impl IdCounter {
    fn new(start: Moment) -> IdCounter
        ensures { result ≡ first_counter start }
    {
        IdCounter {
            next: (start.ms() / MS_PER_ID % 65_536) as u16,
            left: EPOCH,
            began: start,
        }
    }

    /// The next message ID. There is none where the epoch has no more, and began too short a time ago for another one.
    fn next(&mut self, now: Moment) -> Option<u16>
        ensures given { result ≡ allotted self.old now }
        ensures counter { self.new ≡ counter_after self.old now }
    {
        if self.left == 0 {
            if now.ms() <= self.began.ms() + LIFETIME_MS {
                return None;
            }
            self.left = EPOCH;
            self.began = now;
        }
        let id = self.next;
        self.next = id.wrapping_add(1);
        self.left -= 1;
        Some(id)
    }
}

/// Which message ID is next for each address. None is given twice to one address in 247 seconds.
#[derive(Drop)]
pub struct MessageIds {
    counters: [IdCounter; COUNTERS],
}

impl Model for MessageIds {
    ghost use Rattle.std.specs.Prelude.{List};
    ghost use Rattle.lw_messaging.specs.declared.message_ids.IdCounter.{IdCounter};

    ghost Value = { List IdCounter };

    ghost view = { λ m. m.counters };
}

impl MessageIds {
    ghost use Rattle.lw_messaging.specs.MessageIds.{first_counters, allotted_to, counters_after};

    /// The counters of a server that starts at the moment. A start within 262 s gives none again, unless more than 250
    /// a second were given.
    pub fn new(start: Moment) -> MessageIds
        ensures { result ≡ first_counters start }
    {
        MessageIds {
            counters: [IdCounter::new(start); COUNTERS],
        }
    }

    /// The next message ID for the address. There is none where its counter has given half of all within 247 s.
    pub fn next(&mut self, now: Moment, to: Addr) -> Option<u16>
        ensures given { result ≡ allotted_to self.old now to }
        ensures counters { self.new ≡ counters_after self.old now to }
    {
        let counter = &mut self.counters[counter_of(to)];
        counter.next(now)
    }
}

/// The counter of an address.
fn counter_of(to: Addr) -> usize
    ensures value { result ≡ counter_of to }
    ensures below { result < 16 }
{
    let (last, port) = match to {
        Addr::V4 { address, port } => (address[3], port),
        Addr::V6 { address, port } => (address[15], port),
    };
    (usize::from(last) + usize::from(port)) % COUNTERS
}

/// Puts the message ID into a message. Bytes that are fewer than a header has stay as they are.
pub fn put_message_id(bytes: &mut [u8], id: u16)
    ensures { bytes.new ≡ with_message_id id bytes.old }
{
    let [high, low] = id.to_be_bytes();
    if bytes.len() >= 4 {
        bytes[2] = high;
        bytes[3] = low;
    }
}
