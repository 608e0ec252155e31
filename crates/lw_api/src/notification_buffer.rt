//! What devices told, each under its number.

ghost use Rattle.std.specs.Prelude.{◌≡◌, ◌<◌, ◌≤◌, ◌+◌, ◌^◌, ℕ, [], length, OnErr, OnOk};
ghost use Rattle.lw_api.specs.NotificationBuffer.{HasRoom, first_kept, kept, most, next_of, with_notification};
ghost use Rattle.lw_api.specs.Notifications.{page_from};

use lw_node::Notice;
use lw_stamp::NoMemory;
use std::alloc::Global;
use std::marker::Model;

/// How many notices are kept at most.
pub const MAX_NOTIFICATIONS: usize = 10_000;

/// How many go where so many are kept: the older half.
const HALF: usize = MAX_NOTIFICATIONS / 2;

/// What a device told of an observation.
#[derive(Drop)]
pub struct BufferedNotification {
    pub notice: Notice,
    /// Whether its payload is whole.
    pub is_complete: bool,
}

impl Model for BufferedNotification {
    ghost use Rattle.lw_api.specs.NotificationBuffer.{BufferedNotificationContent};

    ghost Value = { BufferedNotificationContent };

    ghost view = { λ n. record { notice = n.notice; is_complete = n.is_complete } };
}

/// What devices told since the server was started, numbered from 0 in the order in which it came.
///
/// At most `MAX_NOTIFICATIONS` are kept: before one more is put behind so many, the older half goes. Numbers go on.
#[derive(Drop)]
pub struct NotificationBuffer {
    /// The number of the first that is kept.
    first: u64,
    list: Vec<BufferedNotification>,
}

impl Model for NotificationBuffer {
    ghost use Rattle.std.specs.Prelude.{◌<◌, ◌≤◌, ◌+◌, ◌^◌, length, vec_capacity};
    ghost use Rattle.lw_api.specs.NotificationBuffer.{NotificationBufferContent, most};

    ghost Value = { NotificationBufferContent };

    ghost view = { λ n. record { first = n.first; list = n.list.items; capacity = vec_capacity n.list } };

    ghost invariant = { λ n. (length n.list.items ≤ most) × (n.first + length n.list.items < 2 ^ 64) };
}

impl NotificationBuffer {
    /// None yet.
    pub fn new(alloc: Global) -> NotificationBuffer
        ensures { result ≡ record { first = 0; list = []; capacity = 0 } }
    {
        NotificationBuffer {
            first: 0,
            list: Vec::new(alloc),
        }
    }

    /// Makes room for so many more. Where there would be no number below 2^64 there is no memory: so many are never
    /// told.
    pub fn reserve(&mut self, more: usize) -> Result<(), NoMemory>
        ensures room { OnOk result (HasRoom self.new more) }
        ensures list { self.new ≡ record (self.old) { capacity = self.new.capacity } }
        ensures capacity { self.old.capacity ≤ self.new.capacity }
        ensures unchanged { OnErr result (self.new ≡ self.old) }
    {
        if u64::MAX - self.next() < more as u64 {
            return Err(NoMemory);
        }
        let wanted = self.list.len().saturating_add(more).min(MAX_NOTIFICATIONS);
        self.list.reserve(wanted - self.list.len())?;
        Ok(())
    }

    /// Puts one more behind the others, and lets the older half go before where `MAX_NOTIFICATIONS` are kept. There is
    /// room for it, and one place of the room is taken.
    pub fn push(&mut self, notification: BufferedNotification)
        requires { HasRoom self.old 1 }
        ensures notification { self.new ≡ with_notification self.old notification }
        ensures room { (more : ℕ) → HasRoom self.old (more + 1) → HasRoom self.new more }
    {
        self.make_way();
        self.list.push_reserved(notification);
    }

    /// Lets the older half go where `MAX_NOTIFICATIONS` are kept.
    fn make_way(&mut self)
        requires { HasRoom self.old 1 }
        ensures kept { self.new ≡ record { first = first_kept self.old; list = kept self.old; capacity = self.old.capacity } }
        ensures room { (length self.new.list < most) × (length self.new.list < self.new.capacity) }
        ensures next { next_of self.new ≡ next_of self.old }
    {
        if self.list.len() >= MAX_NOTIFICATIONS {
            self.list.drain(..HALF);
            self.first += HALF as u64;
        }
    }

    /// How many are kept.
    pub fn count(&self) -> usize
        ensures { result ≡ length self.now.list }
    {
        self.list.len()
    }

    /// The number of the next.
    pub fn next(&self) -> u64
        ensures { result ≡ next_of self.now }
    {
        self.first + self.list.len() as u64
    }

    /// The number of the first that is kept; where none is, that of the next.
    pub(crate) fn first(&self) -> u64
        ensures { result ≡ self.now.first }
    {
        self.first
    }

    /// Those from the number on, so many at most.
    pub(crate) fn page(&self, from: u64, limit: usize) -> &[BufferedNotification]
        requires { self.now.first ≤ from }
        ensures page { result.now ≡ page_from self.now from limit }
        ensures numbers { from + length result.now < 2 ^ 64 }
    {
        let count = self.list.len();
        let start = (from - self.first).min(count as u64) as usize;
        let rest = &self.list[start..];
        &rest[..limit.min(rest.len())]
    }
}
