//! What devices told of what is observed.

ghost use Rattle.std.specs.Prelude.{◌≡◌, OnOk};
ghost use Rattle.lw_api.specs.NotificationBuffer.{HasRoom};
ghost use Rattle.lw_server.specs.Notifications.{is_newer_notice, new_notifications, number_of, with_capacity};
ghost use Rattle.lw_server.specs.Notifications.{IsNumberNoted, IsPublished, IsPublishedIf};

use lw_api::{BufferedNotification, NotificationBuffer};
use lw_call::Notice;
use lw_messaging::Freshness;
use lw_stamp::{Moment, NoMemory};
use std::alloc::Global;
use std::marker::Model;

/// The last notices, and what tells which of them are newer.
#[derive(Drop)]
pub(crate) struct Notifications {
    pub(crate) buffer: NotificationBuffer,
    freshness: Freshness,
    /// How many notifications were older than one before, and were not told.
    pub(crate) stale: u64,
}

impl Model for Notifications {
    ghost use Rattle.lw_server.specs.Notifications.{NotificationsContent};

    ghost Value = { NotificationsContent };

    ghost view = { λ t. record { buffer = t.buffer; freshness = t.freshness; stale = t.stale } };
}

impl Notifications {
    pub(crate) fn new(alloc: Global) -> Notifications
        ensures { result ≡ new_notifications }
    {
        Notifications {
            buffer: NotificationBuffer::new(alloc),
            freshness: Freshness::new(alloc),
            stale: 0,
        }
    }

    /// Makes room for so many notices more.
    pub(crate) fn reserve(&mut self, more: usize) -> Result<(), NoMemory>
        ensures room { OnOk result (HasRoom self.new.buffer more) }
        ensures same { self.new ≡ with_capacity self.old self.new.buffer.capacity }
    {
        self.buffer.reserve(more)
    }

    /// Tells a notice, if it is not older than one before. There is room for it.
    pub(crate) fn publish(&mut self, now: Moment, notice: Notice, is_complete: bool)
        requires { HasRoom self.old.buffer 1 }
        ensures { IsPublished now notice is_complete self.old self.new }
    {
        if !self.is_newer(now, &notice) {
            self.stale = self.stale.saturating_add(1);
            return;
        }
        self.note_number(now, &notice);
        self.buffer.push(BufferedNotification {
            notice,
            is_complete,
        });
    }

    /// Tells a notice, if there is one. There is room for it.
    pub(crate) fn publish_if_any(&mut self, now: Moment, notice: Option<Notice>, is_complete: bool)
        requires { HasRoom self.old.buffer 1 }
        ensures { IsPublishedIf now notice is_complete self.old self.new }
    {
        if let Some(notice) = notice {
            self.publish(now, notice, is_complete);
        }
    }

    /// Whether a notice is newer than what was told of its observation. What ends an observation always is.
    fn is_newer(&self, now: Moment, notice: &Notice) -> bool
        ensures { result ≡ is_newer_notice self.now.freshness now notice.now }
    {
        match notice.observe {
            Some(number) if !notice.ended => self.freshness.is_newer(now, notice.token, number),
            _ => true,
        }
    }

    /// Notes the number of a notice. Where there is no memory for that, it is not noted.
    fn note_number(&mut self, now: Moment, notice: &Notice)
        ensures noted { IsNumberNoted self.old.freshness now notice.now.token (number_of notice.now)
            self.new.freshness }
        ensures same { self.new ≡ record (self.old) { freshness = self.new.freshness } }
    {
        match notice.observe {
            Some(number) if !notice.ended => {
                let _noted = self.freshness.note(now, notice.token, number);
            }
            _ => self.freshness.forget(notice.token),
        }
    }
}
