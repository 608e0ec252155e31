ghost use Rattle.std.specs.Prelude.{◌≡◌, ◌≤◌, ◌<◌, ◌^◌, [], length, filter, Some, OnOk, OnErr};
ghost use Rattle.lw_messaging.specs.Freshness.{is_ahead as is_ahead_of, is_old as is_old_at, is_newer as is_newer_in};
ghost use Rattle.lw_messaging.specs.Freshness.{is_newer_than, put as put_in};
ghost use Rattle.lw_messaging.specs.Freshness.{has_room as has_room_in, with_room, noted, without, is_young};

use lw_stamp::{Moment, NoMemory, Stamp};
use std::alloc::Global;
use std::collections::BTreeMap;
use std::marker::Model;

/// The most tokens of which something is kept.
const MAX_TOKENS: usize = 65_536;

/// Half of the numbers of 24 bits.
const HALF_ROUND: u32 = 1 << 23;

/// After how many milliseconds any notification is newer.
const OLD_MS: u64 = 128_000;

/// The Observe number of a notification, and when it came.
#[derive(Clone, Copy)]
pub(crate) struct Newest {
    observe: u32,
    at: Moment,
}

impl Newest {
    fn is_old(&self, now: Moment) -> bool
        ensures { result ≡ is_old_at now self.now }
    {
        self.at.ms() + OLD_MS < now.ms()
    }

    /// Whether a notification with the number is newer.
    fn is_before(&self, now: Moment, observe: u32) -> bool
        ensures { result ≡ is_newer_than (Some self.now) now observe }
    {
        is_ahead(self.observe, observe) || self.is_old(now)
    }
}

/// The newest notification that was told of each observation, by its token.
///
/// At most 65,536 tokens are kept. Where there are so many, those of which nothing came for 128 s go.
#[derive(Drop)]
pub struct Freshness {
    newest: BTreeMap<Stamp, Newest>,
}

impl Model for Freshness {
    ghost use Rattle.std.specs.Prelude.{◌≤◌, length};
    ghost use Rattle.std.specs.BTreeMap.{IsOrdered};
    ghost use Rattle.lw_stamp.specs.StampOrder.{stamp_cmp};
    ghost use Rattle.lw_messaging.specs.Freshness.{Kept};

    ghost Value = { Kept };

    ghost view = { λ s. s.newest.entries };

    ghost invariant = { λ s. length s.newest.entries ≤ 65536 };
}

impl Freshness {
    /// Nothing is kept yet.
    pub fn new(alloc: Global) -> Freshness
        ensures { result ≡ [] }
    {
        Freshness {
            newest: BTreeMap::new(alloc),
        }
    }

    /// How many tokens are kept.
    pub fn count(&self) -> usize
        ensures count { result ≡ length self.now }
        ensures bounded { length self.now ≤ 65536 }
    {
        self.newest.len()
    }

    /// Whether a notification with the Observe number is newer than the one that is kept.
    pub fn is_newer(&self, now: Moment, token: Stamp, observe: u32) -> bool
        ensures { result ≡ is_newer_in self.now now token observe }
    {
        match self.newest.get(&token) {
            Some(newest) => newest.is_before(now, observe),
            None => true,
        }
    }

    /// Keeps the number as the newest. Where so many are kept that there is no room, and none is old, nothing is kept of
    /// the token, and each of its notifications is newer.
    pub fn note(&mut self, now: Moment, token: Stamp, observe: u32) -> Result<(), NoMemory>
        ensures noted { OnOk result (self.new ≡ noted self.old now token observe) }
        ensures memory { OnErr result (self.new ≡ with_room self.old now token) }
    {
        self.make_room(now, token);
        self.put(token, Newest { observe, at: now })
    }

    /// Lets those that are old go, where there is no room.
    fn make_room(&mut self, now: Moment, token: Stamp)
        ensures { self.new ≡ with_room self.old now token }
    {
        if !self.has_room(token) {
            drop_old(&mut self.newest, now);
        }
    }

    /// Keeps it of the token, where there is room.
    fn put(&mut self, token: Stamp, newest: Newest) -> Result<(), NoMemory>
        ensures put { OnOk result (self.new ≡ put_in self.old token newest) }
        ensures unchanged { OnErr result (self.new ≡ self.old) }
    {
        if self.has_room(token) {
            self.newest.insert(token, newest)?;
        }
        Ok(())
    }

    /// Whether it can be kept.
    fn has_room(&self, token: Stamp) -> bool
        ensures { result ≡ has_room_in self.now token }
    {
        self.newest.contains_key(&token) || self.newest.len() < MAX_TOKENS
    }

    /// Keeps nothing of the token.
    pub fn forget(&mut self, token: Stamp)
        ensures { self.new ≡ without self.old token }
    {
        self.newest.remove(&token);
    }
}

/// Lets those that are old go.
fn drop_old(newest: &mut BTreeMap<Stamp, Newest>, now: Moment)
    ensures young { newest.new.entries ≡ filter (is_young now) newest.old.entries }
    ensures fewer { length newest.new.entries ≤ length newest.old.entries }
{
    newest.retain(|_, newest| !newest.is_old(now));
}

/// Whether a number is less than half a round ahead of the known one.
fn is_ahead(known: u32, observe: u32) -> bool
    ensures { result ≡ is_ahead_of known observe }
{
    if known < observe {
        observe - known < HALF_ROUND
    } else {
        known - observe > HALF_ROUND
    }
}
