//! Exchanges in the order in which they came, and where the latest one of each source and message ID stands.

ghost use Rattle.std.specs.Prelude.{◌≡◌, ◌≢◌, ◌∷◌, ◌++◌, [], OnOk, OnErr, Some, None, cond, drop};
ghost use Rattle.std.specs.Ordering.{is_eq};
ghost use Rattle.std.specs.Option.{option_copied};
ghost use Rattle.lw_messaging.specs.Header.{message_id as message_id_in};
ghost use Rattle.lw_messaging.specs.Replies.{IsBounded, latest_of, let_go as let_go_of};
ghost use Rattle.lw_messaging.specs.inner.Held.{Key as Keys, key_cmp, value_at, has_one_to_go as has_one_to_go_of};

use crate::exchange::Exchange;
use crate::replies::{MAX_BYTES, MAX_EXCHANGES};
use crate::request::message_id;
use lw_reg::Addr;
use lw_stamp::{Moment, NoMemory};
use std::alloc::Global;
use std::collections::{BTreeMap, VecDeque};
use std::marker::Model;

/// A source and a message ID.
type Key = (Addr, u16);

/// Exchanges, oldest first, each found by its source and message ID until another has them.
#[derive(Drop)]
pub(crate) struct Held {
    exchanges: VecDeque<Exchange>,
    /// The number of the latest exchange under each key. The exchanges are numbered on from the first.
    numbers: BTreeMap<Key, usize>,
    /// The number of the first exchange, which rises by one with each that goes.
    first: usize,
    /// How many bytes of requests and replies there are.
    size: usize,
}

impl Model for Held {
    ghost use Rattle.std.specs.Prelude.{List};
    ghost use Rattle.lw_messaging.specs.declared.exchange.Exchange.{Exchange};
    ghost use Rattle.lw_messaging.specs.inner.Held.{IsHeld};

    ghost Value = { List Exchange };

    ghost view = { λ h. h.exchanges.items };

    ghost invariant = { λ h. IsHeld h.numbers.entries h.first h.size h.exchanges.items };
}

impl Held {
    /// None yet.
    pub(crate) fn new(alloc: Global) -> Held
        ensures { result ≡ [] }
    {
        Held {
            exchanges: VecDeque::new(alloc),
            numbers: BTreeMap::new(alloc),
            first: 0,
            size: 0,
        }
    }

    /// The latest exchange with the source, and the message ID of the bytes.
    pub(crate) fn latest(&self, from: Addr, bytes: &[u8]) -> Option<&Exchange>
        ensures { option_copied result ≡ latest_of from (message_id_in bytes.now) self.now }
    {
        let number = *self.numbers.get(&(from, message_id(bytes)))?;
        self.exchanges.get(number.saturating_sub(self.first))
    }

    /// Puts an exchange behind the others. The count of bytes and the numbers have an end, as memory has.
    pub(crate) fn push(&mut self, exchange: Exchange) -> Result<(), NoMemory>
        ensures pushed { OnOk result (self.new ≡ self.old ++ exchange ∷ []) }
        ensures unchanged { OnErr result (self.new ≡ self.old) }
    {
        let Some(size) = exchange.added_to(self.size) else {
            return Err(NoMemory);
        };
        let number = self.first + self.exchanges.len();
        if number == usize::MAX {
            return Err(NoMemory);
        }
        self.exchanges.reserve(1)?;
        self.numbers.insert(exchange.key(), number)?;
        let Ok(()) = self.exchanges.push_back(exchange) else {
            unreachable!()
        };
        self.size = size;
        Ok(())
    }

    /// Lets the oldest go, as many as are too old or too much.
    pub(crate) fn let_go(&mut self, now: Moment)
        ensures left { self.new ≡ let_go_of now self.old }
        ensures bounded { IsBounded self.new }
    {
        while self.has_one_to_go(now) {
            self.drop_first();
        }
    }

    /// Whether the oldest has to go.
    fn has_one_to_go(&self, now: Moment) -> bool
        ensures { result ≡ has_one_to_go_of now self.now }
    {
        let Some(oldest) = self.exchanges.front() else {
            return false;
        };
        !oldest.is_within(now) || self.exchanges.len() > MAX_EXCHANGES || self.size > MAX_BYTES
    }

    /// Lets the oldest go, if there is one.
    fn drop_first(&mut self)
        ensures { self.new ≡ drop 1 self.old }
    {
        let Some(oldest) = self.exchanges.pop_front() else {
            return;
        };
        drop_number(&mut self.numbers, &oldest.key(), self.first);
        self.size = oldest.taken_from(self.size);
        self.first += 1;
    }
}

/// Takes the key out, where it has the number.
fn drop_number(numbers: &mut BTreeMap<Key, usize>, key: &Key, number: usize)
    ensures gone { value_at numbers.old.entries key.now ≡ Some number
        → (k : Keys) → value_at numbers.new.entries k
        ≡ cond (is_eq (key_cmp key.now k)) None (value_at numbers.old.entries k) }
    ensures stays { value_at numbers.old.entries key.now ≢ Some number
        → (k : Keys) → value_at numbers.new.entries k ≡ value_at numbers.old.entries k }
{
    if numbers.get(key).copied() == Some(number) {
        numbers.remove(key);
    }
}
