ghost use Rattle.std.specs.Prelude.{◌≡◌, ◌∷◌, ◌++◌, [], OnOk, OnErr, option_map};
ghost use Rattle.lw_messaging.specs.Replies.{IsBounded, let_go, replied};

use crate::exchange::Exchange;
use crate::held::Held;
use lw_reg::Addr;
use lw_stamp::{Moment, NoMemory};
use std::alloc::Global;
use std::marker::Model;

/// How many exchanges are kept at most.
pub const MAX_EXCHANGES: usize = 65_536;

/// How many bytes of requests and replies are kept at most.
pub const MAX_BYTES: usize = 16_777_216;

/// The last requests that were answered, and what was replied.
///
/// A look-up costs a descent of a balanced tree of the sources and message IDs, and a comparison of the bytes.
#[derive(Drop)]
pub struct Replies {
    held: Held,
}

impl Model for Replies {
    ghost use Rattle.std.specs.Prelude.{List};
    ghost use Rattle.lw_messaging.specs.declared.exchange.Exchange.{Exchange};
    ghost use Rattle.lw_messaging.specs.Replies.{IsBounded};

    ghost Value = { List Exchange };

    ghost view = { λ r. r.held };

    ghost invariant = { λ r. IsBounded r.held };
}

impl Replies {
    /// None yet.
    pub fn new(alloc: Global) -> Replies
        ensures { result ≡ [] }
    {
        Replies {
            held: Held::new(alloc),
        }
    }

    /// What was replied to the datagram, if it came before: the same bytes from the same source, not longer ago than the
    /// lifetime of an exchange, and with no other request between that has its message ID.
    pub fn again(&self, now: Moment, from: Addr, bytes: &[u8]) -> Option<Option<&[u8]>>
        ensures replied { option_map (λ reply. option_map (λ r. r.now) reply) result
            ≡ replied now from bytes.now self.now }
        ensures bounded { IsBounded self.now }
    {
        let exchange = self.held.latest(from, bytes)?;
        if !exchange.is_within(now) || exchange.bytes.as_slice() != bytes {
            return None;
        }
        Some(exchange.reply())
    }

    /// Keeps an exchange behind the others, and lets the oldest go, as many as are too old or too much.
    pub fn keep(&mut self, exchange: Exchange) -> Result<(), NoMemory>
        ensures kept { OnOk result (self.new ≡ let_go exchange.moment (self.old ++ exchange ∷ [])) }
        ensures unchanged { OnErr result (self.new ≡ self.old) }
        ensures bounded { IsBounded self.new }
    {
        let now = exchange.moment;
        self.held.push(exchange)?;
        self.held.let_go(now);
        Ok(())
    }
}
