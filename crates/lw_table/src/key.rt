ghost use Rattle.std.specs.Prelude.{◌≡◌, ◌↔◌, IsTrue, Contains};
ghost use Rattle.lw_reg.specs.Reading.{tokens_in};
ghost use Rattle.lw_table.specs.Keys.{HasKey};
ghost use Rattle.lw_table.specs.KeyOrder.{key_exact};
ghost use Rattle.lw_table.specs.inner.Keys.{token_in};
ghost use Rattle.lw_table.specs.declared.key.Key.TheVariants.{Address as TheAddress};

use lw_join::{Exact, OrGone};
use lw_reg::{Addr, Path, Slot, Watching};
use lw_stamp::Stamp;

/// By what a registration is found beside its endpoint, while it is not removed.
#[derive(Clone, Copy, Debug, PartialEq, Eq, PartialOrd, Ord)]
pub enum Key {
    /// Its identifier.
    Id(Stamp),
    /// The address that counts.
    Address(Addr),
    /// The token of a watch of it that was not cancelled.
    Token(Stamp),
}

impl Exact for Key {
    ghost exact = { key_exact };
}

/// Whether the slot has the key. For a token it is a walk over the watches.
pub(crate) fn has(slot: &Slot, key: &Key) -> bool
    ensures { IsTrue result ↔ HasKey slot.now key.now }
{
    match key {
        Key::Id(id) => !slot.is_removed() && slot.stamp() == *id,
        Key::Address(address) => has_address(slot, *address),
        Key::Token(token) => has_token(slot.watches(), *token),
    }
}

fn has_address(slot: &Slot, address: Addr) -> bool
    ensures { IsTrue result ↔ HasKey slot.now (TheAddress address) }
{
    match slot.address() {
        None => false,
        Some((_, last)) => last == address,
    }
}

fn has_token(watches: &[(Path, Watching)], token: Stamp) -> bool
    ensures { IsTrue result ↔ Contains (tokens_in watches.now) token }
{
    for (_, watching) in watches {
        if token_of(watching) == Some(token) {
            return true;
        }
    }
    false
}

/// The token of a watch, unless it was cancelled.
pub(crate) fn token_of(watching: &Watching) -> Option<Stamp>
    ensures { result ≡ token_in watching.now }
{
    match watching.value {
        OrGone::Gone => None,
        OrGone::Here(_) => Some(watching.stamp),
    }
}
