//! Which keys may come or go where a slot is joined to another.

ghost use Rattle.std.specs.Prelude.{◌≡◌, ◌++◌, IfOk, OnOk};
ghost use Rattle.std.specs.Option.{option_copied};
ghost use Rattle.lw_reg.specs.Reading.{address_of, stamp_of, watches_of};
ghost use Rattle.lw_table.specs.inner.KeyChanges.{HasKeyChanges, address_key, changes, id_key, keys_in, token_key, token_keys, token_was, turned, turned_tokens, differing_addresses, differing_tokens, is_one};
ghost use Rattle.lw_table.specs.inner.Keys.{token_in};

use crate::key::{Key, token_of};
use lw_reg::{Addr, Path, Slot, Watching};
use lw_stamp::{NoMemory, Stamp};
use std::alloc::Global;

/// The keys that come or go where the second slot is joined to the first, among the keys of both. A slot that
/// brings or takes none takes no memory.
pub(crate) fn key_changes(
    alloc: Global,
    old: Option<&Slot>,
    other: &Slot,
) -> Result<Vec<Key>, NoMemory>
    ensures { IfOk result (λ keys. HasKeyChanges (option_copied old.entry) other.now keys.items) }
{
    let mut keys = Vec::new(alloc);
    push_changes(&mut keys, old, other)?;
    Ok(keys)
}

fn push_changes(keys: &mut Vec<Key>, old: Option<&Slot>, other: &Slot) -> Result<(), NoMemory>
    ensures { OnOk result (keys.new.items ≡ keys.old.items ++ changes (option_copied old.entry) other.now) }
{
    match old {
        None => push_all(keys, other),
        Some(old) => push_key_changes(keys, old, other),
    }
}

fn push_key_changes(keys: &mut Vec<Key>, old: &Slot, other: &Slot) -> Result<(), NoMemory>
    ensures { OnOk result (keys.new.items ≡ keys.old.items ++ turned old.now other.now) }
{
    if is_one(old, other) {
        push_addresses(keys, old, other)?;
        return push_turned(keys, old, other.watches());
    }
    push_all(keys, old)?;
    push_all(keys, other)
}

// Whether both are about one registration that neither removed.
fn is_one(old: &Slot, other: &Slot) -> bool
    ensures { result ≡ is_one old.now other.now }
{
    old.stamp() == other.stamp() && !old.is_removed() && !other.is_removed()
}

fn push_all(keys: &mut Vec<Key>, slot: &Slot) -> Result<(), NoMemory>
    ensures { OnOk result (keys.new.items ≡ keys.old.items ++ keys_in slot.now) }
{
    push_id(keys, slot)?;
    push_address(keys, slot.address())?;
    push_tokens(keys, slot.watches())
}

fn push_id(keys: &mut Vec<Key>, slot: &Slot) -> Result<(), NoMemory>
    ensures { OnOk result (keys.new.items ≡ keys.old.items ++ id_key slot.now.registration.value (stamp_of slot.now)) }
{
    if slot.is_removed() {
        return Ok(());
    }
    keys.push(Key::Id(slot.stamp()))?;
    Ok(())
}

fn push_address(keys: &mut Vec<Key>, write: Option<(Stamp, Addr)>) -> Result<(), NoMemory>
    ensures { OnOk result (keys.new.items ≡ keys.old.items ++ address_key write) }
{
    if let Some((_, address)) = write {
        keys.push(Key::Address(address))?;
    }
    Ok(())
}

fn push_tokens(keys: &mut Vec<Key>, watches: &[(Path, Watching)]) -> Result<(), NoMemory>
    ensures { OnOk result (keys.new.items ≡ keys.old.items ++ token_keys watches.now) }
{
    for (_, watching) in watches {
        push_token(keys, token_of(watching))?;
    }
    Ok(())
}

fn push_token(keys: &mut Vec<Key>, token: Option<Stamp>) -> Result<(), NoMemory>
    ensures { OnOk result (keys.new.items ≡ keys.old.items ++ token_key token) }
{
    if let Some(token) = token {
        keys.push(Key::Token(token))?;
    }
    Ok(())
}

// The addresses that count, where the second has another.
fn push_addresses(keys: &mut Vec<Key>, old: &Slot, other: &Slot) -> Result<(), NoMemory>
    ensures { OnOk result (keys.new.items ≡ keys.old.items
        ++ differing_addresses (address_of old.now) (address_of other.now)) }
{
    let Some((_, address)) = other.address() else {
        return Ok(());
    };
    if let Some((_, last)) = old.address() {
        if last == address {
            return Ok(());
        }
        keys.push(Key::Address(last))?;
    }
    keys.push(Key::Address(address))?;
    Ok(())
}

// Path by path of the watches, the tokens where they differ.
fn push_turned(
    keys: &mut Vec<Key>,
    old: &Slot,
    watches: &[(Path, Watching)],
) -> Result<(), NoMemory>
    ensures { OnOk result (keys.new.items ≡ keys.old.items ++ turned_tokens (watches_of old.now) watches.now) }
{
    for (path, watching) in watches {
        push_differing(keys, old.watching(path), watching)?;
    }
    Ok(())
}

fn push_differing(
    keys: &mut Vec<Key>,
    old: Option<&Watching>,
    other: &Watching,
) -> Result<(), NoMemory>
    ensures { OnOk result (keys.new.items ≡ keys.old.items
        ++ differing_tokens (token_was (option_copied old.entry)) (token_in other.now)) }
{
    let was = token_was(old);
    let is = token_of(other);
    if was == is {
        return Ok(());
    }
    push_token(keys, was)?;
    push_token(keys, is)
}

fn token_was(old: Option<&Watching>) -> Option<Stamp>
    ensures { result ≡ token_was (option_copied old.entry) }
{
    match old {
        None => None,
        Some(watching) => token_of(watching),
    }
}
