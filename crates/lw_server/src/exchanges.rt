//! Requests that come twice: they are answered again, and not taken again.

ghost use Rattle.std.specs.Prelude.{◌≡◌, ◌&&◌, not, ◌++◌, ◌∷◌, [], cond, map, option_map, IfOk, OnErr, OnOk};
ghost use Rattle.std.specs.Option.{option_to_list};
ghost use Rattle.std.specs.List.{list_any};
ghost use Rattle.lw_server.specs.Exchanges.{again_to, exchange_of as exchange_in, exchanges_of, fresh_of as fresh_in, is_copy, kept_after, replied_to as replied_in, sent_again, with_fresh, with_unkept as with_unkept_in, Keeps};
ghost use Rattle.lw_server.specs.Turns.{sent};

use crate::blocks::Handled;
use lw_messaging::{Bytes, Exchange, Replies, is_request};
use lw_reg::Addr;
use lw_stamp::{Moment, NoMemory};
use lw_udp::Datagram;
use std::alloc::Global;

/// The datagrams of a batch that are to be taken. The replies to those that were answered before are put behind what is
/// to be sent, each with where its datagram came from.
pub(crate) fn fresh_of(
    alloc: Global,
    replies: &Replies,
    now: Moment,
    batch: Vec<Datagram>,
    sends: &mut Vec<(Addr, Vec<u8>)>,
) -> Result<Vec<Datagram>, NoMemory>
    ensures fresh { IfOk result (λ fresh. fresh.items ≡ fresh_in now replies.now batch.items) }
    ensures sent { OnOk result (map sent sends.new.items
        ≡ map sent sends.old.items ++ sent_again now replies.now batch.items) }
{
    let mut fresh = Vec::new(alloc);
    for datagram in batch {
        sort_out(alloc, replies, now, datagram, &mut fresh, sends)?;
    }
    Ok(fresh)
}

/// Puts a datagram behind those that are to be taken, or the reply to it behind what is to be sent, or neither.
fn sort_out(
    alloc: Global,
    replies: &Replies,
    now: Moment,
    datagram: Datagram,
    fresh: &mut Vec<Datagram>,
    sends: &mut Vec<(Addr, Vec<u8>)>,
) -> Result<(), NoMemory>
    ensures fresh { OnOk result (fresh.new.items ≡ with_fresh now replies.now fresh.old.items datagram) }
    ensures sent { OnOk result (map sent sends.new.items
        ≡ map sent sends.old.items ++ option_to_list (again_to now replies.now datagram)) }
{
    match replied_to(replies, now, &datagram) {
        Some(Some(reply)) => {
            sends.push((datagram.from, Vec::from_slice(alloc, reply)?))?;
            Ok(())
        }
        Some(None) => Ok(()),
        None => put_fresh(fresh, datagram),
    }
}

/// What was replied to the datagram, if it is a request that was answered before.
fn replied_to<'a>(
    replies: &'a Replies,
    now: Moment,
    datagram: &Datagram,
) -> Option<Option<&'a [u8]>>
    ensures { option_map (λ reply. option_map (λ r. r.now) reply) result
        ≡ replied_in now replies.now datagram.now }
{
    if !is_request(&datagram.bytes) {
        return None;
    }
    replies.again(now, datagram.from, &datagram.bytes)
}

/// Puts a datagram behind those that are to be taken, if it is no copy of one of them.
fn put_fresh(fresh: &mut Vec<Datagram>, datagram: Datagram) -> Result<(), NoMemory>
    ensures { OnOk result (fresh.new.items
        ≡ cond (list_any (is_copy datagram) fresh.old.items) fresh.old.items (fresh.old.items ++ datagram ∷ [])) }
{
    if !has_copy(fresh, &datagram) {
        fresh.push(datagram)?;
    }
    Ok(())
}

/// Whether a request is there already.
fn has_copy(fresh: &[Datagram], datagram: &Datagram) -> bool
    ensures { result ≡ list_any (is_copy datagram.now) fresh.now }
{
    fresh.iter().any(|other| is_same_request(datagram, other))
}

fn is_same_request(datagram: &Datagram, other: &Datagram) -> bool
    ensures { result ≡ is_copy datagram.now other.now }
{
    is_request(&datagram.bytes)
        && other.from == datagram.from
        && other.bytes.as_slice() == datagram.bytes.as_slice()
}

/// Keeps the requests that were answered, in order, as many as there is memory for: whether these are all.
pub(crate) fn keep_exchanges(
    alloc: Global,
    kept: &mut Replies,
    now: Moment,
    handled: &[Handled],
) -> bool
    ensures { Keeps kept.old (exchanges_of now handled.now) kept.new result }
{
    for datagram in handled {
        if keep_exchange(alloc, kept, now, datagram).is_err() {
            return false;
        }
    }
    true
}

/// Keeps a request that was answered.
fn keep_exchange(
    alloc: Global,
    kept: &mut Replies,
    now: Moment,
    handled: &Handled,
) -> Result<(), NoMemory>
    ensures kept { OnOk result (kept.new
        ≡ kept_after kept.old (option_to_list (exchange_in now handled.now))) }
    ensures unchanged { OnErr result (kept.new ≡ kept.old) }
{
    match exchange_of(alloc, now, handled)? {
        Some(exchange) => kept.keep(exchange),
        None => Ok(()),
    }
}

/// A request that was answered, with its reply, if it is owed one.
fn exchange_of(alloc: Global, now: Moment, handled: &Handled) -> Result<Option<Exchange>, NoMemory>
    ensures { IfOk result (λ exchange. exchange ≡ exchange_in now handled.now) }
{
    if !is_request(&handled.bytes) {
        return Ok(None);
    }
    Ok(Some(Exchange {
        moment: now,
        from: handled.from,
        bytes: handled.bytes.clone()?,
        reply: copy_of(alloc, handled.reply.as_ref())?,
    }))
}

/// A copy of a reply, if there is one.
fn copy_of(alloc: Global, reply: Option<&Vec<u8>>) -> Result<Option<Bytes>, NoMemory>
    ensures { IfOk result (λ copy. copy ≡ option_map (λ r. r.now.items) reply.entry) }
{
    match reply {
        Some(reply) => Ok(Some(Bytes::copy_from_slice(alloc, reply)?)),
        None => Ok(None),
    }
}

/// A count of the turns that had no memory for all that they answered, after one more turn.
pub(crate) fn with_unkept(count: u64, is_all_kept: bool, lacks_block: bool) -> u64
    ensures { result ≡ with_unkept_in count (is_all_kept && not lacks_block) }
{
    if is_all_kept && !lacks_block {
        count
    } else {
        count.saturating_add(1)
    }
}
