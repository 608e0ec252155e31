//! Replicas that are refused memory.

use super::acts::{answer, compact, reply_text, round, take, update_of};
use super::*;
use lw_call::{Call, Reply};
use std::slice;
use std::test::Fail;

/// A replica at moment 0 over entries to which others may append.
fn begin_over<'a>(
    alloc: Global,
    entries: &'a Entries,
    randomness: &Randomness,
) -> Result<Replica<Shared<'a>>, ReplicaFault> {
    begin(
        alloc,
        Shared::new(alloc, entries, false),
        randomness,
        Moment::START,
    )
}

const REPLY: At = ("the reply of a replica that may be refused memory", 0, 0);

/// Compares the reply to the datagram.
fn replies(
    rt: &impl Abort,
    alloc: Global,
    replica: &mut Replica<Shared<'_>>,
    (datagram, want): (&str, &str),
) -> Result<(), Fail> {
    let text = answer(alloc, replica, datagram)?;
    reads(rt, REPLY, text.as_str(), want);
    Ok(())
}

/// A replica over the entries, which begins again where it is refused memory.
fn begin_in_two_tries<'a>(
    alloc: Global,
    entries: &'a Entries,
) -> Result<Replica<Shared<'a>>, ReplicaFault> {
    match begin_over(alloc, entries, &SECOND_CHANCE) {
        Err(ReplicaFault::NoMemory) => begin_over(alloc, entries, &SECOND_CHANCE),
        begun => begun,
    }
}

/// Tries: lw_replica::Replica::begin
#[test]
fn a_refused_begin_is_made_again(rt: HostRuntime) -> Result<(), Fail> {
    let entries = entries_of(rt.alloc(), WRITTEN)?;
    let mut replica = begin_in_two_tries(rt.alloc(), &entries)?;
    replies(&rt, rt.alloc(), &mut replica, (UPDATE, CHANGED))
}

/// Whether the round, or the one datagram that it takes, was refused memory.
fn is_refused(outcome: &Result<Vec<Reply>, ReplicaFault>) -> bool {
    match outcome {
        Ok(replies) => matches!(replies.as_slice(), [Reply::Take(Err(_))]),
        Err(fault) => *fault == ReplicaFault::NoMemory,
    }
}

/// The replies of a round, which is made again where it is refused memory.
fn round_in_two_tries(
    replica: &mut Replica<Shared<'_>>,
    calls: &[Call],
) -> Result<Vec<Reply>, ReplicaFault> {
    let first = round(replica, calls);
    if is_refused(&first) {
        return round(replica, calls);
    }
    first
}

/// The replies of a round with a Register of `a`, which may be made again.
fn replies_in_two_tries(
    alloc: Global,
    replica: &mut Replica<Shared<'_>>,
) -> Result<Vec<Reply>, ReplicaFault> {
    let call = take(alloc, REGISTER)?;
    round_in_two_tries(replica, slice::from_ref(&call))
}

/// The one reply of such a round.
fn reply_in_two_tries(
    alloc: Global,
    replica: &mut Replica<Shared<'_>>,
) -> Result<String, ReplicaFault> {
    let replies = replies_in_two_tries(alloc, replica)?;
    reply_text(alloc, &replies)
}

/// The reply of a replica that begins over the entries.
fn reply_over(alloc: Global, entries: &Entries) -> Result<String, ReplicaFault> {
    let mut replica = begin_over(alloc, entries, &FIRST_CHANCE)?;
    reply_in_two_tries(alloc, &mut replica)
}

/// An Update of what such a replica registers.
fn registered_over(alloc: Global, entries: &Entries) -> Result<String, ReplicaFault> {
    let reply = reply_over(alloc, entries)?;
    Ok(update_of(alloc, reply.as_str())?)
}

/// Compares the replies of a later start over the entries.
fn later_replies(
    rt: &impl Abort,
    alloc: Global,
    entries: &Entries,
    rows: &[(&str, &str)],
) -> Result<(), Fail> {
    let mut next = begin_over(alloc, entries, &SECOND_CHANCE)?;
    all_replies(rt, alloc, &mut next, rows)
}

fn all_replies(
    rt: &impl Abort,
    alloc: Global,
    replica: &mut Replica<Shared<'_>>,
    rows: &[(&str, &str)],
) -> Result<(), Fail> {
    for row in rows {
        replies(rt, alloc, replica, *row)?;
    }
    Ok(())
}

/// Tries: lw_replica::Replica::round
#[test]
fn a_refused_round_is_made_again(rt: HostRuntime) -> Result<(), Fail> {
    let entries = entries_of(rt.alloc(), &[])?;
    let update = registered_over(rt.alloc(), &entries)?;
    later_replies(&rt, rt.alloc(), &entries, &[(update.as_str(), CHANGED)])
}

/// A compaction, which is made again where it is refused memory.
fn compact_in_two_tries(replica: &mut Replica<Shared<'_>>) -> Result<(), ReplicaFault> {
    match compact(replica) {
        Err(ReplicaFault::NoMemory) => compact(replica),
        other => other,
    }
}

/// The replica registers `a`, compacts, and registers `b`.
fn compact_between(
    rt: &impl Abort,
    alloc: Global,
    entries: &Entries,
    replica: &mut Replica<Shared<'_>>,
) -> Result<(), Fail> {
    replies(rt, alloc, replica, (REGISTER, CREATED))?;
    compact_in_two_tries(replica)?;
    counts(rt, LEFT, count_of(rt, entries), 1);
    replies(rt, alloc, replica, (REGISTER_B, CREATED_B))
}

/// The same by a replica that begins over the entries.
fn compacted_over(rt: &impl Abort, alloc: Global, entries: &Entries) -> Result<(), Fail> {
    let mut replica = begin_over(alloc, entries, &FIRST_CHANCE)?;
    compact_between(rt, alloc, entries, &mut replica)
}

const LEFT: At = ("a compaction leaves one entry", 0, 0);

/// Updates of both registrations, which a later start knows.
static BOTH: [(&str, &str); 2] = [(UPDATE, CHANGED), (UPDATE_OF_SECOND, CHANGED)];

/// Tries: lw_replica::Replica::compact
#[test]
fn a_refused_compaction_is_made_again(rt: HostRuntime) -> Result<(), Fail> {
    let entries = entries_of(rt.alloc(), &[])?;
    compacted_over(&rt, rt.alloc(), &entries)?;
    later_replies(&rt, rt.alloc(), &entries, &BOTH)
}
