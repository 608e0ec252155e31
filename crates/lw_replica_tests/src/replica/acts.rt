//! What a replica is asked, and what is seen of it.

use super::*;
use lw_call::{Call, Reply, Taken};
use lw_reg::Path;
use lw_stamp::Stamp;
use std::alloc::AllocError;
use std::slice;

/// What is asked of a replica. Datagrams and replies are in hex.
pub(super) enum Act {
    /// A round with the datagram gives the reply.
    Answers(&'static str, &'static str),
    /// A round with the datagrams of all rows gives the replies that stand behind them.
    AnswersAll(&'static [(&'static str, &'static str)]),
    /// A round with the datagram fails.
    Refuses(&'static str, ReplicaFault),
    /// A round without calls: its fault, where it fails.
    Rests(Option<ReplicaFault>),
    /// A compaction: its fault, where it fails.
    Compacts(Option<ReplicaFault>),
    /// The first registration is observed.
    Observes,
    /// The registration of each Update is known.
    Knows(&'static [&'static str]),
}

/// What is seen of a replica.
pub(super) enum Look {
    /// The number of its start.
    Number(u16),
    /// The tag of its start.
    Tag(u64),
    Fleet(Option<FleetId>),
    /// Whether its number is claimed.
    Claimed(bool),
    /// Whether its node is shown: nothing is unwritten.
    Shown(bool),
    /// The clock of its node.
    Clock(u64),
    /// Whether it wants a compaction.
    IsDue(bool),
    /// The bytes of the last snapshot of its log, and those behind it.
    HasSize(usize, usize),
}

/// Whether it is seen of the replica.
pub(super) fn is_seen<G: DeltaLog>(replica: &Replica<G>, look: &Look) -> bool {
    match look {
        Look::Number(number) => replica.start().number == *number,
        Look::Tag(tag) => replica.start().tag == *tag,
        Look::Fleet(fleet) => replica.fleet() == *fleet,
        Look::Claimed(is_so) => replica.is_claimed() == *is_so,
        Look::Shown(is_so) => replica.node().is_some() == *is_so,
        Look::Clock(clock) => match replica.node() {
            Some(node) => node.clock() == *clock,
            None => false,
        },
        Look::IsDue(is_so) => replica.wants_compaction() == *is_so,
        Look::HasSize(whole, behind) => {
            let size = replica.log_size();
            size.snapshot == *whole as u64 && size.behind == *behind as u64
        }
    }
}

/// A replica that begins over the log.
pub(super) fn begin<G: DeltaLog>(
    alloc: Global,
    log: G,
    randomness: &Randomness,
    moment: Moment,
) -> Result<Replica<G>, ReplicaFault> {
    Replica::begin(alloc, log, randomness, moment)
}

/// The replies of a round with these calls.
pub(super) fn round<G: DeltaLog>(
    replica: &mut Replica<G>,
    calls: &[Call],
) -> Result<Vec<Reply>, ReplicaFault> {
    replica.round(calls)
}

/// A compaction.
pub(super) fn compact<G: DeltaLog>(replica: &mut Replica<G>) -> Result<(), ReplicaFault> {
    replica.compact()
}

/// The datagram that the text spells in hex comes at moment 0.
pub(super) fn take(alloc: Global, datagram: &str) -> Result<Call, LogFault> {
    let datagram = bytes_of(alloc, datagram)?;
    Ok(Call::Take {
        now: Moment::START,
        from: HOME,
        bytes: Bytes::from_vec(datagram)?,
    })
}

/// The replies of a round with the datagram.
fn replies_to<G: DeltaLog>(
    alloc: Global,
    replica: &mut Replica<G>,
    datagram: &str,
) -> Result<Vec<Reply>, ReplicaFault> {
    let call = take(alloc, datagram)?;
    round(replica, slice::from_ref(&call))
}

/// What was taken: the datagram that is sent back in hex, or `-`, and behind it what a device tells.
fn taken_text(alloc: Global, taken: &Taken) -> Result<String, AllocError> {
    let Some(reply) = &taken.reply else {
        return String::from_str(alloc, "-");
    };
    let text = hex::encode(alloc, reply)?;
    let Some(notice) = &taken.notice else {
        return Ok(text);
    };
    let Stamp { counter, node } = notice.token;
    let payload = notice.payload.as_slice();
    format!(in alloc; "{text}, and {counter}.{node} tells {payload:?}")
}

/// What the one reply is: what was taken, or the request to a device in hex.
pub(super) fn reply_text(alloc: Global, replies: &[Reply]) -> Result<String, ReplicaFault> {
    match replies {
        [Reply::Take(Ok(taken))] => Ok(taken_text(alloc, taken)?),
        [Reply::Take(Err(fault))] => Err((*fault).into()),
        [Reply::Observe(Ok(outgoing))] => Ok(hex::encode(alloc, &outgoing.bytes)?),
        _ => Ok(String::from_str(alloc, "other replies")?),
    }
}

/// The reply to the datagram.
pub(super) fn answer<G: DeltaLog>(
    alloc: Global,
    replica: &mut Replica<G>,
    datagram: &str,
) -> Result<String, ReplicaFault> {
    let replies = replies_to(alloc, replica, datagram)?;
    reply_text(alloc, &replies)
}

/// An Update of the registration that the reply to a Register tells of, both in hex.
pub(super) fn update_of(alloc: Global, reply: &str) -> Result<String, AllocError> {
    match reply.get(18..) {
        Some(id) => format!(in alloc; "40020011b272640d03{id}"),
        None => String::from_str(alloc, "no identifier"),
    }
}

/// Compares the fault, or that there is none.
pub(super) fn faults<T: Drop>(
    rt: &impl Abort,
    at: At,
    outcome: Result<T, ReplicaFault>,
    want: Option<ReplicaFault>,
) {
    assert_eq!(rt; outcome.err(), want, "at {at:?}");
}

/// Compares the one reply.
fn is_reply(rt: &impl Abort, alloc: Global, at: At, replies: &[Reply], want: &str) {
    let text = given(rt, at, reply_text(alloc, replies));
    reads(rt, at, text.as_str(), want);
}

/// Compares the reply to the datagram.
pub(super) fn answers<G: DeltaLog>(
    rt: &impl Abort,
    alloc: Global,
    at: At,
    replica: &mut Replica<G>,
    (datagram, want): (&str, &str),
) {
    let replies = given(rt, at, replies_to(alloc, replica, datagram));
    is_reply(rt, alloc, at, &replies, want);
}

/// The datagrams of the rows, as calls.
fn calls_of(rt: &impl Abort, alloc: Global, rows: &[(&str, &str)]) -> Vec<Call> {
    let mut calls = Vec::new(alloc);
    for (datagram, _) in rows {
        let call = take(alloc, datagram).expect(rt, "a datagram");
        calls.push(call).expect(rt, "memory");
    }
    calls
}

/// Compares the replies of one round with all datagrams.
fn answers_all(
    rt: &impl Abort,
    alloc: Global,
    at: At,
    replica: &mut Replica<Shared<'_>>,
    rows: &[(&str, &str)],
) {
    let calls = calls_of(rt, alloc, rows);
    let replies = given(rt, at, round(replica, &calls));
    counts(rt, at, replies.len(), rows.len());
    for (reply, (_, want)) in replies.iter().zip(rows) {
        is_reply(rt, alloc, at, slice::from_ref(reply), want);
    }
}

/// The request to the device by which the first registration is observed, with counter 2 in its token.
const OBSERVATION: &str = "4801002000000000000200016051330130";

/// Compares the request to the device of an observation of `/3/0` at the first registration, message ID 32.
fn observes(rt: &impl Abort, alloc: Global, at: At, replica: &mut Replica<Shared<'_>>) {
    let call = Call::Observe {
        now: Moment::START,
        id: Stamp {
            counter: 1,
            node: 1,
        },
        path: Path::new(&[3, 0]).expect(rt, "a path"),
        accept: None,
        mid: 32,
    };
    let replies = given(rt, at, round(replica, slice::from_ref(&call)));
    is_reply(rt, alloc, at, &replies, OBSERVATION);
}

/// Asks it of the replica, and compares what it tells.
pub(super) fn ask(
    rt: &impl Abort,
    alloc: Global,
    at: At,
    replica: &mut Replica<Shared<'_>>,
    what: &Act,
) {
    match what {
        Act::Answers(datagram, want) => answers(rt, alloc, at, replica, (datagram, want)),
        Act::AnswersAll(rows) => answers_all(rt, alloc, at, replica, rows),
        Act::Refuses(datagram, want) => {
            faults(rt, at, replies_to(alloc, replica, datagram), Some(*want));
        }
        Act::Rests(want) => faults(rt, at, round(replica, &[]), *want),
        Act::Compacts(want) => faults(rt, at, compact(replica), *want),
        Act::Observes => observes(rt, alloc, at, replica),
        Act::Knows(updates) => knows(rt, alloc, at, replica, updates),
    }
}

/// Compares the replies to Updates: the registration of each is known.
fn knows(
    rt: &impl Abort,
    alloc: Global,
    at: At,
    replica: &mut Replica<Shared<'_>>,
    updates: &[&str],
) {
    for update in updates {
        answers(rt, alloc, at, replica, (update, CHANGED));
    }
}
