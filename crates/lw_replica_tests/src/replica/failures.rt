//! Logs that fail.

use super::acts::{answer, update_of};
use super::*;

/// Registers of `a`, `b` and `c`, the last with the object list `</>` and message ID 6.
static REGISTERS: [&str; 3] = [REGISTER, REGISTER_B, "40020006b272644465703d63ff3c2f3e"];

/// The reply to the datagram. Where the round fails the device sends it again.
fn answer_to(
    rt: &impl Abort,
    alloc: Global,
    replica: &mut Replica<Shared<'_>>,
    text: &str,
) -> String {
    if let Ok(reply) = answer(alloc, replica, text) {
        return reply;
    }
    // With its start alone a replica has written no less than it knows: what is unwritten is not shown.
    holds(rt, AROUND, replica.node().is_some() != replica.is_claimed());
    let reply = given(rt, AROUND, answer(alloc, replica, text));
    holds(rt, AROUND, replica.node().is_some());
    reply
}

/// Updates of what a replica gives to three devices around a failed append.
fn given_around(
    rt: &impl Abort,
    alloc: Global,
    entries: &Entries,
    (alone, failure): (bool, Failure),
) -> Vec<String> {
    let log = Shared::new(alloc, entries, alone);
    log.append.set(Some(failure));
    let mut replica = given(rt, AROUND, begin(alloc, log, &FIRST_CHANCE, Moment::START));
    let mut updates = Vec::new(alloc);
    for register in &REGISTERS {
        let reply = answer_to(rt, alloc, &mut replica, register);
        let update = update_of(alloc, reply.as_str()).expect(rt, "memory");
        updates.push(update).expect(rt, "memory");
    }
    holds(rt, AROUND, replica.log().has_failed());
    updates
}

/// Fails where something of it is not known at the next start.
fn is_known_afterwards(rt: &impl Abort, alloc: Global, around: (bool, Failure)) {
    let entries = entries_of(alloc, &[]).expect(rt, "memory");
    let updates = given_around(rt, alloc, &entries, around);
    let log = Shared::new(alloc, &entries, false);
    let mut next = given(rt, AROUND, begin(alloc, log, &SECOND_CHANCE, Moment::START));
    for update in &updates {
        answers(rt, alloc, AROUND, &mut next, (update.as_str(), CHANGED));
    }
}

const AROUND: At = ("what is given around a failed append is known", 0, 0);

/// Tries: lw_replica::Replica::round, lw_replica::Replica::node, lw_replica::Replica::begin
#[test]
fn what_is_given_around_a_failed_append_is_known(rt: HostRuntime) {
    // A start, and a delta for each of three devices.
    for append in 0..4 {
        is_known_afterwards(
            &rt,
            rt.alloc(),
            (false, (append, LogFault::Unavailable, false)),
        );
        is_known_afterwards(
            &rt,
            rt.alloc(),
            (false, (append, LogFault::Unavailable, true)),
        );
        is_known_afterwards(
            &rt,
            rt.alloc(),
            (true, (append, LogFault::Unavailable, false)),
        );
        is_known_afterwards(
            &rt,
            rt.alloc(),
            (true, (append, LogFault::Unavailable, true)),
        );
    }
}

/// What an empty round leaves in the log where the delta was kept.
const WRITTEN_TWICE: &[&str] = &[START, DELTA, DELTA];

/// An empty round writes what the failed one left.
const LEFT: &[Step] = &[
    Shows(FIRST, Shown(false)),
    Does(FIRST, Rests(None)),
    Shows(FIRST, Shown(true)),
];

const BEGUN: &[Step] = &[Begins(FIRST_CHANCE)];

const KNOWN: &[Step] = &[Does(FIRST, Answers(UPDATE, CHANGED))];

/// For each fault of a log at an append, with the entry kept or not: what the replica answers, and what it then writes.
static FAULTS: [Story; 7] = [
    (
        "unavailable, and not kept",
        BESIDE,
        &[],
        &[
            BEGUN,
            &[
                LogOf(FIRST, FailsAppend((1, LogFault::Unavailable, false))),
                Does(FIRST, Refuses(REGISTER, UNAVAILABLE)),
            ],
            LEFT,
            &[Log(Has(WRITTEN))],
            KNOWN,
        ],
    ),
    (
        "unavailable, and kept",
        BESIDE,
        &[],
        &[
            BEGUN,
            &[
                LogOf(FIRST, FailsAppend((1, LogFault::Unavailable, true))),
                Does(FIRST, Refuses(REGISTER, UNAVAILABLE)),
            ],
            LEFT,
            &[Log(Has(WRITTEN_TWICE))],
            KNOWN,
        ],
    ),
    (
        "a refusal, and not kept",
        BESIDE,
        &[],
        &[
            BEGUN,
            &[
                LogOf(FIRST, FailsAppend((1, LogFault::Refused, false))),
                Does(
                    FIRST,
                    Refuses(REGISTER, ReplicaFault::Log(LogFault::Refused)),
                ),
            ],
            LEFT,
            &[Log(Has(WRITTEN))],
            KNOWN,
        ],
    ),
    (
        "a refusal, and kept",
        BESIDE,
        &[],
        &[
            BEGUN,
            &[
                LogOf(FIRST, FailsAppend((1, LogFault::Refused, true))),
                Does(
                    FIRST,
                    Refuses(REGISTER, ReplicaFault::Log(LogFault::Refused)),
                ),
            ],
            LEFT,
            &[Log(Has(WRITTEN_TWICE))],
            KNOWN,
        ],
    ),
    (
        "lost, and not kept",
        BESIDE,
        &[],
        &[
            BEGUN,
            &[
                LogOf(FIRST, FailsAppend((1, LogFault::Lost, false))),
                Does(FIRST, Refuses(REGISTER, ReplicaFault::Log(LogFault::Lost))),
            ],
            LEFT,
            &[Log(Has(WRITTEN))],
            KNOWN,
        ],
    ),
    (
        "lost, and kept",
        BESIDE,
        &[],
        &[
            BEGUN,
            &[
                LogOf(FIRST, FailsAppend((1, LogFault::Lost, true))),
                Does(FIRST, Refuses(REGISTER, ReplicaFault::Log(LogFault::Lost))),
            ],
            LEFT,
            &[Log(Has(WRITTEN_TWICE))],
            KNOWN,
        ],
    ),
    (
        "no memory, and not kept",
        BESIDE,
        &[],
        &[
            BEGUN,
            &[
                LogOf(FIRST, FailsAppend((1, LogFault::NoMemory, false))),
                Does(FIRST, Refuses(REGISTER, ReplicaFault::NoMemory)),
            ],
            LEFT,
            &[Log(Has(WRITTEN))],
            KNOWN,
        ],
    ),
];

/// An Update of the registration with counter 3.
const UPDATE_OF_THIRD: &str = "40020011b272640d0330303030303030303030303330303031";

/// An Update and a Register fail, which have taken counters 2 and 3. The next start knows them.
const FOLLOWED: &[Step] = &[
    Begins(FIRST_CHANCE),
    Does(FIRST, Answers(REGISTER, CREATED)),
    LogOf(FIRST, FailsAppend(NEXT_UNAVAILABLE)),
    Does(FIRST, Refuses(UPDATE, UNAVAILABLE)),
    Shows(FIRST, Shown(false)),
    LogOf(FIRST, FailsAppend(NEXT_UNAVAILABLE)),
    Does(FIRST, Refuses(REGISTER_B, UNAVAILABLE)),
    Shows(FIRST, Shown(false)),
    LogOf(FIRST, FailsReading(NEXT_UNAVAILABLE)),
    Does(FIRST, Rests(Some(UNAVAILABLE))),
    Shows(FIRST, Shown(false)),
    Log(Has(WRITTEN)),
    Does(FIRST, Rests(None)),
    Shows(FIRST, Shown(true)),
    Begins(SECOND_CHANCE),
    Does(SECOND, Knows(&[UPDATE_OF_THIRD])),
];

const NOTHING_READ: &[Step] = &[
    Begins(FIRST_CHANCE),
    Does(FIRST, Answers(REGISTER, CREATED)),
    LogOf(FIRST, FailsReading((0, LogFault::Refused, false))),
    Does(
        FIRST,
        Refuses(REGISTER_B, ReplicaFault::Log(LogFault::Refused)),
    ),
    Shows(FIRST, Shown(true)),
    Log(Has(WRITTEN)),
    Does(FIRST, Answers(REGISTER_B, CREATED_B)),
];

/// The first delta behind two starts, sequence 3.
const DELTA_AFTER: &str =
    "4c574531000102030405060708090a0b0c0d0e0f0001a1a2a3a4a5a6a7a8000000000000000301\
4c57443300000000000101016100000000000100017f000000000000010001047f0000011633\
000000000001000100000000000000000000000100010001518000000000000100010155\
000000000001000100000000000001000100033c2f3e00000000";

const CLAIMED_AGAIN: &[Step] = &[
    Begins(FIRST_CHANCE),
    LogOf(FIRST, FailsReading(NEXT_UNAVAILABLE)),
    Does(FIRST, Refuses(REGISTER, UNAVAILABLE)),
    Shows(FIRST, Claimed(false)),
    Log(Has(&[START])),
    Does(FIRST, Answers(REGISTER, CREATED)),
    Log(Has(&[START, START_AGAIN, DELTA_AFTER])),
];

/// What a replica answers that finds no more than a part of the log.
const LOST_LOG: ReplicaFault = ReplicaFault::Log(LogFault::Lost);

/// The first reading fails, or the second.
static UNREAD: [Story; 1] = [(
    "a replica begins where all is read",
    BESIDE,
    WRITTEN,
    &[&[
        ReadsNot((0, LogFault::Lost, false), SECOND_CHANCE, LOST_LOG),
        ReadsNot((1, LogFault::Lost, false), SECOND_CHANCE, LOST_LOG),
    ]],
)];

/// Tries: lw_replica::Replica::begin
#[test]
fn a_replica_begins_where_all_is_read(rt: HostRuntime) {
    play_all(&rt, rt.alloc(), &UNREAD);
}

/// The log loses all, is given what was written since, and has the start again that was lost.
const LOST: &[Step] = &[
    Begins(FIRST_CHANCE),
    Does(FIRST, Answers(REGISTER, CREATED)),
    LogOf(FIRST, FailsAppend((0, LogFault::Lost, false))),
    Does(
        FIRST,
        Refuses(REGISTER_B, ReplicaFault::Log(LogFault::Lost)),
    ),
    Log(Loses),
    Does(FIRST, Rests(None)),
    Log(Restores(START)),
    Begins(SECOND_CHANCE),
    Does(SECOND, Answers(UPDATE, CHANGED)),
    Does(SECOND, Answers(UPDATE_OF_SECOND, CHANGED)),
];

/// A reading finds that the log has lost something, and all has gone: all is written again.
const FOUND_LOST: &[Step] = &[
    Begins(FIRST_CHANCE),
    Does(FIRST, Answers(REGISTER, CREATED)),
    LogOf(FIRST, FailsReading((0, LogFault::Lost, false))),
    Does(FIRST, Refuses(UPDATE, LOST_LOG)),
    Shows(FIRST, Shown(false)),
    Log(Loses),
    Does(FIRST, Rests(None)),
    Shows(FIRST, Shown(true)),
    Log(HasCount(1)),
    Log(Restores(START)),
    Begins(SECOND_CHANCE),
    Does(SECOND, Answers(UPDATE, CHANGED)),
];

static STORIES: [Story; 5] = [
    (
        "a failed round may be followed by another",
        BESIDE,
        &[],
        &[FOLLOWED],
    ),
    (
        "no call is made where nothing is read",
        BESIDE,
        &[],
        &[NOTHING_READ],
    ),
    (
        "a claim that was not read is made again",
        BESIDE,
        &[],
        &[CLAIMED_AGAIN],
    ),
    (
        "a log that has lost entries is given all",
        BESIDE,
        &[],
        &[LOST],
    ),
    (
        "a loss that a reading finds is mended",
        BESIDE,
        &[],
        &[FOUND_LOST],
    ),
];

/// Tries: lw_replica::Replica::round, lw_replica::Replica::node, lw_replica::Replica::is_claimed
/// Tries: lw_replica::Replica::log
#[test]
fn a_failed_round_may_be_followed_by_another(rt: HostRuntime) {
    play_all(&rt, rt.alloc(), &FAULTS);
    play_all(&rt, rt.alloc(), &STORIES);
}
