//! Compactions: all that a replica knows is written anew, and what it has read goes.

use super::asked::{READ, TRIMMED, WROTE};
use super::*;

/// What stands before the numbers of a snapshot of the first: its head with sequence 3, kind 2.
const SNAPSHOT_HEAD: &str =
    "4c574531000102030405060708090a0b0c0d0e0f0001a1a2a3a4a5a6a7a8000000000000000302";

/// What stands behind them: the delta with the first Register of `a`.
const KNOWN: &str = "4c57443300000000000101016100000000000100017f000000000000010001047f0000011633\
000000000001000100000000000000000000000100010001518000000000000100010155\
000000000001000100000000000001000100033c2f3e00000000";

/// The delta of the second with a Register of `b`, which has counter 2 at node 2, sequence 3.
const SECOND_DELTA: &str =
    "4c574531000102030405060708090a0b0c0d0e0f0002b1b2b3b4b5b6b7b8000000000000000301\
4c57443300000000000201016200000000000200027f000000000000020002047f0000011633\
000000000002000200000000000000000000000200020001518000000000000200020155\
000000000002000200000000000002000200033c2f3e00000000";

/// The reply to its Register.
const CREATED_AT_SECOND: &str = "604100058272640d0330303030303030303030303230303032";

/// Starts with other tags: one looks for a number from 1 on, and one has a number of its own.
const LATER_CHANCE: Randomness = Randomness {
    fleet: OTHER_FLEET,
    tag: 1,
    number: 1,
};

const FAR_CHANCE: Randomness = Randomness {
    fleet: OTHER_FLEET,
    tag: 2,
    number: 7,
};

/// Updates of the registrations of the first with counters 1 and 2.
const ITS_UPDATES: &[&str] = &[UPDATE, UPDATE_OF_SECOND];

/// Updates of the first registrations of two replicas.
const UPDATES_OF_TWO: &[&str] = &[UPDATE, "40020011b272640d0330303030303030303030303230303032"];

/// A compaction of an empty log only reads it. One behind a Register reads from the start at position 1 on, to the
/// delta at 2, writes all behind them, with number 1, which is a bit of the first byte, and trims up to the delta.
static GOES: [Story; 1] = [(
    "what was read goes once all is written",
    BESIDE,
    &[],
    &[&[
        Begins(FIRST_CHANCE),
        Does(FIRST, Compacts(None)),
        Log(WasAsked(2, &[(READ, 0, 0, 0)])),
        Does(FIRST, Answers(REGISTER, CREATED)),
        Does(FIRST, Compacts(None)),
        Log(WasAsked(6, &[(READ, 1, 1, 2), (WROTE, 3, 0, 0), (TRIMMED, 2, 0, 0)])),
        Log(HasPlaces(&[3])),
        Log(HasSnapshot(SNAPSHOT_HEAD, 2, KNOWN)),
    ]],
)];

/// Tries: lw_replica::Replica::compact
#[test]
fn what_was_read_goes_once_all_is_written(rt: HostRuntime) {
    play_all(&rt, rt.alloc(), &GOES);
}

/// A replica registers and observes `a`, and compacts. A later start knows it.
const COMPACTED: &[Step] = &[
    Begins(FIRST_CHANCE),
    Does(FIRST, Answers(REGISTER, CREATED)),
    Does(FIRST, Observes),
    Does(FIRST, Compacts(None)),
    Shows(FIRST, Shown(true)),
    End,
    Log(HasCount(1)),
    BeginsBeside(LATER_CHANCE),
    Shows(FIRST, Number(2)),
    Shows(FIRST, Fleet(Some(FLEET))),
    Does(FIRST, Answers(TOLD, TOLD_REPLY)),
    Does(FIRST, Answers(UPDATE, CHANGED)),
];

/// What comes behind a snapshot is known to those that have read it, to one that had read little before, and to
/// a later start; and it is not lost by another compaction. The second replica registers `b` between two
/// compactions, while the first is idle.
const BETWEEN_TWO: &[Step] = &[
    BeginsBeside(SECOND_CHANCE),
    Begins(FIRST_CHANCE),
    Does(SECOND, Answers(REGISTER, CREATED)),
    Does(SECOND, Compacts(None)),
    Does(SECOND, Answers(REGISTER_B, CREATED_B)),
    Log(HasCount(2)),
    Does(FIRST, Rests(None)),
    Does(SECOND, Compacts(None)),
    Log(HasCount(1)),
    BeginsBeside(FAR_CHANCE),
    Each(&[THIRD, FIRST], Knows(ITS_UPDATES)),
    Does(SECOND, Answers(UPDATE, CHANGED)),
];

/// Two replicas have registered a device each.
const TWO: &[Step] = &[
    Begins(FIRST_CHANCE),
    Does(FIRST, Answers(REGISTER, CREATED)),
    Begins(SECOND_CHANCE),
    Does(SECOND, Answers(REGISTER_B, CREATED_AT_SECOND)),
];

/// Behind their compactions they leave one entry, and they and a later start know both.
const LEFT_BY_TWO: &[Step] = &[
    Log(HasCount(1)),
    BeginsBeside(FAR_CHANCE),
    Each(&[THIRD, FIRST, SECOND], Knows(UPDATES_OF_TWO)),
];

/// What comes between the reading and the entry is kept. The second replica writes before the next append of the
/// first. Both of their numbers had a start.
const BETWEEN: &[Step] = &[
    Begins(FIRST_CHANCE),
    Does(FIRST, Answers(REGISTER, CREATED)),
    LogOf(FIRST, ComesBetween(&[SECOND_START, SECOND_DELTA])),
    Does(FIRST, Compacts(None)),
    Log(HasFirst(&[SECOND_START, SECOND_DELTA])),
    Log(HasCount(3)),
    Begins(LATER_CHANCE),
    Shows(SECOND, Number(3)),
    Each(&[SECOND, FIRST], Knows(UPDATES_OF_TWO)),
];

const NO_ENTRY: &[Step] = &[
    Begins(FIRST_CHANCE),
    Log(Puts("00")),
    Does(FIRST, Compacts(None)),
    Log(Has(&["00"])),
];

const REGISTERED: &[Step] = &[
    Begins(FIRST_CHANCE),
    Does(FIRST, Answers(REGISTER, CREATED)),
];

/// What is left behind a compaction that failed: the entries so far are the first of so many.
const TWO_LEFT: &[Step] = &[Log(HasFirst(WRITTEN)), Log(HasCount(2))];

const THREE_LEFT: &[Step] = &[Log(HasFirst(WRITTEN)), Log(HasCount(3))];

/// A later start knows the registration. The next compaction leaves its entry alone, and a start behind it knows the
/// registration too.
const COMPACTS_NEXT: &[Step] = &[
    BeginsBeside(SECOND_CHANCE),
    Each(&[SECOND, FIRST], Answers(UPDATE, CHANGED)),
    Does(FIRST, Compacts(None)),
    Log(HasCount(1)),
    BeginsBeside(LATER_CHANCE),
    Does(THIRD, Answers(UPDATE, CHANGED)),
];

/// Where the append fails nothing goes, and nothing is lost. The next compaction does it.
static NOTHING_GOES: [Story; 7] = [
    (
        "unavailable, and not kept",
        BOTH_WAYS,
        &[],
        &[
            REGISTERED,
            &[
                LogOf(FIRST, FailsAppend((0, LogFault::Unavailable, false))),
                Does(FIRST, Compacts(Some(UNAVAILABLE))),
            ],
            TWO_LEFT,
            COMPACTS_NEXT,
        ],
    ),
    (
        "unavailable, and kept",
        BOTH_WAYS,
        &[],
        &[
            REGISTERED,
            &[
                LogOf(FIRST, FailsAppend((0, LogFault::Unavailable, true))),
                Does(FIRST, Compacts(Some(UNAVAILABLE))),
            ],
            THREE_LEFT,
            COMPACTS_NEXT,
        ],
    ),
    (
        "a refusal, and not kept",
        BOTH_WAYS,
        &[],
        &[
            REGISTERED,
            &[
                LogOf(FIRST, FailsAppend((0, LogFault::Refused, false))),
                Does(FIRST, Compacts(Some(ReplicaFault::Log(LogFault::Refused)))),
            ],
            TWO_LEFT,
            COMPACTS_NEXT,
        ],
    ),
    (
        "a refusal, and kept",
        BOTH_WAYS,
        &[],
        &[
            REGISTERED,
            &[
                LogOf(FIRST, FailsAppend((0, LogFault::Refused, true))),
                Does(FIRST, Compacts(Some(ReplicaFault::Log(LogFault::Refused)))),
            ],
            THREE_LEFT,
            COMPACTS_NEXT,
        ],
    ),
    (
        "lost, and not kept",
        BOTH_WAYS,
        &[],
        &[
            REGISTERED,
            &[
                LogOf(FIRST, FailsAppend((0, LogFault::Lost, false))),
                Does(FIRST, Compacts(Some(ReplicaFault::Log(LogFault::Lost)))),
            ],
            TWO_LEFT,
            COMPACTS_NEXT,
        ],
    ),
    (
        "lost, and kept",
        BOTH_WAYS,
        &[],
        &[
            REGISTERED,
            &[
                LogOf(FIRST, FailsAppend((0, LogFault::Lost, true))),
                Does(FIRST, Compacts(Some(ReplicaFault::Log(LogFault::Lost)))),
            ],
            THREE_LEFT,
            COMPACTS_NEXT,
        ],
    ),
    (
        "no memory, and not kept",
        BOTH_WAYS,
        &[],
        &[
            REGISTERED,
            &[
                LogOf(FIRST, FailsAppend((0, LogFault::NoMemory, false))),
                Does(FIRST, Compacts(Some(ReplicaFault::NoMemory))),
            ],
            TWO_LEFT,
            COMPACTS_NEXT,
        ],
    ),
];

/// Nothing is read, and then nothing is trimmed.
const UNREAD: &[Step] = &[
    LogOf(FIRST, FailsReading(NEXT_UNAVAILABLE)),
    Does(FIRST, Compacts(Some(UNAVAILABLE))),
    Log(Has(WRITTEN)),
    LogOf(FIRST, FailsTrim(NEXT_UNAVAILABLE)),
    Does(FIRST, Compacts(Some(UNAVAILABLE))),
    LogOf(FIRST, HasFailed),
];

/// The numbers of a snapshot: that of the start that wrote it, and that of one whose entries are gone. The second
/// replica registers `b`, and compacts: its entry has numbers 1 and 2, which are bits of the first byte.
const NUMBERED: &[Step] = &[
    Begins(FIRST_CHANCE),
    Does(FIRST, Answers(REGISTER, CREATED)),
    Begins(SECOND_CHANCE),
    Does(SECOND, Answers(REGISTER_B, CREATED_AT_SECOND)),
    Does(SECOND, Compacts(None)),
    Log(HasCount(1)),
    Log(HasNumbers(6)),
    Begins(LATER_CHANCE),
    Shows(THIRD, Number(3)),
];

static STORIES: [Story; 11] = [
    (
        "what was compacted the next start knows",
        BOTH_WAYS,
        &[],
        &[COMPACTED],
    ),
    (
        "what comes behind a snapshot is kept",
        BOTH_WAYS,
        &[],
        &[BETWEEN_TWO],
    ),
    (
        "the first compacts, and the second",
        BESIDE,
        &[],
        &[TWO, &[Each(&[FIRST, SECOND], Compacts(None))], LEFT_BY_TWO],
    ),
    (
        "the second compacts, and the first",
        BESIDE,
        &[],
        &[TWO, &[Each(&[SECOND, FIRST], Compacts(None))], LEFT_BY_TWO],
    ),
    (
        "the first compacts twice",
        BESIDE,
        &[],
        &[
            TWO,
            &[Each(&[FIRST, FIRST, SECOND], Compacts(None))],
            LEFT_BY_TWO,
        ],
    ),
    (
        "the second compacts twice",
        BESIDE,
        &[],
        &[
            TWO,
            &[Each(&[SECOND, SECOND, FIRST], Compacts(None))],
            LEFT_BY_TWO,
        ],
    ),
    (
        "both compact twice",
        BESIDE,
        &[],
        &[
            TWO,
            &[Each(&[FIRST, SECOND, FIRST, SECOND], Compacts(None))],
            LEFT_BY_TWO,
        ],
    ),
    ("what comes between is kept", BESIDE, &[], &[BETWEEN]),
    (
        "bytes that are no entry are left so",
        BESIDE,
        &[],
        &[NO_ENTRY],
    ),
    (
        "nothing is read or trimmed",
        BESIDE,
        &[],
        &[REGISTERED, UNREAD, THREE_LEFT, COMPACTS_NEXT],
    ),
    (
        "numbers stay taken where their entries go",
        BESIDE,
        &[],
        &[NUMBERED],
    ),
];

/// Tries: lw_replica::Replica::compact, lw_replica::Replica::begin, lw_replica::Replica::round
#[test]
fn what_was_compacted_the_next_start_knows(rt: HostRuntime) {
    play_all(&rt, rt.alloc(), &NOTHING_GOES);
    play_all(&rt, rt.alloc(), &STORIES);
}
