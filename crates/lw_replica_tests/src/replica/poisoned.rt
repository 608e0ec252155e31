//! Logs with entries that nobody should have written, and logs of which something is missing.

use super::*;

/// A start entry and a delta of another fleet, number 5.
const OTHER_START: &str =
    "4c574531f0f1f2f3f4f5f6f7f8f9fafbfcfdfeff0005c1c2c3c4c5c6c7c8000000000000000100";

const OTHER_DELTA: &str =
    "4c574531f0f1f2f3f4f5f6f7f8f9fafbfcfdfeff0005c1c2c3c4c5c6c7c8000000000000000201\
4c57443300000000000900";

/// An entry of format 2, and one whose delta is of format 4.
const NEWER: &str =
    "4c574532000102030405060708090a0b0c0d0e0f0001a1a2a3a4a5a6a7a8000000000000000300";

const NEWER_DELTA: &str =
    "4c574531000102030405060708090a0b0c0d0e0f0001a1a2a3a4a5a6a7a8000000000000000301\
4c57443400000000000100";

/// Entries over which no replica begins, which are left as they are.
static REFUSED: &[Story] = &[
    (
        "a delta alone",
        BESIDE,
        &[DELTA],
        &[&[
            BeginsNot(SECOND_CHANCE, ReplicaFault::LogCut),
            Log(Has(&[DELTA])),
        ]],
    ),
    (
        "a delta before the start",
        BESIDE,
        &[DELTA, START],
        &[&[
            BeginsNot(SECOND_CHANCE, ReplicaFault::LogCut),
            Log(Has(&[DELTA, START])),
        ]],
    ),
    (
        "a later start",
        BESIDE,
        &[START_AGAIN],
        &[&[
            BeginsNot(SECOND_CHANCE, ReplicaFault::LogCut),
            Log(Has(&[START_AGAIN])),
        ]],
    ),
    (
        "what a second start has left",
        BESIDE,
        &[SECOND_START, DELTA],
        &[&[
            BeginsNot(SECOND_CHANCE, ReplicaFault::LogCut),
            Log(Has(&[SECOND_START, DELTA])),
        ]],
    ),
    (
        "what is no entry",
        BESIDE,
        &["00"],
        &[&[
            BeginsNot(SECOND_CHANCE, ReplicaFault::LogCut),
            Log(Has(&["00"])),
        ]],
    ),
    (
        "what is no entry before a start",
        BESIDE,
        &["", START, DELTA],
        &[&[
            BeginsNot(SECOND_CHANCE, ReplicaFault::LogCut),
            Log(Has(&["", START, DELTA])),
        ]],
    ),
    (
        "a delta of another fleet",
        BESIDE,
        &[START, DELTA, OTHER_DELTA],
        &[&[
            BeginsNot(SECOND_CHANCE, ReplicaFault::AnotherFleet),
            Log(Has(&[START, DELTA, OTHER_DELTA])),
        ]],
    ),
    (
        "a delta of another fleet between",
        BESIDE,
        &[START, OTHER_DELTA, DELTA],
        &[&[
            BeginsNot(SECOND_CHANCE, ReplicaFault::AnotherFleet),
            Log(Has(&[START, OTHER_DELTA, DELTA])),
        ]],
    ),
    (
        "a newer entry",
        BESIDE,
        &[START, NEWER],
        &[&[
            BeginsNot(SECOND_CHANCE, ReplicaFault::LogNewer),
            Log(Has(&[START, NEWER])),
        ]],
    ),
    (
        "a newer delta",
        BESIDE,
        &[START, NEWER_DELTA],
        &[&[
            BeginsNot(SECOND_CHANCE, ReplicaFault::LogNewer),
            Log(Has(&[START, NEWER_DELTA])),
        ]],
    ),
    (
        "a newer entry before another fleet",
        BESIDE,
        &[START, DELTA, NEWER, OTHER_DELTA],
        &[&[
            BeginsNot(SECOND_CHANCE, ReplicaFault::LogNewer),
            Log(Has(&[START, DELTA, NEWER, OTHER_DELTA])),
        ]],
    ),
];

/// Entries that come later. Each round is refused from then on.
static LATER: &[Story] = &[
    (
        "another fleet later",
        BESIDE,
        WRITTEN,
        &[&[
            Begins(SECOND_CHANCE),
            Log(Puts(OTHER_DELTA)),
            Does(FIRST, Rests(Some(ReplicaFault::AnotherFleet))),
            Does(FIRST, Refuses(UPDATE, ReplicaFault::AnotherFleet)),
            Does(FIRST, Refuses(UPDATE, ReplicaFault::AnotherFleet)),
        ]],
    ),
    (
        "a newer entry later",
        BESIDE,
        WRITTEN,
        &[&[
            Begins(SECOND_CHANCE),
            Log(Puts(NEWER)),
            Does(FIRST, Rests(Some(ReplicaFault::LogNewer))),
            Does(FIRST, Refuses(UPDATE, ReplicaFault::LogNewer)),
            Does(FIRST, Refuses(UPDATE, ReplicaFault::LogNewer)),
        ]],
    ),
    (
        "a newer delta later",
        BESIDE,
        WRITTEN,
        &[&[
            Begins(SECOND_CHANCE),
            Log(Puts(NEWER_DELTA)),
            Does(FIRST, Rests(Some(ReplicaFault::LogNewer))),
            Does(FIRST, Refuses(UPDATE, ReplicaFault::LogNewer)),
            Does(FIRST, Refuses(UPDATE, ReplicaFault::LogNewer)),
        ]],
    ),
];

/// A replica goes on over what is good, and knows the registration.
const GOES_ON: &[Step] = &[
    Begins(SECOND_CHANCE),
    Shows(FIRST, Fleet(Some(FLEET))),
    Does(FIRST, Answers(UPDATE, CHANGED)),
];

/// Entries over which a replica begins that knows the registration.
static GOOD: &[Story] = &[
    ("good entries", BESIDE, WRITTEN, &[GOES_ON]),
    (
        // nothing, a byte, a number 0, a byte behind a start, and a delta cut short
        "what is no entry between them",
        BESIDE,
        &[
            START,
            "",
            "00",
            "4c574531000102030405060708090a0b0c0d0e0f0000a1a2a3a4a5a6a7a8000000000000000100",
            "4c574531000102030405060708090a0b0c0d0e0f0102a1a2a3a4a5a6a7a800000000000000010000",
            "4c574531000102030405060708090a0b0c0d0e0f0102a1a2a3a4a5a6a7a80000000000000002014c5744330000",
            DELTA,
        ],
        &[GOES_ON],
    ),
    (
        "the same twice",
        BESIDE,
        &[START, DELTA, START, DELTA],
        &[GOES_ON],
    ),
    // The start of a claim that was lost made no fleet.
    (
        "a lost claim before",
        BESIDE,
        &[OTHER_START, START, DELTA],
        &[GOES_ON],
    ),
    (
        "a lost claim between",
        BESIDE,
        &[START, OTHER_START, DELTA],
        &[GOES_ON],
    ),
];

/// A delta without slots.
const EMPTY_DELTA: &str = "4c57443300000000000100";

/// The delta with the first Register of `a`.
const FULL_DELTA: &str =
    "4c57443300000000000101016100000000000100017f000000000000010001047f0000011633\
000000000001000100000000000000000000000100010001518000000000000100010155\
000000000001000100000000000001000100033c2f3e00000000";

/// A snapshot makes a cut log good.
const GOOD_AGAIN: &[Step] = &[
    Log(PutsSnapshot(0, 0, 0, FULL_DELTA)),
    Begins(SECOND_CHANCE),
    Shows(FIRST, Fleet(Some(FLEET))),
    Does(FIRST, Answers(UPDATE, CHANGED)),
];

/// What others wrote while a snapshot was made stands before it.
static CUT: &[Story] = &[
    ("a delta before a snapshot", BESIDE, &[DELTA], &[GOOD_AGAIN]),
    (
        "a later start before a snapshot",
        BESIDE,
        &[START_AGAIN],
        &[GOOD_AGAIN],
    ),
    (
        "what is no entry before a snapshot",
        BESIDE,
        &["00"],
        &[GOOD_AGAIN],
    ),
];

/// Each number has had a start. The bit of number 0 says nothing.
static ENDED: &[Story] = &[
    (
        "all numbers",
        BESIDE,
        &[],
        &[&[
            Log(PutsSnapshot(0xff, 0, 0xfe, EMPTY_DELTA)),
            BeginsNot(SECOND_CHANCE, ReplicaFault::NumbersEnded),
        ]],
    ),
    (
        "all numbers and 0",
        BESIDE,
        &[],
        &[&[
            Log(PutsSnapshot(0xff, 0, 0xff, EMPTY_DELTA)),
            BeginsNot(SECOND_CHANCE, ReplicaFault::NumbersEnded),
        ]],
    ),
];

/// The tag of starts that draw other numbers.
const TAG: u64 = 0xb1b2_b3b4_b5b6_b7b8;

/// A byte of the numbers and what it is, the number that is drawn, and the one that the replica takes.
static NUMBERS: &[Story] = &[
    (
        "byte 0 is 00, and 2 is drawn",
        BESIDE,
        &[],
        &[&[
            Log(PutsSnapshot(0, 0, 0x00, EMPTY_DELTA)),
            Begins(Randomness {
                fleet: OTHER_FLEET,
                tag: TAG,
                number: 2,
            }),
            Shows(FIRST, Number(2)),
        ]],
    ),
    (
        "byte 0 is 04, and 2 is drawn",
        BESIDE,
        &[],
        &[&[
            Log(PutsSnapshot(0, 0, 0x04, EMPTY_DELTA)),
            Begins(Randomness {
                fleet: OTHER_FLEET,
                tag: TAG,
                number: 2,
            }),
            Shows(FIRST, Number(4)),
        ]],
    ),
    (
        "byte 0 is 14, and 2 is drawn",
        BESIDE,
        &[],
        &[&[
            Log(PutsSnapshot(0, 0, 0x14, EMPTY_DELTA)),
            Begins(Randomness {
                fleet: OTHER_FLEET,
                tag: TAG,
                number: 2,
            }),
            Shows(FIRST, Number(5)),
        ]],
    ),
    (
        "byte 0 is 80, and 7 is drawn",
        BESIDE,
        &[],
        &[&[
            Log(PutsSnapshot(0, 0, 0x80, EMPTY_DELTA)),
            Begins(Randomness {
                fleet: OTHER_FLEET,
                tag: TAG,
                number: 7,
            }),
            Shows(FIRST, Number(8)),
        ]],
    ),
    (
        "byte 1 is 01, and 8 is drawn",
        BESIDE,
        &[],
        &[&[
            Log(PutsSnapshot(0, 1, 0x01, EMPTY_DELTA)),
            Begins(Randomness {
                fleet: OTHER_FLEET,
                tag: TAG,
                number: 8,
            }),
            Shows(FIRST, Number(9)),
        ]],
    ),
    (
        "byte 0 is f6, and 1 is drawn",
        BESIDE,
        &[],
        &[&[
            Log(PutsSnapshot(0, 0, 0xf6, EMPTY_DELTA)),
            Begins(Randomness {
                fleet: OTHER_FLEET,
                tag: TAG,
                number: 1,
            }),
            Shows(FIRST, Number(8)),
        ]],
    ),
    (
        "byte 0 is 00, and 0 is drawn",
        BESIDE,
        &[],
        &[&[
            Log(PutsSnapshot(0, 0, 0x00, EMPTY_DELTA)),
            Begins(Randomness {
                fleet: OTHER_FLEET,
                tag: TAG,
                number: 0,
            }),
            Shows(FIRST, Number(1)),
        ]],
    ),
    (
        "byte 8191 is 80, and 65535 is drawn",
        BESIDE,
        &[],
        &[&[
            Log(PutsSnapshot(0, 8191, 0x80, EMPTY_DELTA)),
            Begins(Randomness {
                fleet: OTHER_FLEET,
                tag: TAG,
                number: 65535,
            }),
            Shows(FIRST, Number(1)),
        ]],
    ),
    (
        "byte 8191 is ff, and 65528 is drawn",
        BESIDE,
        &[],
        &[&[
            Log(PutsSnapshot(0, 8191, 0xff, EMPTY_DELTA)),
            Begins(Randomness {
                fleet: OTHER_FLEET,
                tag: TAG,
                number: 65528,
            }),
            Shows(FIRST, Number(1)),
        ]],
    ),
];

/// The snapshot comes before the start of the replica.
const BEFORE: &[Step] = &[
    Begins(SECOND_CHANCE),
    Log(PutsSnapshot(0, 0, 0x04, EMPTY_DELTA)),
    Does(FIRST, Refuses(UPDATE, ReplicaFault::NumberTaken)),
];

/// The snapshot comes behind it.
const BEHIND: &[Step] = &[
    Begins(SECOND_CHANCE),
    Does(FIRST, Answers(UPDATE, CHANGED)),
    Log(PutsSnapshot(0, 0, 0x04, EMPTY_DELTA)),
    Does(FIRST, Answers(UPDATE, CHANGED)),
];

/// A number is lost where a snapshot that comes before its start has its bit.
static NUMBERED: &[Story] = &[
    ("a snapshot before the start", BESIDE, WRITTEN, &[BEFORE]),
    ("a snapshot behind the start", BESIDE, WRITTEN, &[BEHIND]),
];

/// Tries: lw_replica::Replica::begin, lw_replica::Replica::round, lw_replica::Replica::fleet
/// Tries: lw_replica::Replica::start
#[test]
fn a_replica_goes_on_over_what_is_good_of_a_log(rt: HostRuntime) {
    play_all(&rt, rt.alloc(), LATER);
    play_all(&rt, rt.alloc(), GOOD);
    play_all(&rt, rt.alloc(), NUMBERED);
}

/// Tries: lw_replica::Replica::begin, lw_replica::Replica::round
#[test]
fn what_is_no_entry_is_refused_or_passed_over(rt: HostRuntime) {
    play_all(&rt, rt.alloc(), REFUSED);
    play_all(&rt, rt.alloc(), CUT);
}

/// Tries: lw_replica::Replica::begin, lw_replica::Replica::start
#[test]
fn a_replica_takes_a_number_that_is_free(rt: HostRuntime) {
    play_all(&rt, rt.alloc(), ENDED);
    play_all(&rt, rt.alloc(), NUMBERS);
}
