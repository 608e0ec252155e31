//! A start after another.

use super::*;

const EMPTY: &[Step] = &[
    Begins(FIRST_CHANCE),
    Shows(FIRST, Number(1)),
    Shows(FIRST, Tag(FIRST_CHANCE.tag)),
    Shows(FIRST, Fleet(None)),
    Shows(FIRST, Shown(true)),
    Does(FIRST, Rests(None)),
    Shows(FIRST, Claimed(false)),
    Log(Has(&[])),
];

const REGISTERED: &[Step] = &[
    Begins(FIRST_CHANCE),
    Does(FIRST, Answers(REGISTER, CREATED)),
    Log(Has(&[START, DELTA])),
    Shows(FIRST, Claimed(true)),
    Shows(FIRST, Fleet(Some(FLEET))),
    Shows(FIRST, Shown(true)),
    Does(FIRST, Rests(None)),
    Log(Has(&[START, DELTA])),
];

/// The first replica's delta with the Register of `b` alone, sequence 3.
const DELTA_B: &str =
    "4c574531000102030405060708090a0b0c0d0e0f0001a1a2a3a4a5a6a7a8000000000000000301\
4c57443300000000000201016200000000000200017f000000000000020001047f0000011633\
000000000002000100000000000000000000000200010001518000000000000200010155\
000000000002000100000000000002000100033c2f3e00000000";

/// Its delta with `a` alone, whose address and moment an Update with counter 3 has told, sequence 4.
const DELTA_UPDATED: &str =
    "4c574531000102030405060708090a0b0c0d0e0f0001a1a2a3a4a5a6a7a8000000000000000401\
4c57443300000000000301016100000000000100017f000000000000030001047f0000011633\
000000000003000100000000000000000000000100010001518000000000000100010155\
000000000001000100000000000001000100033c2f3e00000000";

const CHANGES: &[Step] = &[
    Begins(FIRST_CHANCE),
    Does(FIRST, Answers(REGISTER, CREATED)),
    Does(FIRST, Answers(REGISTER_B, CREATED_B)),
    Does(FIRST, Answers(UPDATE, CHANGED)),
    Log(Has(&[START, DELTA, DELTA_B, DELTA_UPDATED])),
];

/// What the second draws where it draws the number of the first.
const NEXT_CHANCE: Randomness = Randomness {
    fleet: OTHER_FLEET,
    tag: 0xb1b2_b3b4_b5b6_b7b8,
    number: 1,
};

/// A replica registers the device and observes it, and ends.
const NEXT: &[Step] = &[
    Begins(FIRST_CHANCE),
    Does(FIRST, Answers(REGISTER, CREATED)),
    Does(FIRST, Observes),
    End,
    Begins(NEXT_CHANCE),
    Shows(FIRST, Number(2)),
    Shows(FIRST, Fleet(Some(FLEET))),
    Does(FIRST, Answers(TOLD, TOLD_REPLY)),
    Does(FIRST, Answers(UPDATE, CHANGED)),
];

const IN_ORDER: &[Step] = &[
    Begins(FIRST_CHANCE),
    Does(
        FIRST,
        AnswersAll(&[(UPDATE, NOT_FOUND), (REGISTER, CREATED), (UPDATE, CHANGED)]),
    ),
];

static STORIES: [Story; 5] = [
    ("a replica begins over an empty log", BESIDE, &[], &[EMPTY]),
    (
        "a first register writes a start and a delta",
        BOTH_WAYS,
        &[],
        &[REGISTERED],
    ),
    (
        "a round writes what it has changed",
        BOTH_WAYS,
        &[],
        &[CHANGES],
    ),
    (
        "what a replica answered the next start knows",
        BOTH_WAYS,
        &[],
        &[NEXT],
    ),
    ("a round makes its calls in order", BESIDE, &[], &[IN_ORDER]),
];

/// Tries: lw_replica::Replica::begin, lw_replica::Replica::fleet, lw_replica::Replica::start
/// Tries: lw_replica::Replica::is_claimed
/// Tries: lw_replica::Replica::round, lw_replica::Replica::node
#[test]
fn what_a_replica_answered_it_has_written(rt: HostRuntime) {
    play_all(&rt, rt.alloc(), &STORIES);
}
