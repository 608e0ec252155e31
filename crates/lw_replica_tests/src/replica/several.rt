//! Several replicas over one log.

use super::*;

/// Without calls the second reads the fleet. Counter 1 is taken, 2 is the Update's, and 3 that of the Register of `b`
/// at node 2.
const KNOWN: &[Step] = &[
    Begins(FIRST_CHANCE),
    Begins(SECOND_CHANCE),
    Does(FIRST, Answers(REGISTER, CREATED)),
    Does(SECOND, Rests(None)),
    Shows(SECOND, Fleet(Some(FLEET))),
    Does(SECOND, Answers(UPDATE, CHANGED)),
    Does(
        SECOND,
        Answers(
            REGISTER_B,
            "604100058272640d0330303030303030303030303330303032",
        ),
    ),
    Does(
        FIRST,
        Answers(
            "40020011b272640d0330303030303030303030303330303032",
            CHANGED,
        ),
    ),
];

/// A Register without a name is refused, and changes nothing.
const READ: &[Step] = &[
    Begins(SECOND_CHANCE),
    Log(Puts(DELTA)),
    Does(FIRST, Rests(None)),
    Log(Has(&[START, DELTA])),
    Does(FIRST, Answers("40020006b27264ff3c2f3e", "60800006")),
    Log(Has(&[START, DELTA, SECOND_START])),
];

/// What the second draws where it draws the number and the fleet of the first.
const SAME_CHANCE: Randomness = Randomness {
    fleet: FLEET,
    tag: 0xb1b2_b3b4_b5b6_b7b8,
    number: 1,
};

/// The second has a round without calls before it has one with calls.
const IDLE: &[Step] = &[
    Begins(FIRST_CHANCE),
    Begins(SAME_CHANCE),
    Shows(FIRST, Number(1)),
    Shows(SECOND, Number(1)),
    Does(FIRST, Answers(REGISTER, CREATED)),
    Does(SECOND, Rests(Some(ReplicaFault::NumberTaken))),
    Does(SECOND, Refuses(REGISTER_B, ReplicaFault::NumberTaken)),
    Shows(SECOND, Claimed(false)),
    Does(FIRST, Answers(UPDATE, CHANGED)),
];

const NOT_IDLE: &[Step] = &[
    Begins(FIRST_CHANCE),
    Begins(SAME_CHANCE),
    Shows(FIRST, Number(1)),
    Shows(SECOND, Number(1)),
    Does(FIRST, Answers(REGISTER, CREATED)),
    Does(SECOND, Refuses(REGISTER_B, ReplicaFault::NumberTaken)),
    Shows(SECOND, Claimed(false)),
    Does(FIRST, Answers(UPDATE, CHANGED)),
];

/// The start entry of a start with number 1 and another tag.
const SAME_NUMBER: &str =
    "4c574531000102030405060708090a0b0c0d0e0f0001b1b2b3b4b5b6b7b8000000000000000100";

/// Its start comes behind the other one.
const BEHIND: &[Step] = &[
    Begins(FIRST_CHANCE),
    Log(Puts(SAME_NUMBER)),
    Does(FIRST, Refuses(REGISTER, ReplicaFault::NumberTaken)),
    Log(Has(&[SAME_NUMBER, START])),
];

/// Its start is written, and not read before the other one is there.
const BEFORE: &[Step] = &[
    Begins(FIRST_CHANCE),
    LogOf(FIRST, FailsReading(NEXT_UNAVAILABLE)),
    Does(FIRST, Refuses(REGISTER, UNAVAILABLE)),
    Log(Puts(SAME_NUMBER)),
    Does(FIRST, Answers(REGISTER, CREATED)),
];

/// The start of the second in the fleet that it has drawn.
const OTHER_START: &str =
    "4c574531f0f1f2f3f4f5f6f7f8f9fafbfcfdfeff0002b1b2b3b4b5b6b7b8000000000000000100";

/// What a third start draws.
const THIRD_CHANCE: Randomness = Randomness {
    fleet: OTHER_FLEET,
    tag: 1,
    number: 2,
};

/// The start of the first is written, and not read before the other's is there. Number 2 was taken.
const TWO_FLEETS: &[Step] = &[
    Begins(FIRST_CHANCE),
    Begins(SECOND_CHANCE),
    LogOf(FIRST, FailsReading(NEXT_UNAVAILABLE)),
    Does(FIRST, Refuses(REGISTER, UNAVAILABLE)),
    Does(SECOND, Refuses(REGISTER_B, ReplicaFault::NumberTaken)),
    Log(Has(&[START, OTHER_START])),
    Does(FIRST, Answers(REGISTER, CREATED)),
    Begins(THIRD_CHANCE),
    Shows(THIRD, Fleet(Some(FLEET))),
    Shows(THIRD, Number(3)),
    Does(THIRD, Answers(UPDATE, CHANGED)),
];

static STORIES: [Story; 7] = [
    (
        "what one replica answers the other knows",
        BESIDE,
        &[],
        &[KNOWN],
    ),
    // What a round of one replica leaves unchanged is written by no other.
    (
        "what was read is not written again",
        BESIDE,
        &[START],
        &[READ],
    ),
    (
        "a start with the same number is idle first",
        BESIDE,
        &[],
        &[IDLE],
    ),
    (
        "a start with the same number is not idle",
        BESIDE,
        &[],
        &[NOT_IDLE],
    ),
    (
        "a number is of the other, which is first in the log",
        BESIDE,
        &[],
        &[BEHIND],
    ),
    (
        "a number is of the start that is first in the log",
        BESIDE,
        &[],
        &[BEFORE],
    ),
    (
        "of two fleets the first in the log is served",
        BESIDE,
        &[],
        &[TWO_FLEETS],
    ),
];

/// Tries: lw_replica::Replica::round, lw_replica::Replica::fleet, lw_replica::Replica::is_claimed
/// Tries: lw_replica::Replica::begin
#[test]
fn several_replicas_share_a_log(rt: HostRuntime) {
    play_all(&rt, rt.alloc(), &STORIES);
}
