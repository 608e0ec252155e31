//! Clocks, where they end and where they begin.

use super::acts::is_seen;
use super::*;
use lw_log::Nowhere;

/// A delta of the first start without slots, whose clock is at its end.
const LAST_CLOCK: &str =
    "4c574531000102030405060708090a0b0c0d0e0f0001a1a2a3a4a5a6a7a8000000000000000201\
4c574431ffffffffffff00";

/// The reply to a Register of `a` with the clock at its end: 5.03.
const UNAVAILABLE: &str = "60a30004";

const AT_END: &[Step] = &[
    Begins(SECOND_CHANCE),
    Shows(FIRST, Shown(true)),
    Does(FIRST, Answers(REGISTER, UNAVAILABLE)),
    Shows(FIRST, Shown(true)),
    Does(FIRST, Answers(REGISTER, UNAVAILABLE)),
    Log(Has(&[START, LAST_CLOCK, SECOND_START])),
];

/// The last millisecond before 2100-01-01 at midnight UTC, and the first after it.
const LAST_OF_2099: u64 = 4_102_444_799_999;

const FIRST_OF_2100: u64 = 4_102_444_800_000;

/// The moment in milliseconds at which a replica begins, and the reply to the first Register of `a`: its counter is
/// above 64 for each millisecond.
static FLOORS: [Story; 6] = [
    (
        "counter 1",
        BESIDE,
        &[],
        &[&[
            BeginsAt(0, FIRST_CHANCE),
            Does(FIRST, Answers(REGISTER, CREATED)),
            Shows(FIRST, Shown(true)),
        ]],
    ),
    (
        "counter 65",
        BESIDE,
        &[],
        &[&[
            BeginsAt(1, FIRST_CHANCE),
            Does(
                FIRST,
                Answers(
                    REGISTER,
                    "604100048272640d0330303030303030303030343130303031",
                ),
            ),
            Shows(FIRST, Shown(true)),
        ]],
    ),
    (
        "counter 64,001",
        BESIDE,
        &[],
        &[&[
            BeginsAt(1_000, FIRST_CHANCE),
            Does(
                FIRST,
                Answers(
                    REGISTER,
                    "604100048272640d0330303030303030306661303130303031",
                ),
            ),
            Shows(FIRST, Shown(true)),
        ]],
    ),
    (
        "counter 64 * 2^40 + 1",
        BESIDE,
        &[],
        &[&[
            BeginsAt(1_099_511_627_776, FIRST_CHANCE),
            Does(
                FIRST,
                Answers(
                    REGISTER,
                    "604100048272640d0334303030303030303030303130303031",
                ),
            ),
            Shows(FIRST, Shown(true)),
        ]],
    ),
    (
        "the last moment before 2100",
        BESIDE,
        &[],
        &[&[
            BeginsAt(LAST_OF_2099, FIRST_CHANCE),
            Does(
                FIRST,
                Answers(
                    REGISTER,
                    "604100048272640d0365656362333066356666633130303031",
                ),
            ),
            Shows(FIRST, Shown(true)),
        ]],
    ),
    (
        "none from 2100 on",
        BESIDE,
        &[],
        &[&[IsAheadAt(FIRST_OF_2100), Log(Has(&[]))]],
    ),
];

/// Deltas of the first start without slots: the first clock of 2020, the last of that millisecond, and the one before.
const IN_2020: &str =
    "4c574531000102030405060708090a0b0c0d0e0f0001a1a2a3a4a5a6a7a8000000000000000201\
4c5744335bd799ba000000";

const LATER_IN_2020: &str =
    "4c574531000102030405060708090a0b0c0d0e0f0001a1a2a3a4a5a6a7a8000000000000000201\
4c5744335bd799ba003f00";

const BEFORE_2020: &str =
    "4c574531000102030405060708090a0b0c0d0e0f0001a1a2a3a4a5a6a7a8000000000000000201\
4c5744335bd799b9ffff00";

/// Five years of 365.25 days after 2020-01-01, in milliseconds.
const FIVE_YEARS_LATER: u64 = 1_577_836_800_000 + 157_788_000_000;

/// A log of 2020 or later takes a start up to five years after it, and one of before up to 2100. What is refused writes
/// nothing, and the next start begins.
static AHEAD: [Story; 5] = [
    (
        "2100 over a log of 1970",
        BESIDE,
        WRITTEN,
        &[&[
            IsAheadAt(FIRST_OF_2100),
            IsAheadAt(Moment::LAST_MS),
            Log(Has(WRITTEN)),
            BeginsAt(LAST_OF_2099, SECOND_CHANCE),
            Does(FIRST, Answers(UPDATE, CHANGED)),
        ]],
    ),
    (
        "five years after a log of 2020",
        BESIDE,
        &[START, IN_2020],
        &[&[
            IsAheadAt(FIVE_YEARS_LATER + 1),
            IsAheadAt(LAST_OF_2099),
            Log(Has(&[START, IN_2020])),
            BeginsAt(FIVE_YEARS_LATER, SECOND_CHANCE),
        ]],
    ),
    (
        "five years after the millisecond of a log",
        BESIDE,
        &[START, LATER_IN_2020],
        &[&[
            IsAheadAt(FIVE_YEARS_LATER + 1),
            BeginsAt(FIVE_YEARS_LATER, SECOND_CHANCE),
        ]],
    ),
    (
        "a log of before 2020",
        BESIDE,
        &[START, BEFORE_2020],
        &[&[
            IsAheadAt(FIRST_OF_2100),
            BeginsAt(LAST_OF_2099, SECOND_CHANCE),
        ]],
    ),
    (
        "before a log",
        BESIDE,
        &[START, LAST_CLOCK],
        &[&[
            IsAheadAt(FIRST_OF_2100),
            BeginsAt(LAST_OF_2099, SECOND_CHANCE),
            BeginsAt(0, SECOND_CHANCE),
        ]],
    ),
];

const NOWHERE: At = ("a replica that keeps nothing", 0, 0);

/// Compares the replies of a replica that keeps nothing and begins at a moment. Then number 1 is its own, and nothing
/// is unwritten.
fn ask_nowhere(rt: &impl Abort, alloc: Global, ms: u64, rows: &[(&str, &str)]) {
    let moment = Moment::new(ms).expect(rt, "a moment");
    let begun = begin(alloc, Nowhere::new(alloc), &FIRST_CHANCE, moment);
    let mut replica = given(rt, NOWHERE, begun);
    for row in rows {
        answers(rt, alloc, NOWHERE, &mut replica, *row);
    }
    holds(
        rt,
        NOWHERE,
        is_seen(&replica, &Number(1)) && is_seen(&replica, &Shown(true)),
    );
}

/// An Update of the registration with counter 64,001.
const UPDATE_OF_BEFORE: &str = "40020011b272640d0330303030303030306661303130303031";

static BEFORE: [(&str, &str); 2] = [
    (
        REGISTER,
        "604100048272640d0330303030303030306661303130303031",
    ),
    (UPDATE_OF_BEFORE, CHANGED),
];

/// The Register then has counter 64,065.
static AFTER: [(&str, &str); 2] = [
    (UPDATE_OF_BEFORE, NOT_FOUND),
    (
        REGISTER,
        "604100048272640d0330303030303030306661343130303031",
    ),
];

/// Tries: lw_replica::Replica::begin, lw_replica::Replica::round
#[test]
fn a_start_that_knows_nothing_gives_no_identifier_of_before(rt: HostRuntime) {
    ask_nowhere(&rt, rt.alloc(), 1_000, &BEFORE);
    ask_nowhere(&rt, rt.alloc(), 1_001, &AFTER);
}

/// The first delta of the second start, sequence 3: no slot, and a clock of 64,000.
const CLOCK_ALONE: &str =
    "4c574531000102030405060708090a0b0c0d0e0f0002b1b2b3b4b5b6b7b8000000000000000301\
4c57443300000000fa0000";

/// Without calls the clock stays below the floor. It is raised with the claim, and written also where nothing else is.
const CLOCKS: &[Step] = &[
    BeginsAt(1_000, SECOND_CHANCE),
    Does(FIRST, Rests(None)),
    Shows(FIRST, Clock(1)),
    Log(Has(&[START, DELTA])),
    Does(FIRST, Answers("40000007", "70000007")),
    Shows(FIRST, Clock(64_000)),
    Log(Has(&[START, DELTA, SECOND_START, CLOCK_ALONE])),
];

static CLOCKED: [Story; 2] = [
    (
        "nothing is registered at the end of the clock",
        BESIDE,
        &[START, LAST_CLOCK],
        &[AT_END],
    ),
    (
        "a clock that alone has moved is written",
        BESIDE,
        WRITTEN,
        &[CLOCKS],
    ),
];

/// Tries: lw_replica::Replica::round, lw_replica::Replica::node, lw_replica::Replica::begin
#[test]
fn a_clock_begins_above_its_floor_and_ends(rt: HostRuntime) {
    play_all(&rt, rt.alloc(), &FLOORS);
    play_all(&rt, rt.alloc(), &CLOCKED);
}

/// Tries: lw_replica::Replica::begin
#[test]
fn no_replica_begins_past_2100_or_years_after_its_log(rt: HostRuntime) {
    play_all(&rt, rt.alloc(), &AHEAD);
}
