//! What a replica asks of its log.

use super::*;
use lw_log::{MemoryCall, Position};

/// A call of a log: what it was, and its position, 0 for none. Behind a reading stand how many entries came, and the
/// position of the last, 0 for none.
pub(super) type Asked = (char, u64, usize, u64);

pub(super) const READ: char = 'r';

pub(super) const WROTE: char = 'w';

pub(super) const TRIMMED: char = 'x';

/// The major number of the position, or 0 where there is none.
fn place_of(after: Option<Position>) -> u64 {
    match after {
        Some(position) => position.major,
        None => 0,
    }
}

/// The major number of the position of the last entry, or 0 where there is none.
fn last_place(page: &[(Position, Bytes)]) -> u64 {
    match page.last() {
        Some((position, _)) => position.major,
        None => 0,
    }
}

fn asked_by(call: &MemoryCall) -> Asked {
    match call {
        MemoryCall::Read(after, page) => (READ, place_of(*after), page.len(), last_place(page)),
        MemoryCall::Wrote(position, _) => (WROTE, position.major, 0, 0),
        MemoryCall::Tried(_) => ('t', 0, 0, 0),
        MemoryCall::Trimmed(upto) => (TRIMMED, upto.major, 0, 0),
    }
}

/// Compares what the log was asked for behind so many calls.
pub(super) fn was_asked(rt: &impl Abort, at: At, entries: &Entries, before: usize, want: &[Asked]) {
    let log = entries.try_borrow().expect(rt, "the log is free");
    let calls = log.asked().get(before..).expect(rt, "calls");
    counts(rt, at, calls.len(), want.len());
    for (call, row) in calls.iter().zip(want) {
        holds(rt, at, asked_by(call) == *row);
    }
}

/// An empty message of a device, message ID 7, and its reply, a reset.
const PING: &str = "40000007";

const PONG: &str = "70000007";

/// Two readings at the start. Then a first Register, a second one and a ping.
static ROUNDS: [Story; 1] = [(
    "a round reads and then writes",
    BESIDE,
    &[],
    &[&[
        Begins(FIRST_CHANCE),
        Log(WasAsked(0, &[(READ, 0, 0, 0), (READ, 0, 0, 0)])),
        Does(FIRST, Answers(REGISTER, CREATED)),
        Log(WasAsked(2, &[(WROTE, 1, 0, 0), (READ, 0, 1, 1), (WROTE, 2, 0, 0)])),
        Does(FIRST, Answers(REGISTER_B, CREATED_B)),
        Log(WasAsked(5, &[(READ, 1, 1, 2), (WROTE, 3, 0, 0)])),
        Does(FIRST, Answers(PING, PONG)),
        Log(WasAsked(7, &[(READ, 2, 1, 3)])),
    ]],
)];

/// Tries: lw_replica::Replica::begin, lw_replica::Replica::round
#[test]
fn a_round_reads_and_then_writes(rt: HostRuntime) {
    play_all(&rt, rt.alloc(), &ROUNDS);
}

/// A log with a start, so many times bytes that are no entry, and a delta, and what two readings to their end are. A
/// page of fewer than 256 entries is the last. The log was asked for each append before.
static PAGES: [Story; 3] = [
    (
        "255 entries",
        BESIDE,
        &[START],
        &[&[
            Log(PutsTimes(253, "00")),
            Log(Puts(DELTA)),
            Begins(SECOND_CHANCE),
            Log(WasAsked(255, &[(READ, 0, 255, 255), (READ, 0, 255, 255)])),
            Does(FIRST, Answers(UPDATE, CHANGED)),
        ]],
    ),
    (
        "256 entries",
        BESIDE,
        &[START],
        &[&[
            Log(PutsTimes(254, "00")),
            Log(Puts(DELTA)),
            Begins(SECOND_CHANCE),
            Log(WasAsked(
                256,
                &[
                    (READ, 0, 256, 256),
                    (READ, 256, 0, 0),
                    (READ, 0, 256, 256),
                    (READ, 256, 0, 0),
                ],
            )),
            Does(FIRST, Answers(UPDATE, CHANGED)),
        ]],
    ),
    (
        "257 entries",
        BESIDE,
        &[START],
        &[&[
            Log(PutsTimes(255, "00")),
            Log(Puts(DELTA)),
            Begins(SECOND_CHANCE),
            Log(WasAsked(
                257,
                &[
                    (READ, 0, 256, 256),
                    (READ, 256, 1, 257),
                    (READ, 0, 256, 256),
                    (READ, 256, 1, 257),
                ],
            )),
            Does(FIRST, Answers(UPDATE, CHANGED)),
        ]],
    ),
];

/// Tries: lw_replica::Replica::begin, lw_replica::Replica::round
#[test]
fn a_log_is_read_to_its_end(rt: HostRuntime) {
    play_all(&rt, rt.alloc(), &PAGES);
}
