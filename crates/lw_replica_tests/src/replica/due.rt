//! When a compaction is due, by the bytes of the entries that are in the log.

use super::acts::is_seen;
use super::stage::numbered;
use super::*;
use crate::large::{fill, large};
use std::alloc::AllocError;

/// What stands before the delta of an entry of the first: its head with sequence 2, kind 1.
const DELTA_HEAD: &str =
    "4c574531000102030405060708090a0b0c0d0e0f0001a1a2a3a4a5a6a7a8000000000000000201";

/// The same of a snapshot, before its numbers.
const SNAPSHOT_HEAD: &str =
    "4c574531000102030405060708090a0b0c0d0e0f0001a1a2a3a4a5a6a7a8000000000000000202";

/// How many bytes a start entry has, and two.
const START_LENGTH: usize = 39;

const TWO_STARTS: usize = 78;

const MIB: usize = 1_048_576;

/// A Register without a name, which is refused and changes nothing, and its reply.
const NAMELESS: &str = "40020006b27264ff3c2f3e";

const NAMELESS_REPLY: &str = "60800006";

/// Appends a snapshot of so many bytes, whose numbers are none.
pub(super) fn put_large(rt: &impl Abort, alloc: Global, entries: &Entries, length: usize) {
    let head = numbered(rt, alloc, SNAPSHOT_HEAD, (0, 0, 0));
    add(entries, &large(rt, alloc, &head, length)).expect(rt, "an append");
}

/// Appends deltas that have so many bytes together.
pub(super) fn put_deltas(rt: &impl Abort, alloc: Global, entries: &Entries, total: usize) {
    let head = bytes_of(alloc, DELTA_HEAD).expect(rt, "a head");
    fill(rt, alloc, entries, &head, total);
}

/// A replica that begins does not want a compaction before it has entered its start.
const ENTERS: &[Step] = &[
    Begins(SECOND_CHANCE),
    Shows(FIRST, IsDue(false)),
    Does(FIRST, Answers(NAMELESS, NAMELESS_REPLY)),
];

/// The entries have exactly 16 MiB behind the last snapshot, or one byte more: the first start and that of the
/// replica are among them, where there is no snapshot.
static STORIES: [Story; 2] = [
    (
        "16 MiB are not due",
        BOTH_WAYS,
        &[START],
        &[
            &[Log(PutsDeltas(16 * MIB - TWO_STARTS))],
            ENTERS,
            &[
                Log(HasBytes(16 * MIB)),
                Shows(FIRST, IsDue(false)),
                Shows(FIRST, HasSize(0, 16 * MIB)),
            ],
        ],
    ),
    (
        "16 MiB and a byte are due",
        BOTH_WAYS,
        &[START],
        &[
            &[Log(PutsDeltas(16 * MIB + 1 - TWO_STARTS))],
            ENTERS,
            &[
                Log(HasBytes(16 * MIB + 1)),
                Shows(FIRST, IsDue(true)),
                Shows(FIRST, HasSize(0, 16 * MIB + 1)),
            ],
        ],
    ),
];

/// Tries: lw_replica::Replica::wants_compaction, lw_replica::Replica::begin, lw_replica::Replica::log_size
#[test]
fn a_log_of_16_mib_is_not_due_and_one_byte_more_is(rt: HostRuntime) {
    play_all(&rt, rt.alloc(), &STORIES);
}

static BEHIND_1_MIB: [Story; 2] = [
    (
        "16 MiB behind a snapshot of 1 MiB are not due",
        BESIDE,
        &[START],
        &[
            &[
                Log(PutsLarge(MIB)),
                Log(PutsDeltas(16 * MIB - START_LENGTH)),
            ],
            ENTERS,
            &[
                Log(HasBytes(START_LENGTH + MIB + 16 * MIB)),
                Shows(FIRST, IsDue(false)),
                Shows(FIRST, HasSize(MIB, 16 * MIB)),
            ],
        ],
    ),
    (
        "16 MiB and a byte behind a snapshot of 1 MiB are due",
        BESIDE,
        &[START],
        &[
            &[
                Log(PutsLarge(MIB)),
                Log(PutsDeltas(16 * MIB + 1 - START_LENGTH)),
            ],
            ENTERS,
            &[
                Log(HasBytes(START_LENGTH + MIB + 16 * MIB + 1)),
                Shows(FIRST, IsDue(true)),
                Shows(FIRST, HasSize(MIB, 16 * MIB + 1)),
            ],
        ],
    ),
];

/// Tries: lw_replica::Replica::wants_compaction, lw_replica::Replica::log_size
#[test]
fn behind_a_snapshot_below_4_mib_it_is_the_same(rt: HostRuntime) {
    play_all(&rt, rt.alloc(), &BEHIND_1_MIB);
}

static BEHIND_5_MIB: [Story; 2] = [
    (
        "20 MiB behind a snapshot of 5 MiB are not due",
        BESIDE,
        &[START],
        &[
            &[
                Log(PutsLarge(5 * MIB)),
                Log(PutsDeltas(20 * MIB - START_LENGTH)),
            ],
            ENTERS,
            &[
                Log(HasBytes(START_LENGTH + 5 * MIB + 20 * MIB)),
                Shows(FIRST, IsDue(false)),
                Shows(FIRST, HasSize(5 * MIB, 20 * MIB)),
            ],
        ],
    ),
    (
        "20 MiB and a byte behind a snapshot of 5 MiB are due",
        BESIDE,
        &[START],
        &[
            &[
                Log(PutsLarge(5 * MIB)),
                Log(PutsDeltas(20 * MIB + 1 - START_LENGTH)),
            ],
            ENTERS,
            &[
                Log(HasBytes(START_LENGTH + 5 * MIB + 20 * MIB + 1)),
                Shows(FIRST, IsDue(true)),
                Shows(FIRST, HasSize(5 * MIB, 20 * MIB + 1)),
            ],
        ],
    ),
];

/// Tries: lw_replica::Replica::wants_compaction
#[test]
fn behind_a_snapshot_of_5_mib_20_mib_are_not_due(rt: HostRuntime) {
    play_all(&rt, rt.alloc(), &BEHIND_5_MIB);
}

/// An Update of the first registration with an object list of 8,000 bytes, message ID 17: Content-Format 40, and
/// the list as payload.
fn long_update(alloc: Global) -> Result<String, AllocError> {
    let mut text = format!(in alloc; "{UPDATE}1128ff3c2f")?;
    for _ in 3..8_000 {
        text.push_str("61")?;
    }
    text.push_str("3e")?;
    Ok(text)
}

const COUNTING: At = ("what a replica appends is counted", 0, 0);

/// Makes Updates until a compaction is wanted, which is where the entries have more than 16 MiB.
pub(super) fn update_until_due(
    rt: &impl Abort,
    alloc: Global,
    entries: &Entries,
    replica: &mut Replica<Shared<'_>>,
) {
    let update = long_update(alloc).expect(rt, "memory");
    for _ in 0..2_200 {
        if is_seen(replica, &IsDue(true)) {
            break;
        }
        update_once(rt, alloc, entries, replica, update.as_str());
    }
    holds(rt, COUNTING, is_seen(replica, &IsDue(true)));
}

fn update_once(
    rt: &impl Abort,
    alloc: Global,
    entries: &Entries,
    replica: &mut Replica<Shared<'_>>,
    update: &str,
) {
    answers(rt, alloc, COUNTING, replica, (update, CHANGED));
    let is_large = total_of(rt, entries) > 16 * MIB;
    holds(rt, COUNTING, is_seen(replica, &IsDue(true)) == is_large);
}

const COUNTED: &[Step] = &[
    Begins(FIRST_CHANCE),
    Does(FIRST, Answers(REGISTER, CREATED)),
    UpdatesUntilDue(FIRST),
    Does(FIRST, Compacts(None)),
    Log(HasCount(1)),
    Shows(FIRST, IsDue(false)),
    Does(FIRST, Answers(UPDATE, CHANGED)),
    Shows(FIRST, IsDue(false)),
];

static COUNTS: [Story; 1] = [("what a replica appends is counted", ALONE, &[], &[COUNTED])];

/// Tries: lw_replica::Replica::wants_compaction, lw_replica::Replica::round, lw_replica::Replica::compact
#[test]
fn what_a_replica_appends_is_counted(rt: HostRuntime) {
    play_all(&rt, rt.alloc(), &COUNTS);
}
