//! What a round adds to a tally.

use crate::rounds::Gave::{NoReply, NoticeAndReply, Other, Reply, Swept};
use crate::rounds::{Gave, Made, Round, count};
use crate::shown::are_counted;
use lw_metrics::{IoCounters, Tally};
use std::alloc::Global;
use std::process::Abort;

/// An acknowledgement with 2.01, of a Register.
const CREATED: &[u8] = &[0x60, 0x41, 0x00, 0x01];
/// The Reset of a datagram that is no message.
const RESET: &[u8] = &[0x70, 0x00, 0x00, 0x02];
/// An empty acknowledgement, of a notification.
const ACKNOWLEDGED: &[u8] = &[0x60, 0x00, 0x00, 0x03];

/// A round with a Register, what is no message, and two sweeps, of which the first ends a registration.
const ROUND: Round = (
    &[Made::Take, Made::Take, Made::Sweep, Made::Sweep],
    &[Reply(CREATED), Reply(RESET), Swept, Other(1)],
);

/// Rounds, and the samples above 0 of a tally that has counted them.
type Course = (&'static [Round], &'static [&'static str]);

/// Fails where a tally that counts these rounds has other samples then.
fn counts(rt: &impl Abort, alloc: Global, tally: Tally, course: &Course) {
    let (rounds, want) = course;
    let mut tally = tally;
    for round in *rounds {
        count(rt, alloc, &mut tally, round);
    }
    are_counted(rt, alloc, (tally, IoCounters::new()), want);
}

/// Fails where new tallies that count these rounds have other samples then.
fn count_all(rt: &impl Abort, alloc: Global, courses: &[Course]) {
    for course in courses {
        counts(rt, alloc, Tally::new(), course);
    }
}

static NOTHING: [Course; 1] = [(&[], &[])];

/// Tries: lw_metrics::Tally::new
#[test]
fn a_new_tally_has_counted_nothing(rt: HostRuntime) {
    count_all(&rt, rt.alloc(), &NOTHING);
}

static ONCE: [Course; 1] = [(
    &[ROUND],
    &[
        "fleet_rounds_total 1",
        "fleet_datagrams_total 2",
        "fleet_replies_total{code=\"2.01\"} 1",
        "fleet_empty_replies_total 1",
        "fleet_swept_total 1",
    ],
)];

/// Tries: lw_metrics::Tally::count, lw_metrics::metrics_text
#[test]
fn a_register_a_reset_and_a_sweep_are_counted_once(rt: HostRuntime) {
    count_all(&rt, rt.alloc(), &ONCE);
}

static THRICE: [Course; 1] = [(
    &[ROUND, ROUND, ROUND, (&[], &[])],
    &[
        "fleet_rounds_total 4",
        "fleet_datagrams_total 6",
        "fleet_replies_total{code=\"2.01\"} 3",
        "fleet_empty_replies_total 3",
        "fleet_swept_total 3",
    ],
)];

/// Tries: lw_metrics::Tally::count
#[test]
fn rounds_add_up(rt: HostRuntime) {
    count_all(&rt, rt.alloc(), &THRICE);
}

static NOTIFICATIONS: [Course; 1] = [(
    &[(&[], &[NoticeAndReply(ACKNOWLEDGED), Gave::Notice, NoReply])],
    &[
        "fleet_rounds_total 1",
        "fleet_empty_replies_total 1",
        "fleet_unanswered_total 2",
        "fleet_notifications_total 2",
    ],
)];

/// Tries: lw_metrics::Tally::count
#[test]
fn a_notification_is_counted_beside_its_reply(rt: HostRuntime) {
    count_all(&rt, rt.alloc(), &NOTIFICATIONS);
}

static OTHERS: [Course; 1] = [(
    &[
        (&[Made::Merge, Made::Send, Made::Sweep], &[]),
        (&[], &[Other(0)]),
        (&[], &[Other(1)]),
        (&[], &[Other(2)]),
        (&[], &[Other(3)]),
        (&[], &[Other(4)]),
        (&[], &[Other(5)]),
    ],
    &["fleet_rounds_total 7"],
)];

/// Tries: lw_metrics::Tally::count
#[test]
fn other_calls_are_no_datagrams_and_no_replies(rt: HostRuntime) {
    count_all(&rt, rt.alloc(), &OTHERS);
}

static WANTS: [Course; 1] = [(
    &[
        (&[], &[Gave::NoMemory(0)]),
        (&[], &[Gave::NoMemory(1)]),
        (&[], &[Gave::NoMemory(2)]),
        (&[], &[Gave::NoMemory(3)]),
        (&[], &[Gave::NoMemory(4)]),
        (&[], &[Gave::NoMemory(5)]),
    ],
    &["fleet_rounds_total 6", "fleet_no_memory_total 6"],
)];

/// Tries: lw_metrics::Tally::count
#[test]
fn want_of_memory_is_counted_alone(rt: HostRuntime) {
    count_all(&rt, rt.alloc(), &WANTS);
}

/// A round with a reply of these bytes, and its sample.
macro_rules! coded {
    ($bytes:expr, $sample:expr) => {
        (
            &[(&[], &[Reply($bytes)])],
            &["fleet_rounds_total 1", $sample],
        )
    };
}

/// Replies with their samples, as the protocol has their codes (RFC 7252, section 12.1.2).
static CODES: [Course; 12] = [
    coded!(&[0x60, 0x41], "fleet_replies_total{code=\"2.01\"} 1"),
    coded!(&[0x60, 0x42], "fleet_replies_total{code=\"2.02\"} 1"),
    coded!(&[0x60, 0x44], "fleet_replies_total{code=\"2.04\"} 1"),
    coded!(&[0x60, 0x80], "fleet_replies_total{code=\"4.00\"} 1"),
    coded!(&[0x60, 0x82], "fleet_replies_total{code=\"4.02\"} 1"),
    coded!(&[0x60, 0x84], "fleet_replies_total{code=\"4.04\"} 1"),
    coded!(&[0x60, 0x85], "fleet_replies_total{code=\"4.05\"} 1"),
    coded!(&[0x60, 0x8c], "fleet_replies_total{code=\"4.12\"} 1"),
    coded!(&[0x60, 0x8d], "fleet_replies_total{code=\"4.13\"} 1"),
    coded!(&[0x60, 0x8f], "fleet_replies_total{code=\"4.15\"} 1"),
    coded!(&[0x60, 0xa3], "fleet_replies_total{code=\"5.03\"} 1"),
    coded!(&[0x60, 0xa5], "fleet_replies_total{code=\"5.05\"} 1"),
];

/// Tries: lw_metrics::Tally::count
#[test]
fn each_code_is_counted_by_itself(rt: HostRuntime) {
    count_all(&rt, rt.alloc(), &CODES);
}

/// Bytes without a code that a server gives: 2.05, one byte, and none.
static NO_CODES: [Course; 3] = [
    (
        &[(&[], &[Reply(&[0x60, 0x45, 0x00, 0x01])])],
        &["fleet_rounds_total 1"],
    ),
    (&[(&[], &[Reply(&[0x41])])], &["fleet_rounds_total 1"]),
    (&[(&[], &[Reply(&[])])], &["fleet_rounds_total 1"]),
];

/// Tries: lw_metrics::Tally::count
#[test]
fn bytes_with_no_such_code_are_not_counted(rt: HostRuntime) {
    count_all(&rt, rt.alloc(), &NO_CODES);
}

fn full_tally() -> Tally {
    let mut tally = Tally::new();
    tally.rounds = u64::MAX;
    tally.datagrams = u64::MAX - 1;
    tally.replies[0] = u64::MAX;
    tally.empty_replies = u64::MAX;
    tally.swept = u64::MAX;
    tally
}

/// A round behind a full tally.
static BEHIND: Course = (
    &[ROUND],
    &[
        "fleet_rounds_total 18446744073709551615",
        "fleet_datagrams_total 18446744073709551615",
        "fleet_replies_total{code=\"2.01\"} 18446744073709551615",
        "fleet_empty_replies_total 18446744073709551615",
        "fleet_swept_total 18446744073709551615",
    ],
);

/// Tries: lw_metrics::Tally::count
#[test]
fn a_number_stays_at_the_greatest(rt: HostRuntime) {
    counts(&rt, rt.alloc(), full_tally(), &BEHIND);
}
