//! Runs over a log that is to be compacted.

use super::*;

/// What another start has left, so that with the start of this one there is one byte more than 16 MiB.
pub(super) const KEPT: usize = 16 * 1_048_576 + 1 - 39;

/// The reply to a Register behind counter 65,536, which stands in what was left; an Update of it, message ID 16.
const CREATED_BEHIND: &str = "604100048272640d0330303030303030313030303130303031";

const UPDATE_BEHIND: &str = "40020010b272640d0330303030303030313030303130303031";

const REFUSED: Piece = Piece::Line(
    "[ERROR lw_server::event_loop] log refused fault=the log refused",
);

const PUT_OFF: Piece = Piece::Line("[WARN  lw_server::event_loop] compaction put off");

const LOST: Piece = Piece::Line("[WARN  lw_server::event_loop] log lost");

const AWAY: Piece = Piece::Line("[WARN  lw_server::event_loop] log away");

const BACK: Piece = Piece::Line("[INFO  lw_server::event_loop] log back");

const COMPACTED: Piece = Piece::Line("[INFO  lw_server::event_loop] compacted");

/// A turn that only reads, the one that enters the start, and two behind it.
const BEFORE_DUE: [Coming; 4] = [
    Coming::Nothing,
    Coming::Datagram(1, PING),
    Coming::Datagram(2, REGISTER),
    Coming::Datagram(3, UPDATE_BEHIND),
];

/// The first turn with a datagram enters the start: an entry and a reading. Where that makes the compaction due it
/// follows: a reading, an entry and a trim. The turns behind it go on. Where a byte less is there, it follows the turn
/// that writes more.
static DUE: [Run; 2] = [
    Run {
        name: "a byte more than 16 MiB",
        stage: Stage {
            comings: &BEFORE_DUE,
            kept: KEPT,
            alone: true,
            ..STAGE
        },
        want: &[
            Piece::Line("Ok(()) rWrrWxrWrW"),
            Piece::Sent(1, PONG),
            Piece::Sent(2, CREATED_BEHIND),
            Piece::Sent(3, CHANGED),
            COMPACTED,
        ],
    },
    Run {
        name: "16 MiB",
        stage: Stage {
            comings: &BEFORE_DUE,
            kept: KEPT - 1,
            alone: true,
            ..STAGE
        },
        want: &[
            Piece::Line("Ok(()) rWrrWrWxrW"),
            Piece::Sent(1, PONG),
            Piece::Sent(2, CREATED_BEHIND),
            Piece::Sent(3, CHANGED),
            COMPACTED,
        ],
    },
];

/// Tries: lw_server::run_on, lw_server::Server::compact, lw_server::Server::wants_compaction
#[test]
fn a_run_compacts_after_the_turn_that_makes_it_due(rt: HostRuntime) {
    plays(&rt, rt.alloc(), &DUE);
}

/// A ping, and two turns behind it.
const TWO_TURNS_LATER: [Coming; 3] = [Coming::Datagram(1, PING), Coming::Nothing, Coming::Nothing];

/// Where others share the log, number 1 leaves it to them for two seconds.
static SHARED: [Run; 3] = [
    Run {
        name: "less than two seconds later",
        stage: Stage {
            comings: &TWO_TURNS_LATER,
            moments: &[1_000, 2_000, 2_999],
            kept: KEPT,
            ..STAGE
        },
        want: &[Piece::Line("Ok(()) Wrrr"), Piece::Sent(1, PONG)],
    },
    Run {
        name: "two seconds later",
        stage: Stage {
            comings: &TWO_TURNS_LATER,
            moments: &[1_000, 2_000, 3_000],
            kept: KEPT,
            ..STAGE
        },
        want: &[
            Piece::Line("Ok(()) WrrrrWx"),
            Piece::Sent(1, PONG),
            COMPACTED,
        ],
    },
    Run {
        name: "two seconds later, but the log refuses",
        stage: Stage {
            comings: &[
                Coming::Datagram(1, PING),
                Coming::Nothing,
                Coming::Datagram(2, PING),
                Coming::Datagram(3, PING),
            ],
            moments: &[1_000, 2_000, 3_000],
            kept: KEPT,
            trouble: Some(Trouble {
                fault: LogFault::Refused,
                after: 3,
                times: 1,
            }),
            ..STAGE
        },
        want: &[
            Piece::Line("Ok(()) Wrrrr"),
            Piece::Sent(1, PONG),
            Piece::Sent(2, PONG),
            Piece::Sent(3, PONG),
            REFUSED,
            PUT_OFF,
        ],
    },
];

/// Tries: lw_server::run_on, lw_server::Server::compact, lw_server::Server::wants_compaction
#[test]
fn a_log_that_others_share_is_left_to_them_at_first(rt: HostRuntime) {
    plays(&rt, rt.alloc(), &SHARED);
}

/// A ping from each of two ports.
const PINGS: [Coming; 2] = [Coming::Datagram(1, PING), Coming::Datagram(2, PING)];

/// What comes of a ping at which a compaction fails by a fault, and of one behind it.
static FAULTS: [Run; 4] = [
    Run {
        name: "a log that is away",
        stage: Stage {
            comings: &PINGS,
            kept: KEPT,
            alone: true,
            trouble: Some(Trouble {
                fault: LogFault::Unavailable,
                after: 1,
                times: 1,
            }),
            ..STAGE
        },
        want: &[
            Piece::Line("Ok(()) Wrr"),
            Piece::Sent(1, PONG),
            Piece::Sent(2, PONG),
            PUT_OFF,
        ],
    },
    Run {
        name: "a reading without memory",
        stage: Stage {
            comings: &PINGS,
            kept: KEPT,
            alone: true,
            trouble: Some(Trouble {
                fault: LogFault::NoMemory,
                after: 1,
                times: 1,
            }),
            ..STAGE
        },
        want: &[
            Piece::Line("Ok(()) Wrr"),
            Piece::Sent(1, PONG),
            Piece::Sent(2, PONG),
            PUT_OFF,
        ],
    },
    Run {
        name: "a log that is lost",
        stage: Stage {
            comings: &PINGS,
            kept: KEPT,
            alone: true,
            trouble: Some(Trouble {
                fault: LogFault::Lost,
                after: 1,
                times: 1,
            }),
            ..STAGE
        },
        want: &[
            Piece::Line("Ok(()) WrrrrrrrrrWrWx"),
            Piece::Sent(1, PONG),
            LOST,
            AWAY,
            BACK,
            COMPACTED,
        ],
    },
    Run {
        name: "a log that refuses",
        stage: Stage {
            comings: &PINGS,
            kept: KEPT,
            alone: true,
            trouble: Some(Trouble {
                fault: LogFault::Refused,
                after: 1,
                times: 1,
            }),
            ..STAGE
        },
        want: &[Piece::Line("Err(LogRefused) Wr"), Piece::Sent(1, PONG)],
    },
];

/// Tries: lw_server::run_on, lw_server::Server::compact
#[test]
fn a_compaction_that_fails_is_put_off_or_ends_the_run(rt: HostRuntime) {
    plays(&rt, rt.alloc(), &FAULTS);
}

/// A compaction that is put off is tried again a thousand turns later, and not before.
static PUT_OFF_BY: [Run; 2] = [
    Run {
        name: "999 turns later",
        stage: Stage {
            comings: &[
                Coming::Datagram(1, PING),
                Coming::Times(999, &Coming::Nothing),
            ],
            kept: KEPT,
            alone: true,
            trouble: Some(Trouble {
                fault: LogFault::NoMemory,
                after: 1,
                times: 1,
            }),
            ..STAGE
        },
        want: &[
            Piece::Text("Ok(()) Wr"),
            Piece::Times(999, "r"),
            Piece::Line(""),
            Piece::Sent(1, PONG),
            PUT_OFF,
        ],
    },
    Run {
        name: "a thousand turns later",
        stage: Stage {
            comings: &[
                Coming::Datagram(1, PING),
                Coming::Times(1_000, &Coming::Nothing),
            ],
            kept: KEPT,
            alone: true,
            trouble: Some(Trouble {
                fault: LogFault::NoMemory,
                after: 1,
                times: 1,
            }),
            ..STAGE
        },
        want: &[
            Piece::Text("Ok(()) Wr"),
            Piece::Times(1_000, "r"),
            Piece::Line("rWx"),
            Piece::Sent(1, PONG),
            PUT_OFF,
            COMPACTED,
        ],
    },
];

/// Tries: lw_server::run_on
#[test]
fn a_compaction_is_put_off_by_a_thousand_turns(rt: HostRuntime) {
    plays(&rt, rt.alloc(), &PUT_OFF_BY);
}

/// A reading is answered by Lost.
const IS_LOST: Option<Trouble> = Some(Trouble {
    fault: LogFault::Lost,
    after: 1,
    times: 1,
});

/// A log that has lost entries is read and written anew, however short it is.
static LOSSES: [Run; 4] = [
    Run {
        name: "a log that has lost entries is compacted",
        stage: Stage {
            comings: &[Coming::Datagram(1, PING), Coming::Nothing, Coming::Nothing],
            trouble: IS_LOST,
            ..STAGE
        },
        want: &[
            Piece::Line("Ok(()) WrrWrWx"),
            Piece::Sent(1, PONG),
            LOST,
            AWAY,
            BACK,
            COMPACTED,
        ],
    },
    Run {
        name: "a log that has lost entries is never compacted",
        stage: Stage {
            comings: &[Coming::Datagram(1, PING), Coming::Nothing, Coming::Nothing],
            trouble: IS_LOST,
            compaction: Compaction::Never,
            ..STAGE
        },
        want: &[
            Piece::Line("Ok(()) WrrW"),
            Piece::Sent(1, PONG),
            LOST,
            AWAY,
            BACK,
        ],
    },
    Run {
        name: "a server that has written nothing writes what it knows",
        stage: Stage {
            comings: &[Coming::Nothing, Coming::Nothing],
            trouble: Some(Trouble {
                fault: LogFault::Lost,
                after: 0,
                times: 1,
            }),
            ..STAGE
        },
        want: &[Piece::Line("Ok(()) WrWrWx"), LOST, AWAY, BACK, COMPACTED],
    },
    Run {
        name: "a run may leave its log as it grows",
        stage: Stage {
            comings: &PINGS,
            kept: KEPT,
            alone: true,
            compaction: Compaction::Never,
            ..STAGE
        },
        want: &[
            Piece::Line("Ok(()) Wrr"),
            Piece::Sent(1, PONG),
            Piece::Sent(2, PONG),
        ],
    },
];

/// The reading of the compaction behind the loss has no memory.
const THEN_NO_MEMORY: Option<Trouble> = Some(Trouble {
    fault: LogFault::NoMemory,
    after: 1,
    times: 1,
});

/// A compaction that is to mend a loss is tried again ten turns later, and not before.
static MENDED_LATER: [Run; 2] = [
    Run {
        name: "nine turns later",
        stage: Stage {
            comings: &[
                Coming::Datagram(1, PING),
                Coming::Nothing,
                Coming::Nothing,
                Coming::Times(9, &Coming::Nothing),
            ],
            trouble: IS_LOST,
            next_trouble: THEN_NO_MEMORY,
            ..STAGE
        },
        want: &[Piece::Sent(1, PONG), LOST, AWAY, BACK, PUT_OFF],
    },
    Run {
        name: "ten turns later",
        stage: Stage {
            comings: &[
                Coming::Datagram(1, PING),
                Coming::Nothing,
                Coming::Nothing,
                Coming::Times(10, &Coming::Nothing),
            ],
            trouble: IS_LOST,
            next_trouble: THEN_NO_MEMORY,
            ..STAGE
        },
        want: &[Piece::Sent(1, PONG), LOST, AWAY, BACK, PUT_OFF, COMPACTED],
    },
];

/// Tries: lw_server::run_on
#[test]
fn a_log_that_has_lost_entries_is_written_anew(rt: HostRuntime) {
    plays(&rt, rt.alloc(), &LOSSES);
    plays(&rt, rt.alloc(), &MENDED_LATER);
}
