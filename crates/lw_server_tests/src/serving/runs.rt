//! How runs go on, and what ends them.

use super::*;

/// Runs in which nothing comes, or nothing but faults.
static QUIET: [Run; 4] = [
    Run {
        name: "a transport that is over",
        stage: STAGE,
        want: &[Piece::Line("Ok(()) ")],
    },
    Run {
        name: "a server that hears nothing reads its log",
        stage: Stage {
            comings: &[Coming::Times(3, &Coming::Nothing)],
            ..STAGE
        },
        want: &[Piece::Line("Ok(()) rrr")],
    },
    Run {
        name: "999 faults in a row, twice",
        stage: Stage {
            comings: &[
                Coming::Times(999, &Coming::Fault),
                Coming::Nothing,
                Coming::Times(999, &Coming::Fault),
            ],
            ..STAGE
        },
        want: &[
            Piece::Line("Ok(()) r"),
            Piece::Times(10, "[WARN  lw_server::event_loop] receive passed over\n"),
        ],
    },
    Run {
        name: "a thousand faults in a row",
        stage: Stage {
            comings: &[Coming::Times(1_000, &Coming::Fault)],
            ..STAGE
        },
        want: &[
            Piece::Line("Err(ReceiveFailed) "),
            Piece::Times(10, "[WARN  lw_server::event_loop] receive passed over\n"),
        ],
    },
];

/// A clock that gives no moment, with a datagram and with none.
static WITHOUT_A_MOMENT: [Run; 2] = [
    Run {
        name: "a datagram at no moment",
        stage: Stage {
            comings: &[Coming::Datagram(5683, PING)],
            moments: &[u64::MAX],
            ..STAGE
        },
        want: &[Piece::Line("Err(ClockRefused) ")],
    },
    Run {
        name: "nothing at no moment",
        stage: Stage {
            comings: &[Coming::Nothing],
            moments: &[u64::MAX],
            ..STAGE
        },
        want: &[Piece::Line("Err(ClockRefused) ")],
    },
];

/// A ping from each of six ports.
const PINGS: [Coming; 6] = [
    Coming::Datagram(1, PING),
    Coming::Datagram(2, PING),
    Coming::Datagram(3, PING),
    Coming::Datagram(4, PING),
    Coming::Datagram(5, PING),
    Coming::Datagram(6, PING),
];

/// What is told where the log refuses.
const REFUSED: Piece = Piece::Line(
    "[ERROR lw_server::event_loop] log refused fault=the log refused",
);

/// What the log answers to how many readings, after the first round; and what comes of a ping to each of these ports.
static TROUBLES: [Run; 8] = [
    Run {
        name: "the log is away for three readings",
        stage: Stage {
            comings: &PINGS,
            trouble: Some(Trouble {
                fault: LogFault::Unavailable,
                after: 1,
                times: 3,
            }),
            ..STAGE
        },
        want: &[
            Piece::Line("Ok(()) Wrrr"),
            Piece::Sent(1, PONG),
            Piece::Sent(6, PONG),
            Piece::Line("[WARN  lw_server::event_loop] log away"),
            Piece::Line("[INFO  lw_server::event_loop] log back"),
        ],
    },
    Run {
        name: "the log is lost",
        stage: Stage {
            comings: &PINGS,
            trouble: Some(Trouble {
                fault: LogFault::Lost,
                after: 1,
                times: 1,
            }),
            ..STAGE
        },
        want: &[
            Piece::Line("Ok(()) WrrWrWxrrr"),
            Piece::Sent(1, PONG),
            Piece::Sent(4, PONG),
            Piece::Sent(5, PONG),
            Piece::Sent(6, PONG),
            Piece::Line("[WARN  lw_server::event_loop] log lost"),
            Piece::Line("[WARN  lw_server::event_loop] log away"),
            Piece::Line("[INFO  lw_server::event_loop] log back"),
            Piece::Line("[INFO  lw_server::event_loop] compacted"),
        ],
    },
    Run {
        name: "the log refuses, and others share it",
        stage: Stage {
            comings: &PINGS,
            trouble: Some(Trouble {
                fault: LogFault::Refused,
                after: 1,
                times: 1,
            }),
            ..STAGE
        },
        want: &[
            Piece::Line("Ok(()) Wrrrrr"),
            Piece::Sent(1, PONG),
            Piece::Sent(4, PONG),
            Piece::Sent(5, PONG),
            Piece::Sent(6, PONG),
            REFUSED,
            Piece::Line("[WARN  lw_server::event_loop] log away"),
            Piece::Line("[INFO  lw_server::event_loop] log back"),
        ],
    },
    Run {
        name: "the log refuses, and nobody shares it",
        stage: Stage {
            comings: &PINGS,
            alone: true,
            trouble: Some(Trouble {
                fault: LogFault::Refused,
                after: 1,
                times: 1,
            }),
            ..STAGE
        },
        want: &[Piece::Line("Err(LogRefused) Wr"), Piece::Sent(1, PONG)],
    },
    Run {
        name: "one reading has no memory",
        stage: Stage {
            comings: &PINGS,
            trouble: Some(Trouble {
                fault: LogFault::NoMemory,
                after: 1,
                times: 1,
            }),
            ..STAGE
        },
        want: &[
            Piece::Line("Ok(()) Wrrrrr"),
            Piece::Sent(1, PONG),
            Piece::Sent(3, PONG),
            Piece::Sent(4, PONG),
            Piece::Sent(5, PONG),
            Piece::Sent(6, PONG),
            Piece::Line("[WARN  lw_server::event_loop] no memory for a round"),
        ],
    },
    Run {
        name: "two readings have no memory",
        stage: Stage {
            comings: &PINGS,
            trouble: Some(Trouble {
                fault: LogFault::NoMemory,
                after: 1,
                times: 2,
            }),
            ..STAGE
        },
        want: &[
            Piece::Line("Ok(()) Wrrrr"),
            Piece::Sent(1, PONG),
            Piece::Sent(4, PONG),
            Piece::Sent(5, PONG),
            Piece::Sent(6, PONG),
            Piece::Line("[WARN  lw_server::event_loop] no memory for a round"),
        ],
    },
    Run {
        name: "the log is away to the end",
        stage: Stage {
            comings: &PINGS,
            trouble: Some(Trouble {
                fault: LogFault::Unavailable,
                after: 1,
                times: 9,
            }),
            ..STAGE
        },
        want: &[
            Piece::Line("Ok(()) Wr"),
            Piece::Sent(1, PONG),
            Piece::Line("[WARN  lw_server::event_loop] log away"),
        ],
    },
    Run {
        name: "nothing ails the log",
        stage: Stage {
            comings: &PINGS,
            trouble: Some(Trouble {
                fault: LogFault::Unavailable,
                after: 1,
                times: 0,
            }),
            ..STAGE
        },
        want: &[
            Piece::Line("Ok(()) Wrrrrrr"),
            Piece::Sent(1, PONG),
            Piece::Sent(2, PONG),
            Piece::Sent(3, PONG),
            Piece::Sent(4, PONG),
            Piece::Sent(5, PONG),
            Piece::Sent(6, PONG),
        ],
    },
];

/// A log refuses each reading in two minutes. It is told as it begins, and then once a minute.
static REFUSALS: [Run; 1] = [Run {
    name: "a log that goes on refusing",
    stage: Stage {
        comings: &[
            Coming::Datagram(1, PING),
            Coming::Times(6, &Coming::Nothing),
        ],
        moments: &[0, 1_000, 2_000, 59_999, 60_000, 61_000, 62_000],
        trouble: Some(Trouble {
            fault: LogFault::Refused,
            after: 1,
            times: 6,
        }),
        ..STAGE
    },
    want: &[
        Piece::Sent(1, PONG),
        REFUSED,
        Piece::Line("[WARN  lw_server::event_loop] log away"),
        REFUSED,
    ],
}];

/// A ping, and behind it three more, of which two are there at once.
const BEHIND_A_PAUSE: [Coming; 4] = [
    Coming::Datagram(1, PING),
    Coming::Datagram(2, PING),
    Coming::AtOnce(3, PING),
    Coming::Datagram(4, PING),
];

/// What comes more than three seconds after the turn before is passed over where others share the log, which is read. What
/// comes behind that is answered.
static PAUSES: [Run; 4] = [
    Run {
        name: "three seconds",
        stage: Stage {
            comings: &BEHIND_A_PAUSE,
            moments: &[0, 3_000],
            ..STAGE
        },
        want: &[
            Piece::Line("Ok(()) Wrrr"),
            Piece::Sent(1, PONG),
            Piece::Sent(2, PONG),
            Piece::Sent(3, PONG),
            Piece::Sent(4, PONG),
        ],
    },
    Run {
        name: "more than three seconds",
        stage: Stage {
            comings: &BEHIND_A_PAUSE,
            moments: &[0, 3_001, 6_001],
            ..STAGE
        },
        want: &[
            Piece::Line("Ok(()) Wrrr"),
            Piece::Sent(1, PONG),
            Piece::Sent(4, PONG),
            Piece::Line("[WARN  lw_server::event_loop] stood still for=3001ms"),
        ],
    },
    Run {
        name: "more than three seconds, in which nothing is heard at first",
        stage: Stage {
            comings: &[
                Coming::Datagram(1, PING),
                Coming::Nothing,
                Coming::AtOnce(2, PING),
                Coming::Datagram(4, PING),
            ],
            moments: &[0, 20_000],
            ..STAGE
        },
        want: &[
            Piece::Line("Ok(()) Wrrr"),
            Piece::Sent(1, PONG),
            Piece::Sent(4, PONG),
            Piece::Line("[WARN  lw_server::event_loop] stood still for=20000ms"),
        ],
    },
    Run {
        name: "more than three seconds, where nobody shares the log",
        stage: Stage {
            comings: &BEHIND_A_PAUSE,
            moments: &[0, 3_001],
            alone: true,
            ..STAGE
        },
        want: &[
            Piece::Line("Ok(()) Wrrr"),
            Piece::Sent(1, PONG),
            Piece::Sent(2, PONG),
            Piece::Sent(3, PONG),
            Piece::Sent(4, PONG),
        ],
    },
];

/// So many turns, none of which has memory but the last, if there is one.
static WITHOUT_MEMORY: [Run; 2] = [
    Run {
        name: "999 turns without memory",
        stage: Stage {
            comings: &[Coming::Times(1_001, &Coming::Nothing)],
            trouble: Some(Trouble {
                fault: LogFault::NoMemory,
                after: 0,
                times: 999,
            }),
            ..STAGE
        },
        want: &[
            Piece::Line("Ok(()) rr"),
            Piece::Line("[WARN  lw_server::event_loop] no memory for a round"),
        ],
    },
    Run {
        name: "a thousand turns without memory",
        stage: Stage {
            comings: &[Coming::Times(1_001, &Coming::Nothing)],
            trouble: Some(Trouble {
                fault: LogFault::NoMemory,
                after: 0,
                times: 1_000,
            }),
            ..STAGE
        },
        want: &[
            Piece::Line("Err(NoMemory) "),
            Piece::Line("[WARN  lw_server::event_loop] no memory for a round"),
        ],
    },
];

/// What is registered for a second, a turn behind that, and an Update.
const EXPIRING: [Coming; 3] = [
    Coming::Datagram(1, REGISTER_FOR_A_SECOND),
    Coming::Nothing,
    Coming::Datagram(2, UPDATE),
];

/// What is told of an Update that is refused.
const GONE: &str = "[INFO  lw_server::reply_lines] refused from=127.0.0.1:2 code=4.04";

/// A turn without datagrams is made after a Register for a second at moment 0, and an Update comes behind it: what has
/// expired is ended at the moment less the seconds by which clocks may differ, and is then written.
static EXPIRIES: [Run; 4] = [
    Run {
        name: "what lasts yet",
        stage: Stage {
            comings: &EXPIRING,
            moments: &[0, 999, 999],
            ..STAGE
        },
        want: &[
            Piece::Line("Ok(()) WrWrrW"),
            Piece::Sent(1, CREATED),
            Piece::Sent(2, CHANGED),
        ],
    },
    Run {
        name: "what has expired is swept",
        stage: Stage {
            comings: &EXPIRING,
            moments: &[0, 1_000, 1_000],
            ..STAGE
        },
        want: &[
            Piece::Line("Ok(()) WrWrWr"),
            Piece::Sent(1, CREATED),
            Piece::Sent(2, NOT_FOUND),
            Piece::Line(GONE),
        ],
    },
    Run {
        name: "what may last yet by another clock",
        stage: Stage {
            comings: &EXPIRING,
            moments: &[0, 10_999, 10_999],
            alone: true,
            skew: 10,
            ..STAGE
        },
        want: &[
            Piece::Line("Ok(()) WrWrr"),
            Piece::Sent(1, CREATED),
            Piece::Sent(2, NOT_FOUND),
            Piece::Line(GONE),
        ],
    },
    Run {
        name: "what has expired by every clock is swept",
        stage: Stage {
            comings: &EXPIRING,
            moments: &[0, 11_000, 11_000],
            alone: true,
            skew: 10,
            ..STAGE
        },
        want: &[
            Piece::Line("Ok(()) WrWrWr"),
            Piece::Sent(1, CREATED),
            Piece::Sent(2, NOT_FOUND),
            Piece::Line(GONE),
        ],
    },
];

/// Three rounds, at the start, a millisecond before a minute has passed, and then.
const MINUTE: [u64; 3] = [0, 59_999, 60_000];

/// How the host's clock stands to the one that is told, where the clocks of a fleet may differ by ten seconds. What
/// tells the moment may be a second late. A line comes once a minute.
static OFFSETS: [Run; 4] = [
    Run {
        name: "a clock that is as far ahead as may be",
        stage: Stage {
            comings: &[Coming::Times(3, &Coming::Nothing)],
            moments: &MINUTE,
            skew: 10,
            offset: Offset::Ahead(11_000),
            alone: true,
            ..STAGE
        },
        want: &[],
    },
    Run {
        name: "a clock that is further ahead",
        stage: Stage {
            comings: &[Coming::Times(3, &Coming::Nothing)],
            moments: &MINUTE,
            skew: 10,
            offset: Offset::Ahead(11_001),
            alone: true,
            ..STAGE
        },
        want: &[
            Piece::Line("[WARN  lw_server::event_loop] clock ahead by=11001ms"),
            Piece::Line("[WARN  lw_server::event_loop] clock ahead by=11001ms"),
        ],
    },
    Run {
        name: "a clock that is far behind",
        stage: Stage {
            comings: &[Coming::Times(2, &Coming::Nothing)],
            moments: &MINUTE,
            skew: 10,
            offset: Offset::Behind(172_800_000),
            alone: true,
            ..STAGE
        },
        want: &[Piece::Line("[WARN  lw_server::event_loop] clock behind by=172800000ms")],
    },
    Run {
        name: "a clock of a fleet without a skew",
        stage: Stage {
            comings: &[Coming::Nothing],
            offset: Offset::Behind(1_001),
            alone: true,
            ..STAGE
        },
        want: &[Piece::Line("[WARN  lw_server::event_loop] clock behind by=1001ms")],
    },
];

/// Tries: lw_server::run_on, lw_server::Server::new, lw_server::Server::take, lw_server::Server::tick
/// Tries: lw_server::Server::read_clock
/// Tries: lw_server::Clocks::read, lw_server::Clocks::offset
#[test]
fn runs_go_on_and_end(rt: HostRuntime) {
    plays(&rt, rt.alloc(), &QUIET);
    plays(&rt, rt.alloc(), &WITHOUT_A_MOMENT);
    plays(&rt, rt.alloc(), &WITHOUT_MEMORY);
    plays(&rt, rt.alloc(), &EXPIRIES);
    plays(&rt, rt.alloc(), &OFFSETS);
}

/// Tries: lw_server::run_on, lw_server::Server::take, lw_server::Server::tick
#[test]
fn while_the_log_is_away_nothing_is_answered(rt: HostRuntime) {
    plays(&rt, rt.alloc(), &TROUBLES);
    plays(&rt, rt.alloc(), &REFUSALS);
}

/// Tries: lw_server::run_on, lw_server::Server::take, lw_server::Server::tick
#[test]
fn what_comes_while_a_server_stands_still_is_passed_over(rt: HostRuntime) {
    plays(&rt, rt.alloc(), &PAUSES);
}
