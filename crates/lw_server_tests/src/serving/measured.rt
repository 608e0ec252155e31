//! What is counted of the input and output of a run, as it is told at its end.

use super::compacting::KEPT;
use super::*;
use std::process::Abort;

/// A run at whose end measures are asked for, and lines that they have.
struct Measured {
    name: &'static str,
    stage: Stage,
    lines: &'static [&'static str],
}

/// Measures are asked for.
const MEASURES: Coming = Coming::Asks(&[Question::Metrics]);

/// Runs of which each kind of measure is told.
static MEASURED: [Measured; 9] = [
    Measured {
        name: "turns are counted",
        stage: Stage {
            comings: &[Coming::Datagram(5683, REGISTER), MEASURES],
            moments: &[1_000],
            ..STAGE
        },
        lines: &[
            "fleet_rounds_total 1",
            "fleet_datagrams_total 1",
            "fleet_replies_total{code=\"2.01\"} 1",
            "fleet_registrations 1",
            "fleet_log_away 0",
        ],
    },
    Measured {
        // The claim of its number is an entry of 39 bytes, which is read again. Of six pings, a second apart, the log
        // answers the first and the last: the four between are passed over. It is unavailable from the second to the
        // fifth.
        name: "what is passed over while the log is away is counted",
        stage: Stage {
            comings: &[
                Coming::Datagram(1, PING),
                Coming::Datagram(2, PING),
                Coming::Datagram(3, PING),
                Coming::Datagram(4, PING),
                Coming::Datagram(5, PING),
                Coming::Datagram(6, PING),
                MEASURES,
            ],
            moments: &[0, 1_000, 2_000, 3_000, 4_000, 5_000],
            trouble: Some(Trouble {
                fault: LogFault::Unavailable,
                after: 1,
                times: 3,
            }),
            ..STAGE
        },
        lines: &[
            "fleet_log_append_seconds_bucket{le=\"0.0005\"} 1",
            "fleet_log_append_seconds_count 1",
            "fleet_log_entries_written_total 1",
            "fleet_log_entries_read_total 1",
            "fleet_log_bytes 39",
            "fleet_log_whole_bytes 0",
            "fleet_log_compactions_total 0",
            "fleet_log_away_seconds_total 3.000000",
            "fleet_receive_faults_total 0",
            "fleet_send_faults_total 0",
            "fleet_dropped_total 4",
            "fleet_socket_drops_total 7",
            "fleet_duplicates_total 0",
            "fleet_blocks_total 0",
            "fleet_bodies 0",
            "fleet_http_responses_total{status=\"404\"} 2",
            "fleet_datagrams_total 2",
        ],
    },
    Measured {
        name: "those that are there at once with one that is passed over go with it",
        stage: Stage {
            comings: &AT_ONCE,
            trouble: Some(Trouble {
                fault: LogFault::Unavailable,
                after: 0,
                times: 1,
            }),
            ..STAGE
        },
        lines: &["fleet_dropped_total 5"],
    },
    Measured {
        name: "a fault that is not of the log passes over nothing",
        stage: Stage {
            comings: &AT_ONCE,
            trouble: Some(Trouble {
                fault: LogFault::NoMemory,
                after: 0,
                times: 1,
            }),
            ..STAGE
        },
        lines: &["fleet_dropped_total 0"],
    },
    Measured {
        name: "what the log refuses is counted, and passes over as where it is away",
        stage: Stage {
            comings: &AT_ONCE,
            trouble: Some(Trouble {
                fault: LogFault::Refused,
                after: 0,
                times: 1,
            }),
            ..STAGE
        },
        lines: &["fleet_log_refused_total 1", "fleet_dropped_total 5"],
    },
    Measured {
        name: "what comes while a server stands still is counted",
        stage: Stage {
            comings: &AT_ONCE,
            moments: &[3_001],
            ..STAGE
        },
        lines: &["fleet_log_refused_total 0", "fleet_dropped_total 3"],
    },
    Measured {
        name: "how far the host's clock is from the fleet's",
        stage: Stage {
            comings: &[Coming::Nothing, MEASURES],
            offset: Offset::Behind(8_123),
            ..STAGE
        },
        lines: &["fleet_clock_offset_seconds 8.123000"],
    },
    Measured {
        name: "faults of the transport are counted",
        stage: Stage {
            comings: &[
                Coming::Fault,
                Coming::Datagram(1, PING),
                Coming::Fault,
                Coming::Datagram(1, PING),
                Coming::Fault,
                MEASURES,
            ],
            send_fails: true,
            ..STAGE
        },
        lines: &[
            "fleet_receive_faults_total 3",
            "fleet_send_faults_total 2",
            "fleet_dropped_total 0",
            "fleet_log_away_seconds_total 0.000000",
        ],
    },
    Measured {
        // What another start has left is 2,030 entries, which a start reads twice; then it reads its own. Two seconds
        // later it compacts.
        name: "a compaction is counted",
        stage: Stage {
            comings: &[
                Coming::Nothing,
                Coming::Datagram(1, PING),
                Coming::Nothing,
                MEASURES,
            ],
            moments: &[1_000, 1_000, 3_000],
            kept: KEPT,
            ..STAGE
        },
        lines: &[
            "fleet_log_append_seconds_count 2",
            "fleet_log_entries_written_total 2",
            "fleet_log_entries_read_total 4061",
            "fleet_log_bytes 16777217",
            "fleet_log_compactions_total 1",
        ],
    },
];

/// Five pings, of which three are there at once.
const AT_ONCE: [Coming; 6] = [
    Coming::Datagram(1, PING),
    Coming::AtOnce(2, PING),
    Coming::AtOnce(3, PING),
    Coming::Datagram(4, PING),
    Coming::AtOnce(5, PING),
    MEASURES,
];

/// Tries: lw_server::run_on, lw_server::Measured::log_counters, lw_server::Server::compact, lw_route::Api::answer
#[test]
fn what_a_run_does_is_counted(rt: HostRuntime) {
    for measured in &MEASURED {
        measured.has_its_lines(&rt, rt.alloc());
    }
}

impl Measured {
    /// Fails where the measures at the end of the run do not have each of the lines.
    fn has_its_lines(&self, rt: &impl Abort, alloc: Global) {
        let text = self.stage.play(rt, alloc).expect(rt, self.name);
        for line in self.lines {
            assert!(rt; has_line(text.as_str(), line), "{}: {line}", self.name);
        }
    }
}

fn has_line(text: &str, line: &str) -> bool {
    text.lines().any(|told| told == line)
}
