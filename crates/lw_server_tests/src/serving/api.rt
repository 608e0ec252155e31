//! What a server tells over HTTP, while its log covers what its node knows and while it does not.

use super::*;

/// Its health, and its node.
const OF_ITSELF: Coming = Coming::Asks(&[Question::Health, Question::Node]);

/// Servers that are asked what they tell of themselves, and for their page.
static TOLD: [Run; 5] = [
    Run {
        name: "a new server is asked",
        stage: Stage {
            comings: &[OF_ITSELF],
            moments: &[1_000],
            ..STAGE
        },
        want: &[
            Piece::Line(r#"Ok Json {"counter":"ok","now":0,"status":"serving","version":"0.1.0"}"#),
            Piece::Text(r#"Ok Json {"change":0,"counter":0,"number":null,"registrations":0,"#),
            Piece::Line(r#""start":"0000000000000009"}"#),
        ],
    },
    Run {
        name: "a server that has a registration is asked",
        stage: Stage {
            comings: &[Coming::Datagram(5683, REGISTER), OF_ITSELF],
            moments: &[1_000],
            ..STAGE
        },
        want: &[
            Piece::Sent(5683, CREATED),
            Piece::Line(
                r#"Ok Json {"counter":"ok","now":1000,"status":"serving","version":"0.1.0"}"#,
            ),
            Piece::Text(r#"Ok Json {"change":1,"counter":1,"number":1,"registrations":1,"#),
            Piece::Line(r#""start":"0000000000000009"}"#),
        ],
    },
    Run {
        // The claim of its number is written, and what the Register does is not.
        name: "nothing is told that the log does not lead",
        stage: Stage {
            comings: &[Coming::Datagram(5683, REGISTER), OF_ITSELF],
            moments: &[1_000],
            appends: Some(1),
            ..STAGE
        },
        want: &[
            Piece::Line(
                r#"ServiceUnavailable Json {"now":1000,"status":"away","version":"0.1.0"}"#,
            ),
            Piece::Line(r#"ServiceUnavailable Json {"error":"away"}"#),
            Piece::Line("[WARN  lw_server::event_loop] log away"),
            Piece::Line("[INFO  lw_server::event_loop] log back"),
        ],
    },
    Run {
        name: "a page is told also while the log is away",
        stage: Stage {
            comings: &[
                Coming::Asks(&[Question::Page]),
                Coming::Datagram(5683, REGISTER),
                Coming::Asks(&[Question::Page]),
            ],
            moments: &[1_000],
            appends: Some(1),
            page: Some("<p>é"),
            ..STAGE
        },
        want: &[
            Piece::Line("Ok Html <p>é"),
            Piece::Line("Ok Html <p>é"),
            Piece::Line("[WARN  lw_server::event_loop] log away"),
            Piece::Line("[INFO  lw_server::event_loop] log back"),
        ],
    },
    Run {
        name: "there may be no page",
        stage: Stage {
            comings: &[Coming::Asks(&[Question::Page])],
            ..STAGE
        },
        want: &[Piece::Line(r#"NotFound Json {"error":"not found"}"#)],
    },
];

/// Tries: lw_route::Api::answer, lw_json::health_text, lw_json::node_text, Server::new, Server::take
#[test]
fn a_server_is_asked(rt: HostRuntime) {
    plays(&rt, rt.alloc(), &TOLD);
}
