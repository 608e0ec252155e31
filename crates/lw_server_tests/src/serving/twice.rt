//! Requests that come twice (RFC 7252, sections 4.2 and 4.5).

use super::*;

/// The reply to the same Register where it makes a second registration.
const CREATED_ANEW: &str = "604100048272640d0330303030303030303030303230303031";

/// Requests of which some come again.
static AGAIN: [Run; 4] = [
    Run {
        name: "a Register that comes twice at once, and once more, makes one registration, which lasts",
        stage: Stage {
            comings: &[
                Coming::Datagram(3, REGISTER),
                Coming::AtOnce(3, REGISTER),
                Coming::Datagram(3, REGISTER),
                Coming::Datagram(3, UPDATE),
                Coming::Datagram(3, UPDATE),
            ],
            ..STAGE
        },
        want: &[
            Piece::Line("Ok(()) WrWrrWr"),
            Piece::Sent(3, CREATED),
            Piece::Sent(3, CREATED),
            Piece::Sent(3, CHANGED),
            Piece::Sent(3, CHANGED),
        ],
    },
    Run {
        name: "more than 247 seconds later it is another request",
        stage: Stage {
            comings: &[Coming::Times(3, &Coming::Datagram(3, REGISTER))],
            moments: &[0, 247_000, 247_001],
            alone: true,
            ..STAGE
        },
        want: &[
            Piece::Line("Ok(()) WrWrrW"),
            Piece::Sent(3, CREATED),
            Piece::Sent(3, CREATED),
            Piece::Sent(3, CREATED_ANEW),
        ],
    },
    Run {
        name: "from another port it is another request",
        stage: Stage {
            comings: &[Coming::Datagram(3, REGISTER), Coming::AtOnce(4, REGISTER)],
            ..STAGE
        },
        want: &[
            Piece::Line("Ok(()) WrW"),
            Piece::Sent(3, CREATED),
            Piece::Sent(4, CREATED_ANEW),
        ],
    },
    Run {
        name: "a reply that was not sent is given when the request comes again, and then once more",
        stage: Stage {
            comings: &[Coming::Times(3, &Coming::Datagram(3, REGISTER))],
            trouble: Some(Trouble {
                fault: LogFault::NoMemory,
                after: 0,
                times: 1,
            }),
            ..STAGE
        },
        want: &[
            Piece::Line("Ok(()) WWrWr"),
            Piece::Sent(3, CREATED),
            Piece::Sent(3, CREATED),
            Piece::Line("[WARN  lw_server::event_loop] no memory for a round"),
        ],
    },
];

/// Tries: lw_server::run_on, lw_server::Server::take
#[test]
fn a_request_that_comes_again_is_answered_again(rt: HostRuntime) {
    plays(&rt, rt.alloc(), &AGAIN);
}

/// So many of a Register, and so many pings, which are no requests. Where there is memory all that is answered is kept.
static DUPLICATES: [Turn; 4] = [
    Turn {
        datagram: REGISTER,
        sent: &[CREATED],
        links: "</>",
        ..TURN
    },
    Turn {
        datagram: REGISTER,
        times: 3,
        sent: &[CREATED, CREATED, CREATED],
        duplicates: 3,
        links: "</>",
        ..TURN
    },
    Turn {
        datagram: PING,
        times: 2,
        sent: &[PONG, PONG],
        duplicates: 3,
        links: "</>",
        ..TURN
    },
    Turn {
        datagram: UPDATE,
        times: 2,
        sent: &[CHANGED],
        duplicates: 4,
        links: "</>",
        ..TURN
    },
];

/// Tries: lw_server::Server::take, lw_server::Server::duplicates, lw_server::Server::unkept
#[test]
fn duplicates_are_counted(rt: HostRuntime) {
    takes(&rt, rt.alloc(), &DUPLICATES);
}
