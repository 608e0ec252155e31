//! Which replies go to whom.

use super::*;

/// Pings that the transport gives at once.
const MORE: &Coming = &Coming::AtOnce(1, PING);

/// A datagram that the transport gives at once behind 255 others is of the same turn, and the next one of another.
static MANY_AT_ONCE: [Run; 4] = [
    Run {
        name: "255 datagrams behind one",
        stage: Stage {
            comings: &[Coming::Datagram(1, PING), Coming::Times(255, MORE)],
            ..STAGE
        },
        want: &[Piece::Line("Ok(()) Wr"), Piece::Times(256, "1 70000007\n")],
    },
    Run {
        name: "256 datagrams behind one",
        stage: Stage {
            comings: &[Coming::Datagram(1, PING), Coming::Times(256, MORE)],
            ..STAGE
        },
        want: &[Piece::Line("Ok(()) Wrr"), Piece::Times(257, "1 70000007\n")],
    },
    Run {
        name: "511 datagrams behind one",
        stage: Stage {
            comings: &[Coming::Datagram(1, PING), Coming::Times(511, MORE)],
            ..STAGE
        },
        want: &[Piece::Line("Ok(()) Wrr"), Piece::Times(512, "1 70000007\n")],
    },
    Run {
        name: "512 datagrams behind one",
        stage: Stage {
            comings: &[Coming::Datagram(1, PING), Coming::Times(512, MORE)],
            ..STAGE
        },
        want: &[
            Piece::Line("Ok(()) Wrrr"),
            Piece::Times(513, "1 70000007\n"),
        ],
    },
];

/// What is sent to whom, and what is told of it.
static REPLIES: [Run; 3] = [
    Run {
        // A Register, bytes that are no message and are owed no reply, and a ping, which are there at once; then an
        // Update.
        name: "replies go to whom they are owed",
        stage: Stage {
            comings: &[
                Coming::Datagram(3, REGISTER),
                Coming::AtOnce(2, "00"),
                Coming::AtOnce(1, PING),
                Coming::Datagram(4, UPDATE),
            ],
            ..STAGE
        },
        want: &[
            Piece::Line("Ok(()) WrWrW"),
            Piece::Sent(3, CREATED),
            Piece::Sent(1, PONG),
            Piece::Sent(4, CHANGED),
        ],
    },
    Run {
        name: "a send that fails is passed over",
        stage: Stage {
            comings: &[Coming::Times(2, &Coming::Datagram(1, PING))],
            send_fails: true,
            ..STAGE
        },
        want: &[
            Piece::Line("Ok(()) Wrr"),
            Piece::Times(
                2,
                "[WARN  lw_server::event_loop] send passed over to=127.0.0.1:1\n",
            ),
        ],
    },
    Run {
        name: "an Update of nobody is refused, which is told ten times a second",
        stage: Stage {
            comings: &[Coming::Times(13, &Coming::Datagram(5, UPDATE))],
            moments: &[0, 0, 0, 0, 0, 0, 0, 0, 0, 0, 999, 999, 1_000],
            ..STAGE
        },
        want: &[
            Piece::Line("Ok(()) Wrrrrrrrrrrrrr"),
            Piece::Times(13, "5 60840010\n"),
            Piece::Times(
                11,
                "[INFO  lw_server::reply_lines] refused from=127.0.0.1:5 code=4.04\n",
            ),
        ],
    },
];

/// Tries: lw_server::run_on, lw_server::Server::take
#[test]
fn replies_are_sent_and_told(rt: HostRuntime) {
    plays(&rt, rt.alloc(), &REPLIES);
    plays(&rt, rt.alloc(), &MANY_AT_ONCE);
}
