//! Observations that are made and ended by commands, and what devices tell of them (RFC 7641; RFC 7252, sections 4.2 to
//! 4.4; RFC 7959, section 2.6).

use super::*;

/// What is told of the observation of `/3/0`, whose token is the second stamp of node 1.
const OBSERVED: &str =
    r#"Created Json {"accept":null,"endpoint":"a","id":"0000000000010001","path":"/3/0","token":"0000000000020001"}"#;

/// What is told of a second one of the same path, and the GET that asks for it: the third message of the server's own.
const OBSERVED_AGAIN: &str =
    r#"Created Json {"accept":null,"endpoint":"a","id":"0000000000010001","path":"/3/0","token":"0000000000040001"}"#;

const ASKS_AGAIN: &str = "4801000200000000000400016051330130";

/// The GET that asks for it: confirmable, the first message of the server's own, with Observe 0.
const ASKS: &str = "4801000000000000000200016051330130";

/// What is told of an observation of `/1/0`, and the GET that asks for it: the second message of the server's own.
const OBSERVED_OTHER: &str =
    r#"Created Json {"accept":null,"endpoint":"a","id":"0000000000010001","path":"/1/0","token":"0000000000030001"}"#;

const ASKS_OTHER: &str = "4801000100000000000300016051310130";

/// The GET that ends it, with Observe 1: the second message of the server's own.
const ENDS: &str = "480100010000000000020001610151330130";

/// The acknowledgement of the first GET, with 2.05, Observe 1 and the payload `1`.
const FIRST: &str = "6845000000000000000200016101ff31";

/// Further notifications, confirmable: Observe 6 and `2`, Observe 2 and `3`; and what acknowledges them.
const SIXTH: &str = "4845003100000000000200016106ff32";

const SECOND: &str = "4845003200000000000200016102ff33";

const HAS_SIXTH: &str = "60000031";

const HAS_SECOND: &str = "60000032";

/// A notification of more than 16 bytes, confirmable: Block2 0/1/16, Observe 5.
const BLOCK: &str = "4845003100000000000200016105d10408ff30313233343536373839616263646566";

/// The device rejects the first GET, and the second.
const RESET: &str = "70000000";

const RESET_SECOND: &str = "70000001";

/// The first notification as the page of notifications has it: 2.05, Observe 1 and `1`.
const TOLD_FIRST: &str =
    r#"{"complete":true,"notice":{"code":69,"content_format":null,"ended":false,"endpoint":"a","id":"0000000000010001","observe":1,"path":"/3/0","payload":"31","token":"0000000000020001"},"number":0}"#;

/// The one with Observe 6 and `2`, as the second.
const TOLD_SIXTH: &str =
    r#"{"complete":true,"notice":{"code":69,"content_format":null,"ended":false,"endpoint":"a","id":"0000000000010001","observe":6,"path":"/3/0","payload":"32","token":"0000000000020001"},"number":1}"#;

/// The one in blocks, whole, as the second.
const TOLD_BLOCKS: &str =
    r#"{"complete":true,"notice":{"code":69,"content_format":null,"ended":false,"endpoint":"a","id":"0000000000010001","observe":5,"path":"/3/0","payload":"3031323334353637383961626364656678","token":"0000000000020001"},"number":1}"#;

/// The first block of it, as the first, which is not all.
const TOLD_FIRST_BLOCK: &str =
    r#"{"complete":false,"notice":{"code":69,"content_format":null,"ended":false,"endpoint":"a","id":"0000000000010001","observe":5,"path":"/3/0","payload":"30313233343536373839616263646566","token":"0000000000020001"},"number":0}"#;

/// The end of an observation whose request was given up: 5.04.
const TOLD_NO_ANSWER: &str =
    r#"{"complete":true,"notice":{"code":164,"content_format":null,"ended":true,"endpoint":"a","id":"0000000000010001","observe":null,"path":"/3/0","payload":"","token":"0000000000020001"},"number":0}"#;

/// The end of one that the device has reset.
const TOLD_RESET: &str =
    r#"{"complete":true,"notice":{"code":0,"content_format":null,"ended":true,"endpoint":"a","id":"0000000000010001","observe":null,"path":"/3/0","payload":"","token":"0000000000020001"},"number":0}"#;

/// The end of one of `/1/0` that the device has reset, as the second.
const TOLD_RESET_SECOND: &str =
    r#"{"complete":true,"notice":{"code":0,"content_format":null,"ended":true,"endpoint":"a","id":"0000000000010001","observe":null,"path":"/1/0","payload":"","token":"0000000000030001"},"number":1}"#;

/// The end of one that the device has ended by 4.04.
const TOLD_NOT_FOUND: &str =
    r#"{"complete":true,"notice":{"code":132,"content_format":null,"ended":true,"endpoint":"a","id":"0000000000010001","observe":null,"path":"/3/0","payload":"","token":"0000000000020001"},"number":0}"#;

/// Before and behind the notifications of a page that has one, and of one that has two.
const PAGE_OF_ONE: Piece = Piece::Text(r#"Ok Json {"next":1,"notifications":["#);

const PAGE_OF_TWO: Piece = Piece::Text(r#"Ok Json {"next":2,"notifications":["#);

const PAGE_END: Piece = Piece::Line(r#"],"start":"0000000000000009"}"#);

/// An HTTP client asks for all that devices told.
const NOTIFICATIONS: Coming = Coming::Asks(&[Question::Notifications]);

/// What a command for what is not there comes to: a device is asked nothing.
const NO_SUCH: Piece = Piece::Text("NotFound Json {\"error\":\"not found\"}\nnothing to send\n");

/// The request for the second block: the second message of the server's own, with the token of the first fetch.
const ASKS_REST: &str = "4401000100000000b1330130c110";

/// Observations that are made and ended.
static MADE: [Run; 7] = [
    Run {
        name: "an observation is made and tells",
        stage: Stage {
            comings: &[
                Coming::Datagram(3, REGISTER),
                Coming::Observe("/3/0"),
                Coming::Datagram(3, FIRST),
                NOTIFICATIONS,
            ],
            ..STAGE
        },
        want: &[
            Piece::Line("Ok(()) WrWrWrrrr"),
            Piece::Sent(3, CREATED),
            Piece::Line(OBSERVED),
            Piece::Sent(3, ASKS),
            PAGE_OF_ONE,
            Piece::Text(TOLD_FIRST),
            PAGE_END,
        ],
    },
    Run {
        // Sent at 0, 2, 6, 14 and 30 s, as its message ID is 0, and given up at 62 s.
        name: "a request is sent again and given up",
        stage: Stage {
            comings: &[
                Coming::Datagram(3, REGISTER),
                Coming::Observe("/3/0"),
                Coming::Times(10, &Coming::Nothing),
                NOTIFICATIONS,
            ],
            moments: &[
                0, 0, 0, 1_999, 2_000, 5_999, 6_000, 13_999, 14_000, 29_999, 30_000, 61_999, 62_000,
            ],
            alone: true,
            ..STAGE
        },
        want: &[
            Piece::Line("Ok(()) WrWrWrrrrrrrrrrrrWr"),
            Piece::Sent(3, CREATED),
            Piece::Line(OBSERVED),
            Piece::Sent(3, ASKS),
            Piece::Sent(3, ASKS),
            Piece::Sent(3, ASKS),
            Piece::Sent(3, ASKS),
            Piece::Sent(3, ASKS),
            PAGE_OF_ONE,
            Piece::Text(TOLD_NO_ANSWER),
            PAGE_END,
        ],
    },
    Run {
        // A Reset from another port is none of the request.
        name: "a Reset ends the observation",
        stage: Stage {
            comings: &[
                Coming::Datagram(3, REGISTER),
                Coming::Observe("/3/0"),
                Coming::Datagram(4, RESET),
                Coming::Datagram(3, RESET),
                NOTIFICATIONS,
                Coming::Cancel(2),
            ],
            ..STAGE
        },
        want: &[
            Piece::Line("Ok(()) WrWrWrrrrWrrr"),
            Piece::Sent(3, CREATED),
            Piece::Line(OBSERVED),
            Piece::Sent(3, ASKS),
            PAGE_OF_ONE,
            Piece::Text(TOLD_RESET),
            PAGE_END,
            NO_SUCH,
        ],
    },
    Run {
        // Both end in one round: a reading and an entry.
        name: "Resets that come together end their observations together",
        stage: Stage {
            comings: &[
                Coming::Datagram(3, REGISTER),
                Coming::Observe("/3/0"),
                Coming::Observe("/1/0"),
                Coming::Datagram(3, RESET),
                Coming::AtOnce(3, RESET_SECOND),
                NOTIFICATIONS,
            ],
            ..STAGE
        },
        want: &[
            Piece::Line("Ok(()) WrWrWrrWrrrWr"),
            Piece::Sent(3, CREATED),
            Piece::Line(OBSERVED),
            Piece::Sent(3, ASKS),
            Piece::Line(OBSERVED_OTHER),
            Piece::Sent(3, ASKS_OTHER),
            PAGE_OF_TWO,
            Piece::Text(TOLD_RESET),
            Piece::Text(","),
            Piece::Text(TOLD_RESET_SECOND),
            PAGE_END,
        ],
    },
    Run {
        name: "an observation is ended",
        stage: Stage {
            comings: &[
                Coming::Datagram(3, REGISTER),
                Coming::Observe("/3/0"),
                Coming::Cancel(2),
                Coming::Cancel(2),
                Coming::Observe("/3/0"),
            ],
            ..STAGE
        },
        want: &[
            Piece::Sent(3, CREATED),
            Piece::Line(OBSERVED),
            Piece::Sent(3, ASKS),
            Piece::Line("NoContent Nothing "),
            Piece::Sent(3, ENDS),
            NO_SUCH,
            Piece::Line(OBSERVED_AGAIN),
            Piece::Sent(3, ASKS_AGAIN),
        ],
    },
    Run {
        name: "what is not registered is not observed",
        stage: Stage {
            comings: &[Coming::Observe("/3/0")],
            ..STAGE
        },
        want: &[Piece::Line("Ok(()) r"), NO_SUCH],
    },
    Run {
        // While the log is unavailable a command is refused, and no request is sent, then or later.
        name: "nothing is asked that is not written",
        stage: Stage {
            comings: &[
                Coming::Datagram(3, REGISTER),
                Coming::Observe("/3/0"),
                Coming::Nothing,
            ],
            trouble: Some(Trouble {
                fault: LogFault::Unavailable,
                after: 1,
                times: 1,
            }),
            ..STAGE
        },
        want: &[
            Piece::Line("Ok(()) WrWrr"),
            Piece::Sent(3, CREATED),
            Piece::Line(r#"ServiceUnavailable Json {"error":"away"}"#),
            Piece::Line("[WARN  lw_server::event_loop] log away"),
            Piece::Line("[INFO  lw_server::event_loop] log back"),
        ],
    },
];

/// Tries: lw_server::run_on, lw_server::Server::next_step, lw_server::Server::hear, lw_route::Api::carry_out
/// Tries: lw_route::Api::wants_to_send, lw_call::Notice::copy
#[test]
fn observations_are_made_and_ended(rt: HostRuntime) {
    plays(&rt, rt.alloc(), &MADE);
}

/// What devices tell, and what is sent to them for it.
static TOLD: [Run; 5] = [
    Run {
        name: "an older notification is acknowledged and not told",
        stage: Stage {
            comings: &[
                Coming::Datagram(3, REGISTER),
                Coming::Observe("/3/0"),
                Coming::Datagram(3, FIRST),
                Coming::Datagram(3, SIXTH),
                Coming::AtOnce(3, SECOND),
                NOTIFICATIONS,
            ],
            ..STAGE
        },
        want: &[
            Piece::Line("Ok(()) WrWrWrrrrrrr"),
            Piece::Sent(3, CREATED),
            Piece::Line(OBSERVED),
            Piece::Sent(3, ASKS),
            Piece::Sent(3, HAS_SIXTH),
            Piece::Sent(3, HAS_SECOND),
            PAGE_OF_TWO,
            Piece::Text(TOLD_FIRST),
            Piece::Text(","),
            Piece::Text(TOLD_SIXTH),
            PAGE_END,
        ],
    },
    Run {
        // A notification of 17 bytes in blocks of 16: it is acknowledged, and the second block is asked for. The
        // acknowledgement of that brings the last byte.
        name: "a notification in blocks is told whole",
        stage: Stage {
            comings: &[
                Coming::Datagram(3, REGISTER),
                Coming::Observe("/3/0"),
                Coming::Datagram(3, FIRST),
                Coming::Datagram(3, BLOCK),
                Coming::Datagram(3, "6445000100000000d10a10ff78"),
                NOTIFICATIONS,
            ],
            ..STAGE
        },
        want: &[
            Piece::Line("Ok(()) WrWrWrrrrrrr"),
            Piece::Sent(3, CREATED),
            Piece::Line(OBSERVED),
            Piece::Sent(3, ASKS),
            Piece::Sent(3, HAS_SIXTH),
            Piece::Sent(3, ASKS_REST),
            PAGE_OF_TWO,
            Piece::Text(TOLD_FIRST),
            Piece::Text(","),
            Piece::Text(TOLD_BLOCKS),
            PAGE_END,
        ],
    },
    Run {
        // The device ends the observation by 4.04, which the log does not take. The next round writes it.
        name: "an end that the log does not take is told once it does",
        stage: Stage {
            comings: &[
                Coming::Datagram(3, REGISTER),
                Coming::Observe("/3/0"),
                Coming::Datagram(3, "688400000000000000020001"),
                Coming::Times(2, &Coming::Nothing),
                NOTIFICATIONS,
            ],
            appends: Some(3),
            ..STAGE
        },
        want: &[
            Piece::Sent(3, CREATED),
            Piece::Line(OBSERVED),
            Piece::Sent(3, ASKS),
            PAGE_OF_ONE,
            Piece::Text(TOLD_NOT_FOUND),
            PAGE_END,
            Piece::Line("[WARN  lw_server::event_loop] log away"),
            Piece::Line("[INFO  lw_server::event_loop] log back"),
        ],
    },
    Run {
        // The device answers the request for the second block by 4.04: what came is told, and that it is not all.
        name: "a notification that breaks off is told so",
        stage: Stage {
            comings: &[
                Coming::Datagram(3, REGISTER),
                Coming::Observe("/3/0"),
                Coming::Datagram(3, BLOCK),
                Coming::Datagram(3, "6484000100000000"),
                NOTIFICATIONS,
            ],
            ..STAGE
        },
        want: &[
            Piece::Sent(3, CREATED),
            Piece::Line(OBSERVED),
            Piece::Sent(3, ASKS),
            Piece::Sent(3, HAS_SIXTH),
            Piece::Sent(3, ASKS_REST),
            PAGE_OF_ONE,
            Piece::Text(TOLD_FIRST_BLOCK),
            PAGE_END,
        ],
    },
    Run {
        // A Register that is not confirmable, message ID 11, which comes twice; then a GET, message ID 12. Their
        // replies have message IDs of the server's own, each its own, and what comes again gets the same reply.
        name: "replies that are not confirmable have IDs of their own",
        stage: Stage {
            comings: &[
                Coming::Times(2, &Coming::Datagram(3, "5002000bb272644465703d61ff3c2f3e")),
                Coming::Datagram(3, "5001000cb27264"),
            ],
            ..STAGE
        },
        want: &[
            Piece::Line("Ok(()) WrWrr"),
            Piece::Times(2, "3 504100008272640d0330303030303030303030303130303031\n"),
            Piece::Sent(3, "50850001"),
            Piece::Line("[INFO  lw_server::reply_lines] refused from=127.0.0.1:3 code=4.05"),
        ],
    },
];

/// Tries: lw_server::run_on, lw_server::Server::take, lw_server::Server::report, lw_server::Server::hear
/// Tries: lw_server::Server::next_step, lw_api::notifications, lw_messaging::stamp_of_token
#[test]
fn what_devices_tell_is_told(rt: HostRuntime) {
    plays(&rt, rt.alloc(), &TOLD);
}
