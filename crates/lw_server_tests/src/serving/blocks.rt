//! Bodies that come in blocks (RFC 7959, sections 2.5, 2.9 and 3.2).

use super::*;

/// A Register of `a` whose body is `</1/0>,</3/0>,</4/0>,</5/0>,</6/0>,</7>` in blocks of 16 bytes: 1:0/1/16, 1:1/1/16
/// and 1:2/0/16, message IDs 17 to 19. Block1 is 12 above Uri-Query.
const FIRST: &str = "40020011b272644465703d61c108ff3c2f312f303e2c3c2f332f303e2c3c2f";

const SECOND: &str = "40020012b272644465703d61c118ff342f303e2c3c2f352f303e2c3c2f362f";

const THIRD: &str = "40020013b272644465703d61c120ff303e2c3c2f373e";

/// 2.31 with the Block1 of the request, 13 and 14 above 0.
const CONTINUE_FIRST: &str = "605f0011d10e08";

const CONTINUE_SECOND: &str = "605f0012d10e18";

/// 2.01 with the Block1 1:2/0/16, 13 and 6 above Location-Path.
const CREATED_BY_THIRD: &str = "604100138272640d0330303030303030303030303130303031d10620";

/// 4.08 for the third block.
const INCOMPLETE_THIRD: &str = "60880013";

/// An Update of it whose body is `</1/0>,</3/0>,</5>` in blocks of 16 bytes, message IDs 33 and 34: Block1 is 16 above
/// Uri-Path. Then 2.31 and 2.04.
const UPDATE_FIRST: &str =
    "40020021b272640d0330303030303030303030303130303031d10308ff3c2f312f303e2c3c2f332f303e2c3c2f";

const UPDATE_SECOND: &str = "40020022b272640d0330303030303030303030303130303031d10310ff353e";

const CONTINUE_UPDATE: &str = "605f0021d10e08";

const CHANGED_BY_SECOND: &str = "60440022d10e10";

/// Messages in blocks, and what is answered to each block.
static BLOCKS: [Run; 6] = [
    Run {
        name: "a Register in three blocks is one",
        stage: Stage {
            comings: &[
                Coming::Datagram(3, FIRST),
                Coming::Datagram(3, SECOND),
                Coming::Datagram(3, THIRD),
            ],
            ..STAGE
        },
        want: &[
            Piece::Line("Ok(()) rrWrW"),
            Piece::Sent(3, CONTINUE_FIRST),
            Piece::Sent(3, CONTINUE_SECOND),
            Piece::Sent(3, CREATED_BY_THIRD),
        ],
    },
    Run {
        // Each block comes twice, the last once more behind another request: each time it has the same reply, and one
        // registration is made.
        name: "a block that comes again is answered again",
        stage: Stage {
            comings: &[
                Coming::Datagram(3, FIRST),
                Coming::Datagram(3, FIRST),
                Coming::Datagram(3, SECOND),
                Coming::AtOnce(3, SECOND),
                Coming::Datagram(3, THIRD),
                Coming::Datagram(3, THIRD),
                Coming::Datagram(3, UPDATE),
                Coming::Datagram(3, THIRD),
            ],
            ..STAGE
        },
        want: &[
            Piece::Line("Ok(()) rrrWrWrrWr"),
            Piece::Sent(3, CONTINUE_FIRST),
            Piece::Sent(3, CONTINUE_FIRST),
            Piece::Sent(3, CONTINUE_SECOND),
            Piece::Sent(3, CREATED_BY_THIRD),
            Piece::Sent(3, CREATED_BY_THIRD),
            Piece::Sent(3, CHANGED),
            Piece::Sent(3, CREATED_BY_THIRD),
        ],
    },
    Run {
        // The last block where the second did not come, and where nothing came: 4.08, and the body is begun anew.
        name: "a block that does not follow is refused",
        stage: Stage {
            comings: &[
                Coming::Datagram(3, FIRST),
                Coming::Datagram(3, THIRD),
                Coming::Datagram(4, THIRD),
            ],
            ..STAGE
        },
        want: &[
            Piece::Line("Ok(()) rrr"),
            Piece::Sent(3, CONTINUE_FIRST),
            Piece::Sent(3, INCOMPLETE_THIRD),
            Piece::Sent(4, INCOMPLETE_THIRD),
            Piece::Line("[INFO  lw_server::reply_lines] refused from=127.0.0.1:3 code=4.08"),
            Piece::Line("[INFO  lw_server::reply_lines] refused from=127.0.0.1:4 code=4.08"),
        ],
    },
    Run {
        // All blocks of two sources at once, the one's between the other's. Replies to blocks that are answered without
        // the store go first.
        name: "blocks of two sources are two bodies",
        stage: Stage {
            comings: &[
                Coming::Datagram(3, FIRST),
                Coming::AtOnce(4, FIRST),
                Coming::AtOnce(3, SECOND),
                Coming::AtOnce(3, THIRD),
                Coming::AtOnce(4, THIRD),
                Coming::AtOnce(5, PING),
            ],
            ..STAGE
        },
        want: &[
            Piece::Line("Ok(()) WrW"),
            Piece::Sent(3, CONTINUE_FIRST),
            Piece::Sent(4, CONTINUE_FIRST),
            Piece::Sent(3, CONTINUE_SECOND),
            Piece::Sent(4, INCOMPLETE_THIRD),
            Piece::Sent(3, CREATED_BY_THIRD),
            Piece::Sent(5, PONG),
            Piece::Line("[INFO  lw_server::reply_lines] refused from=127.0.0.1:4 code=4.08"),
        ],
    },
    Run {
        name: "an Update in blocks is one",
        stage: Stage {
            comings: &[
                Coming::Datagram(3, REGISTER),
                Coming::Datagram(3, UPDATE_FIRST),
                Coming::Datagram(3, UPDATE_SECOND),
            ],
            ..STAGE
        },
        want: &[
            Piece::Line("Ok(()) WrWrrW"),
            Piece::Sent(3, CREATED),
            Piece::Sent(3, CONTINUE_UPDATE),
            Piece::Sent(3, CHANGED_BY_SECOND),
        ],
    },
    Run {
        // A turn that fails: its block is lost, and what comes behind it is answered by 4.08.
        name: "a last block that failed is refused again",
        stage: Stage {
            comings: &[
                Coming::Datagram(3, FIRST),
                Coming::Datagram(3, SECOND),
                Coming::Datagram(3, THIRD),
                Coming::Datagram(3, THIRD),
            ],
            trouble: Some(Trouble {
                fault: LogFault::NoMemory,
                after: 2,
                times: 1,
            }),
            ..STAGE
        },
        want: &[
            Piece::Sent(3, CONTINUE_FIRST),
            Piece::Sent(3, CONTINUE_SECOND),
            Piece::Sent(3, INCOMPLETE_THIRD),
            Piece::Line("[WARN  lw_server::event_loop] no memory for a round"),
            Piece::Line("[INFO  lw_server::reply_lines] refused from=127.0.0.1:3 code=4.08"),
        ],
    },
];

/// Tries: lw_server::run_on, lw_server::Server::take
#[test]
fn blocks_are_put_together(rt: HostRuntime) {
    plays(&rt, rt.alloc(), &BLOCKS);
}

/// The links of the Register, and those of the Update.
const LINKS: &str = "</1/0>,</3/0>,</4/0>,</5/0>,</6/0>,</7>";

const CHANGED_LINKS: &str = "</1/0>,</3/0>,</5>";

/// What is shown is the body whole, of the Register and then of the Update. The blocks are counted, and the body that
/// is kept between them.
static SHOWN: [Turn; 6] = [
    Turn {
        datagram: FIRST,
        sent: &[CONTINUE_FIRST],
        blocks: 1,
        bodies: "fleet_bodies 1",
        links: "[]",
        ..TURN
    },
    Turn {
        datagram: SECOND,
        sent: &[CONTINUE_SECOND],
        blocks: 2,
        bodies: "fleet_bodies 1",
        links: "[]",
        ..TURN
    },
    Turn {
        datagram: THIRD,
        sent: &[CREATED_BY_THIRD],
        blocks: 3,
        bodies: "fleet_bodies 0",
        links: LINKS,
        ..TURN
    },
    Turn {
        datagram: UPDATE_FIRST,
        sent: &[CONTINUE_UPDATE],
        blocks: 4,
        bodies: "fleet_bodies 1",
        links: LINKS,
        ..TURN
    },
    Turn {
        datagram: UPDATE_SECOND,
        sent: &[CHANGED_BY_SECOND],
        blocks: 5,
        bodies: "fleet_bodies 0",
        links: CHANGED_LINKS,
        ..TURN
    },
    Turn {
        datagram: PING,
        sent: &[PONG],
        blocks: 5,
        bodies: "fleet_bodies 0",
        links: CHANGED_LINKS,
        ..TURN
    },
];

/// Seven blocks of 1,024 bytes go on, and with the eighth the message has more than 8,192 bytes: 4.13 with Size1
/// 8,192, 13 and 47 above 0. What has come is kept.
static TOO_LARGE: [Turn; 8] = [
    Turn {
        datagram: "40020000b272644465703d61c10eff",
        letters: 1_024,
        sent: &["605f0000d10e0e"],
        blocks: 1,
        bodies: "fleet_bodies 1",
        ..TURN
    },
    Turn {
        datagram: "40020001b272644465703d61c11eff",
        letters: 1_024,
        sent: &["605f0001d10e1e"],
        blocks: 2,
        bodies: "fleet_bodies 1",
        ..TURN
    },
    Turn {
        datagram: "40020002b272644465703d61c12eff",
        letters: 1_024,
        sent: &["605f0002d10e2e"],
        blocks: 3,
        bodies: "fleet_bodies 1",
        ..TURN
    },
    Turn {
        datagram: "40020003b272644465703d61c13eff",
        letters: 1_024,
        sent: &["605f0003d10e3e"],
        blocks: 4,
        bodies: "fleet_bodies 1",
        ..TURN
    },
    Turn {
        datagram: "40020004b272644465703d61c14eff",
        letters: 1_024,
        sent: &["605f0004d10e4e"],
        blocks: 5,
        bodies: "fleet_bodies 1",
        ..TURN
    },
    Turn {
        datagram: "40020005b272644465703d61c15eff",
        letters: 1_024,
        sent: &["605f0005d10e5e"],
        blocks: 6,
        bodies: "fleet_bodies 1",
        ..TURN
    },
    Turn {
        datagram: "40020006b272644465703d61c16eff",
        letters: 1_024,
        sent: &["605f0006d10e6e"],
        blocks: 7,
        bodies: "fleet_bodies 1",
        ..TURN
    },
    Turn {
        datagram: "40020007b272644465703d61c17eff",
        letters: 1_024,
        sent: &["608d0007d22f2000"],
        blocks: 8,
        bodies: "fleet_bodies 1",
        ..TURN
    },
];

/// Tries: lw_server::Server::take, lw_server::Server::blocks, lw_route::Api::answer
#[test]
fn a_body_is_shown_whole_and_may_be_too_large(rt: HostRuntime) {
    takes(&rt, rt.alloc(), &SHOWN);
    takes(&rt, rt.alloc(), &TOO_LARGE);
}
