//! Clocks in the middle of their range.

use super::*;

/// A clock of 999,999, and operations with the counters from 1,000,000 on.
static A_MILLION: [Row<'static>; 9] = [
    (Merges("4c5744330000000f423f00"), "joined 0"),
    (
        Line(REGISTER),
        "taken 604100048272640d0330303030303030663432343030303031 -",
    ),
    (
        Line("observe 1 0 0000000f42400001 /3/0 - 32"),
        "sent 0000000f42410001 127.0.0.1:5683 480100200000000f424100016051330130",
    ),
    (
        Line(
            "take 1 0 127.0.0.1:5683 40020010b272640d0330303030303030663432343030303031466c743d313230",
        ),
        "taken 60440010 -",
    ),
    (
        Line("endpoint 1 0 a"),
        r#"{"address":"127.0.0.1:5683","attributes":{},"binding":"U","endpoint":"a","id":"0000000f42400001","lifetime":120,"lwm2m":"1.0","objects":"</>","queue":false,"seen":0,"sms":null}"#,
    ),
    (
        Line("send 1 0"),
        "4c5744330000000f4242010161\
0000000f424000017f00\
0000000f42420001047f0000011633\
0000000f42420001000000000000\
0000000f4242000100000078\
0000000f424000010155\
0000000f4240000100\
0000000f4240000100033c2f3e0000\
0102000300000000000f42410001010000\
00",
    ),
    (
        Line("cancel 1 0 0000000f42410001 32"),
        "sent 0000000f42410001 127.0.0.1:5683 480100200000000f42410001610151330130",
    ),
    (
        Line("take 1 0 127.0.0.1:5683 40040012b272640d0330303030303030663432343030303031"),
        "taken 60420012 -",
    ),
    (Numbers, "1000004 5"),
];

/// Tries: Node::take, Node::merge
#[test]
fn a_clock_goes_on_at_a_million(rt: HostRuntime) {
    play_new(&rt, rt.alloc(), ("a clock at a million", &A_MILLION));
}

/// A node whose clock a delta has raised goes on behind it: two below each power of 256 and two of 1,000, and two below
/// the half of the range.
static CLOCKS: [Run<'static>; 8] = [
    (
        "a clock two below 256",
        &[
            (Merges("4c5744330000000000fe00"), "joined 0"),
            (
                Line(REGISTER),
                "taken 604100048272640d0330303030303030303030666630303031 -",
            ),
            (
                Line("observe 1 0 0000000000ff0001 /3/0 - 32"),
                "sent 0000000001000001 127.0.0.1:5683 4801002000000000010000016051330130",
            ),
            (Numbers, "256 2"),
        ],
    ),
    (
        "a clock two below 1,000",
        &[
            (Merges("4c5744330000000003e600"), "joined 0"),
            (
                Line(REGISTER),
                "taken 604100048272640d0330303030303030303033653730303031 -",
            ),
            (
                Line("observe 1 0 0000000003e70001 /3/0 - 32"),
                "sent 0000000003e80001 127.0.0.1:5683 480100200000000003e800016051330130",
            ),
            (Numbers, "1000 2"),
        ],
    ),
    (
        "a clock two below 256 to the 2nd",
        &[
            (Merges("4c57443300000000fffe00"), "joined 0"),
            (
                Line(REGISTER),
                "taken 604100048272640d0330303030303030306666666630303031 -",
            ),
            (
                Line("observe 1 0 00000000ffff0001 /3/0 - 32"),
                "sent 0000000100000001 127.0.0.1:5683 4801002000000001000000016051330130",
            ),
            (Numbers, "65536 2"),
        ],
    ),
    (
        "a clock two below 256 to the 3rd",
        &[
            (Merges("4c574433000000fffffe00"), "joined 0"),
            (
                Line(REGISTER),
                "taken 604100048272640d0330303030303066666666666630303031 -",
            ),
            (
                Line("observe 1 0 000000ffffff0001 /3/0 - 32"),
                "sent 0000010000000001 127.0.0.1:5683 4801002000000100000000016051330130",
            ),
            (Numbers, "16777216 2"),
        ],
    ),
    (
        "a clock two below 256 to the 4th",
        &[
            (Merges("4c5744330000fffffffe00"), "joined 0"),
            (
                Line(REGISTER),
                "taken 604100048272640d0330303030666666666666666630303031 -",
            ),
            (
                Line("observe 1 0 0000ffffffff0001 /3/0 - 32"),
                "sent 0001000000000001 127.0.0.1:5683 4801002000010000000000016051330130",
            ),
            (Numbers, "4294967296 2"),
        ],
    ),
    (
        "a clock two below 256 to the 5th",
        &[
            (Merges("4c57443300fffffffffe00"), "joined 0"),
            (
                Line(REGISTER),
                "taken 604100048272640d0330306666666666666666666630303031 -",
            ),
            (
                Line("observe 1 0 00ffffffffff0001 /3/0 - 32"),
                "sent 0100000000000001 127.0.0.1:5683 4801002001000000000000016051330130",
            ),
            (Numbers, "1099511627776 2"),
        ],
    ),
    (
        "a clock two below 1,000,000,000,000",
        &[
            (Merges("4c57443300e8d4a50ffe00"), "joined 0"),
            (
                Line(REGISTER),
                "taken 604100048272640d0330306538643461353066666630303031 -",
            ),
            (
                Line("observe 1 0 00e8d4a50fff0001 /3/0 - 32"),
                "sent 00e8d4a510000001 127.0.0.1:5683 4801002000e8d4a5100000016051330130",
            ),
            (Numbers, "1000000000000 2"),
        ],
    ),
    (
        "a clock two below the half of the range",
        &[
            (Merges("4c5744337ffffffffffe00"), "joined 0"),
            (
                Line(REGISTER),
                "taken 604100048272640d0337666666666666666666666630303031 -",
            ),
            (
                Line("observe 1 0 7fffffffffff0001 /3/0 - 32"),
                "sent 8000000000000001 127.0.0.1:5683 4801002080000000000000016051330130",
            ),
            (Numbers, "140737488355328 2"),
        ],
    ),
];

/// Tries: Node::take, Node::merge
#[test]
fn clocks_go_on_in_the_middle_of_their_range(rt: HostRuntime) {
    play_each(&rt, rt.alloc(), &CLOCKS);
}
