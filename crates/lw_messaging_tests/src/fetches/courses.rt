//! Messages that come one after another, in courses of which each begins without a fetch.

use super::*;

/// A response with the token of the sixth fetch.
const OTHER_ANSWER: Came = Came {
    token: &SIXTH,
    ..answer!(2, 0x10, 5)
};

/// A response with a token of three bytes.
const SHORT_ANSWER: Came = Came {
    token: &[0, 0, 5],
    ..answer!(2, 0x10, 5)
};

/// A request with the token of the fetch.
const GET: Came = Came {
    code: 0x01,
    ..answer!(2, 0x10, 5)
};

/// A Reset with the token of the fetch.
const RESET: Came = Came {
    kind: RST,
    ..answer!(2, 0x10, 5)
};

/// An answer with a code and a block that would follow.
macro_rules! coded {
    ($code:expr) => {
        Came {
            code: $code,
            ..answer!(2, 0x18, 16)
        }
    };
}

/// An answer without Block2 and ETag, of so many bytes.
macro_rules! all {
    ($len:expr) => {
        Came {
            block: None,
            etag: &[],
            ..answer!(2, 0, $len)
        }
    };
}

/// An answer with an ETag.
macro_rules! tagged {
    ($etag:expr, $mid:expr, $block:expr, $len:expr) => {
        Came {
            etag: $etag,
            ..answer!($mid, $block, $len)
        }
    };
}

/// A first block of 16 bytes, and what comes behind it.
macro_rules! behind_a_block {
    ($came:expr, $given:expr) => {
        &[
            (0, HOST_A, told_of!(1, 0x08, 16), Given::Asks(0x10, 5)),
            (1, HOST_A, $came, $given),
        ]
    };
}

/// A response that is no block that follows, and the one that would have followed.
macro_rules! ends {
    ($came:expr) => {
        &[
            (0, HOST_A, told_of!(1, 0x08, 16), Given::Asks(0x10, 5)),
            (1, HOST_A, $came, Given::Whole(&[(1, 16)], false)),
            (2, HOST_A, answer!(3, 0x10, 5), Given::Through),
        ]
    };
}

/// Two blocks in messages of two types.
macro_rules! types {
    ($first:expr, $second:expr) => {
        &[
            (
                0,
                HOST_A,
                Came {
                    kind: $first,
                    ..told_of!(1, 0x08, 16)
                },
                Given::Asks(0x10, 5),
            ),
            (
                1,
                HOST_A,
                Came {
                    kind: $second,
                    ..answer!(2, 0x10, 5)
                },
                Given::Whole(&[(1, 16), (2, 5)], true),
            ),
        ]
    };
}

/// A third block with another ETag, and what comes from block 0 on.
macro_rules! anew {
    ($etag:expr) => {
        &[
            (0, HOST_A, told_of!(1, 0x08, 16), Given::Asks(0x10, 5)),
            (1, HOST_A, answer!(2, 0x18, 16), Given::Asks(0x20, 5)),
            (2, HOST_A, tagged!($etag, 3, 0x28, 16), Given::Asks(0x00, 5)),
            (3, HOST_A, tagged!($etag, 4, 0x08, 16), Given::Asks(0x10, 5)),
            (
                4,
                HOST_A,
                tagged!($etag, 5, 0x10, 2),
                Given::Whole(&[(4, 16), (5, 2)], true),
            ),
        ]
    };
}

/// The payloads of seven blocks.
const SEVEN: [Part; 7] = [
    (0, 1024),
    (1, 1024),
    (2, 1024),
    (3, 1024),
    (4, 1024),
    (5, 1024),
    (6, 1024),
];

/// Seven blocks and one of 1,009 bytes.
const EIGHT: [Part; 8] = [
    (0, 1024),
    (1, 1024),
    (2, 1024),
    (3, 1024),
    (4, 1024),
    (5, 1024),
    (6, 1024),
    (7, 1009),
];

/// Seven blocks of 1,024 bytes, and one behind them. A header has 4 bytes, the token 8, Observe 2, and the payload one
/// before it: so 8,177 bytes of payload make 8,192. Behind seven blocks of 1,024 that is one of 1,009.
macro_rules! eighth {
    ($block:expr, $len:expr, $given:expr) => {
        &[
            (0, HOST_A, told_of!(0, 0x0e, 1024), Given::Asks(0x16, 5)),
            (0, HOST_A, answer!(1, 0x1e, 1024), Given::Asks(0x26, 5)),
            (0, HOST_A, answer!(2, 0x2e, 1024), Given::Asks(0x36, 5)),
            (0, HOST_A, answer!(3, 0x3e, 1024), Given::Asks(0x46, 5)),
            (0, HOST_A, answer!(4, 0x4e, 1024), Given::Asks(0x56, 5)),
            (0, HOST_A, answer!(5, 0x5e, 1024), Given::Asks(0x66, 5)),
            (0, HOST_A, answer!(6, 0x6e, 1024), Given::Asks(0x76, 5)),
            (0, HOST_A, answer!(7, $block, $len), $given),
        ]
    };
}

/// A name, and what comes.
type Course = (&'static str, &'static [Row<'static>]);

/// Blocks that follow one another, and what is none of them.
static FOLLOWED: [Course; 4] = [
    (
        "blocks of 16 bytes, of which the last is not full",
        &[
            (0, HOST_A, told_of!(1, 0x08, 16), Given::Asks(0x10, 5)),
            (1, HOST_A, answer!(2, 0x18, 16), Given::Asks(0x20, 5)),
            (
                2,
                HOST_A,
                answer!(3, 0x20, 3),
                Given::Whole(&[(1, 16), (2, 16), (3, 3)], true),
            ),
            (3, HOST_A, answer!(3, 0x20, 3), Given::Through),
        ],
    ),
    (
        "blocks of 1,024 bytes",
        &[
            (0, HOST_A, told_of!(1, 0x0e, 1024), Given::Asks(0x16, 5)),
            (
                1,
                HOST_A,
                answer!(2, 0x16, 1024),
                Given::Whole(&[(1, 1024), (2, 1024)], true),
            ),
        ],
    ),
    (
        "from 0/1/64 on the server has smaller blocks: 2/1/32 follows, and then 3/0/32 is asked for",
        &[
            (0, HOST_A, told_of!(1, 0x0a, 64), Given::Asks(0x12, 5)),
            (1, HOST_A, answer!(2, 0x29, 32), Given::Asks(0x31, 5)),
            (
                2,
                HOST_A,
                answer!(3, 0x31, 0),
                Given::Whole(&[(1, 64), (2, 32)], true),
            ),
        ],
    ),
    // A notification is whole in block 0 where no more follows. Another block, a reserved size and a payload of another
    // length than the value says are left to the store, and so is what has no Block2, or no 2.05.
    (
        "a notification begins with block 0",
        &[
            (0, HOST_A, told_of!(1, 0x00, 9), Given::Made),
            (0, HOST_A, told_of!(2, 0x06, 0), Given::Made),
            (0, HOST_A, told_of!(3, 0x18, 16), Given::Through),
            (0, HOST_A, told_of!(4, 0x10, 9), Given::Through),
            (0, HOST_A, told_of!(5, 0x0f, 2048), Given::Through),
            (0, HOST_A, told_of!(6, 0x08, 15), Given::Through),
            (
                0,
                HOST_A,
                Came {
                    block: None,
                    ..told_of!(7, 0, 16)
                },
                Given::Through,
            ),
            (
                0,
                HOST_A,
                Came {
                    code: NOT_FOUND,
                    ..told_of!(8, 0x08, 16)
                },
                Given::Through,
            ),
            (
                0,
                HOST_A,
                Came {
                    kind: RST,
                    ..told_of!(9, 0x08, 16)
                },
                Given::Through,
            ),
            (0, HOST_A, told_of!(10, 0x08, 16), Given::Asks(0x10, 5)),
        ],
    ),
];

/// Each type of message carries blocks. What is confirmable is acknowledged, whichever of the two it is.
static TYPES: [Course; 9] = [
    ("CON and CON", types!(CON, CON)),
    ("CON and NON", types!(CON, NON)),
    ("CON and ACK", types!(CON, ACK)),
    ("NON and CON", types!(NON, CON)),
    ("NON and NON", types!(NON, NON)),
    ("NON and ACK", types!(NON, ACK)),
    ("ACK and CON", types!(ACK, CON)),
    ("ACK and NON", types!(ACK, NON)),
    ("ACK and ACK", types!(ACK, ACK)),
];

/// Responses with the token of a fetch. One without Block2 has it all: 8,177 bytes have room, and where it has a byte
/// more, what had come is told.
static RESPONSES: [Course; 5] = [
    (
        "a response answers its request with the token of the fetch, from its address alone",
        &[
            (0, HOST_A, told_of!(1, 0x08, 16), Given::Asks(0x10, 5)),
            (1, HOST_B, answer!(2, 0x10, 5), Given::Through),
            (1, HOST_A, OTHER_ANSWER, Given::Through),
            (1, HOST_A, SHORT_ANSWER, Given::Through),
            (1, HOST_A, GET, Given::Through),
            (1, HOST_A, RESET, Given::Through),
            (
                1,
                HOST_A,
                answer!(2, 0x10, 5),
                Given::Whole(&[(1, 16), (2, 5)], true),
            ),
        ],
    ),
    (
        "a response of no byte",
        behind_a_block!(all!(0), Given::Whole(&[(2, 0)], true)),
    ),
    (
        "a response of 40 bytes",
        behind_a_block!(all!(40), Given::Whole(&[(2, 40)], true)),
    ),
    (
        "a response of 8,177 bytes",
        behind_a_block!(all!(8177), Given::Whole(&[(2, 8177)], true)),
    ),
    (
        "a response of 8,178 bytes",
        behind_a_block!(all!(8178), Given::Whole(&[(1, 16)], false)),
    ),
];

/// What had come is told where the next response is no block that follows: one too early or too late, one of a
/// reserved size or of another length than its value says, and errors.
static ENDED: [Course; 9] = [
    ("block 0 again", ends!(answer!(2, 0x08, 16))),
    ("block 2 behind 0", ends!(answer!(2, 0x28, 16))),
    ("a larger block 0", ends!(answer!(2, 0x09, 32))),
    ("a reserved size", ends!(answer!(2, 0x17, 16))),
    ("a byte too few", ends!(answer!(2, 0x18, 15))),
    ("a byte too many", ends!(answer!(2, 0x10, 17))),
    ("4.04", ends!(coded!(NOT_FOUND))),
    ("5.03", ends!(coded!(0xa3))),
    ("2.03", ends!(coded!(0x43))),
];

/// A block with another ETag, with one more byte of it, or without one, begins the fetch anew at block 0.
static TAGGED: [Course; 4] = [
    ("another ETag", anew!(b"f")),
    ("a longer ETag", anew!(b"ef")),
    ("no ETag any more", anew!(b"")),
    (
        "without an ETag in each block they belong together",
        &[
            (
                0,
                HOST_A,
                Came {
                    etag: &[],
                    ..told_of!(1, 0x08, 16)
                },
                Given::Asks(0x10, 5),
            ),
            (
                1,
                HOST_A,
                tagged!(&[], 2, 0x10, 1),
                Given::Whole(&[(1, 16), (2, 1)], true),
            ),
        ],
    ),
];

/// The longest message, and how long a fetch waits for its next block.
static BOUNDS: [Course; 4] = [
    (
        "8,192 bytes",
        eighth!(0x76, 1009, Given::Whole(&EIGHT, true)),
    ),
    (
        "8,193 bytes",
        eighth!(0x76, 1010, Given::Whole(&SEVEN, false)),
    ),
    (
        "more than 8,192 bytes",
        eighth!(0x7e, 1024, Given::Whole(&SEVEN, false)),
    ),
    (
        "247 seconds, and a millisecond more; each block begins the time anew",
        &[
            (1000, HOST_A, told_of!(1, 0x08, 16), Given::Asks(0x10, 5)),
            (248_000, HOST_A, answer!(2, 0x18, 16), Given::Asks(0x20, 5)),
            (495_001, HOST_A, answer!(3, 0x20, 3), Given::Through),
            (
                495_000,
                HOST_A,
                answer!(3, 0x20, 3),
                Given::Whole(&[(1, 16), (2, 16), (3, 3)], true),
            ),
        ],
    ),
];

/// Plays each of the courses.
fn play(rt: &impl Abort, alloc: Global, courses: &[Course]) {
    for (name, rows) in courses {
        let mut fetches = fetches(alloc);
        for row in *rows {
            gives(rt, alloc, &mut fetches, name, row);
        }
    }
}

/// Tries: Fetches::take, Fetches::new
#[test]
fn blocks_are_put_together(rt: HostRuntime) {
    play(&rt, rt.alloc(), &FOLLOWED);
    play(&rt, rt.alloc(), &TYPES);
    play(&rt, rt.alloc(), &BOUNDS);
}

/// Tries: Fetches::take, Fetches::new
#[test]
fn what_is_no_block_that_follows_ends_a_fetch(rt: HostRuntime) {
    play(&rt, rt.alloc(), &RESPONSES);
    play(&rt, rt.alloc(), &ENDED);
    play(&rt, rt.alloc(), &TAGGED);
}
