//! Blocks that come one after another, in courses of which each begins without a body.

use super::*;

const HOST_B: Addr = Addr::V4 {
    address: [192, 0, 2, 2],
    port: 5683,
};

const OTHER_PORT: Addr = Addr::V4 {
    address: [192, 0, 2, 1],
    port: 5684,
};

/// A last block with another Uri-Query.
const OTHER: Post = Post {
    options: OTHER_REGISTER,
    ..con!(2, 0x10, 3)
};

/// A last block with a Uri-Query more.
const LONGER: Post = Post {
    options: b"\xb2rd\x11\x28\x34ep=a\x01b",
    ..con!(3, 0x10, 3)
};

/// The first block before `OTHER`.
const OTHER_BEGINS: Post = Post {
    block: 0x08,
    len: 16,
    ..OTHER
};

/// The first of two blocks that are not confirmable, and the last.
const NON_BEGINS: Post = Post {
    first: NON,
    ..con!(1, 0x08, 16)
};

const NON_ENDS: Post = Post {
    first: NON,
    ..con!(2, 0x10, 3)
};

/// Of an exponent, a block that others follow of its size, of a byte more and of one less, and a last one.
macro_rules! sizes {
    ($exponent:expr, $size:expr) => {
        &[
            (0, HOST_A, con!(1, 8 + $exponent, $size), Given::Continue),
            (0, HOST_A, con!(2, 8 + $exponent, $size + 1), Given::BadRequest),
            (0, HOST_A, con!(3, 8 + $exponent, $size - 1), Given::BadRequest),
            (0, HOST_A, con!(4, 8 + $exponent, 0), Given::BadRequest),
            (0, HOST_A, con!(5, 16 + $exponent, $size + 1), Given::BadRequest),
            (0, HOST_A, con!(6, 16 + $exponent, $size), Given::Whole(2 * $size)),
        ]
    };
}

/// Seven blocks of 1,024 bytes, and one behind them. A header, a token and options have 16 bytes, and a payload has one
/// before it: so 8,175 bytes of payload make 8,192.
macro_rules! eighth {
    ($block:expr, $len:expr, $given:expr) => {
        &[
            (0, HOST_A, con!(0, 0x0e, 1024), Given::Continue),
            (0, HOST_A, con!(1, 0x1e, 1024), Given::Continue),
            (0, HOST_A, con!(2, 0x2e, 1024), Given::Continue),
            (0, HOST_A, con!(3, 0x3e, 1024), Given::Continue),
            (0, HOST_A, con!(4, 0x4e, 1024), Given::Continue),
            (0, HOST_A, con!(5, 0x5e, 1024), Given::Continue),
            (0, HOST_A, con!(6, 0x6e, 1024), Given::Continue),
            (0, HOST_A, con!(9, $block, $len), $given),
        ]
    };
}

/// A name, and what comes.
static COURSES: [(&str, &[Row]); 19] = [
    (
        "1:0/1/128, 1:1/1/128 and 1:2/0/128, as in the first example of section 3.2",
        &[
            (0, HOST_A, con!(1, 0x0b, 128), Given::Continue),
            (1, HOST_A, con!(2, 0x1b, 128), Given::Continue),
            (2, HOST_A, con!(3, 0x23, 20), Given::Whole(276)),
            (3, HOST_A, con!(4, 0x33, 20), Given::Incomplete),
        ],
    ),
    (
        "1:0/1/128, and from 1:4/1/32 on smaller blocks, as in the last example of section 3.2",
        &[
            (0, HOST_A, con!(1, 0x0b, 128), Given::Continue),
            (0, HOST_A, con!(2, 0x19, 32), Given::Incomplete),
            (0, HOST_A, con!(3, 0x49, 32), Given::Continue),
            (0, HOST_A, con!(4, 0x59, 32), Given::Continue),
            (0, HOST_A, con!(5, 0x61, 10), Given::Whole(202)),
        ],
    ),
    (
        "block 0 begins anew",
        &[
            (0, HOST_A, con!(1, 0x08, 16), Given::Continue),
            (0, HOST_A, con!(2, 0x18, 16), Given::Continue),
            (0, HOST_A, con!(3, 0x08, 16), Given::Continue),
            (0, HOST_A, con!(4, 0x28, 16), Given::Incomplete),
            (0, HOST_A, con!(5, 0x10, 3), Given::Whole(19)),
            (0, HOST_A, con!(6, 0x08, 16), Given::Continue),
            (0, HOST_A, con!(7, 0x00, 5), Given::Whole(5)),
            (0, HOST_A, con!(8, 0x10, 5), Given::Incomplete),
        ],
    ),
    (
        "a block follows the one before it",
        &[
            (0, HOST_A, con!(1, 0x18, 16), Given::Incomplete),
            (0, HOST_A, con!(2, 0x10, 3), Given::Incomplete),
            (0, HOST_A, con!(3, 0x08, 16), Given::Continue),
            (0, HOST_A, con!(4, 0x28, 16), Given::Incomplete),
            (0, HOST_A, con!(5, 0x18, 16), Given::Continue),
            (0, HOST_A, con!(6, 0x18, 16), Given::Incomplete),
            (0, HOST_A, con!(7, 0x20, 0), Given::Whole(32)),
            (0, HOST_A, con!(8, 0x00, 16), Given::Whole(16)),
            (0, HOST_A, con!(9, 0x00, 0), Given::Whole(0)),
        ],
    ),
    ("blocks of 16 bytes", sizes!(0, 16)),
    ("blocks of 32 bytes", sizes!(1, 32)),
    ("blocks of 64 bytes", sizes!(2, 64)),
    ("blocks of 128 bytes", sizes!(3, 128)),
    ("blocks of 256 bytes", sizes!(4, 256)),
    ("blocks of 512 bytes", sizes!(5, 512)),
    ("blocks of 1,024 bytes", sizes!(6, 1024)),
    (
        "a reserved size",
        &[
            (0, HOST_A, con!(1, 0x0f, 2048), Given::BadRequest),
            (0, HOST_A, con!(2, 0x07, 5), Given::BadRequest),
        ],
    ),
    (
        "blocks of one source are put together",
        &[
            (0, HOST_A, con!(1, 0x08, 16), Given::Continue),
            (0, HOST_B, con!(2, 0x10, 3), Given::Incomplete),
            (0, OTHER_PORT, con!(3, 0x10, 3), Given::Incomplete),
            (0, HOST_A6, con!(4, 0x10, 3), Given::Incomplete),
            (0, HOST_B, con!(5, 0x08, 16), Given::Continue),
            (0, HOST_A, con!(6, 0x10, 3), Given::Whole(19)),
            (0, HOST_B, con!(7, 0x10, 4), Given::Whole(20)),
        ],
    ),
    (
        "blocks of the same options are put together",
        &[
            (0, HOST_A, con!(1, 0x08, 16), Given::Continue),
            (0, HOST_A, OTHER, Given::Incomplete),
            (0, HOST_A, LONGER, Given::Incomplete),
            (0, HOST_A, OTHER_BEGINS, Given::Continue),
            (0, HOST_A, con!(4, 0x10, 3), Given::Whole(19)),
            (0, HOST_A, OTHER, Given::Whole(19)),
        ],
    ),
    (
        "a block that is not confirmable is answered so",
        &[
            (0, HOST_A, NON_ENDS, Given::Incomplete),
            (0, HOST_A, NON_BEGINS, Given::Continue),
            (0, HOST_A, NON_ENDS, Given::Whole(19)),
        ],
    ),
    (
        "247 seconds, and a millisecond more; each block begins the time anew",
        &[
            (1000, HOST_A, con!(1, 0x08, 16), Given::Continue),
            (248_000, HOST_A, con!(2, 0x18, 16), Given::Continue),
            (495_000, HOST_A, con!(3, 0x20, 3), Given::Whole(35)),
            (1000, HOST_A, con!(4, 0x08, 16), Given::Continue),
            (248_001, HOST_A, con!(5, 0x18, 16), Given::Incomplete),
            (249_000, HOST_A, con!(6, 0x18, 16), Given::Incomplete),
        ],
    ),
    ("8,192 bytes", eighth!(0x76, 1007, Given::Whole(8175))),
    ("8,193 bytes", eighth!(0x76, 1008, Given::TooLarge)),
    (
        "more than 8,192 bytes",
        eighth!(0x7e, 1024, Given::TooLarge),
    ),
];

/// Tries: Bodies::new, Bodies::take
#[test]
fn blocks_are_put_together(rt: HostRuntime) {
    for (name, rows) in &COURSES {
        let mut bodies = Bodies::new(rt.alloc());
        for row in *rows {
            gives(&rt, rt.alloc(), &mut bodies, name, row);
        }
    }
}
