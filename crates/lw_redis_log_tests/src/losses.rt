use crate::stage::Act::{Append, Pass, Read};
use crate::stage::Answer::{Ends, Opens, Says, SaysLarge};
use crate::stage::{Answer, Story, play_all};

const PONG: Answer = Says("+PONG\r\n");

/// What a Redis that keeps a file tells, as much of it as counts.
const KEEPS: Answer = Says("$30\r\n# Persistence\r\naof_enabled:1\r\n\r\n");

const EMPTY: Answer = Says("*0\r\n");

/// The entry 5-0 is there, `a`.
const FIFTH: Answer = Says("*1\r\n*2\r\n$3\r\n5-0\r\n*2\r\n$1\r\ne\r\n$1\r\na\r\n");

/// The same, and behind it 6-0, `b`.
const BOTH: Answer = Says(
    "*2\r\n*2\r\n$3\r\n5-0\r\n*2\r\n$1\r\ne\r\n$1\r\na\r\n*2\r\n$3\r\n6-0\r\n*2\r\n$1\r\ne\r\n$1\r\nb\r\n",
);

/// The entry 6-0 alone, `b`.
const SIXTH: Answer = Says("*1\r\n*2\r\n$3\r\n6-0\r\n*2\r\n$1\r\ne\r\n$1\r\nb\r\n");

/// Other bytes at 5-0.
const OTHER: Answer = Says("*1\r\n*2\r\n$3\r\n5-0\r\n*2\r\n$1\r\ne\r\n$1\r\nb\r\n");

/// Fields of no entry at 5-0.
const FOREIGN: Answer = Says("*1\r\n*2\r\n$3\r\n5-0\r\n*2\r\n$1\r\nf\r\n$1\r\na\r\n");

/// The entry 5-0 was appended.
const AT_5: Answer = Says("$3\r\n5-0\r\n");

/// The entry 6-0 was appended.
const AT_6: Answer = Says("$3\r\n6-0\r\n");

/// The entry 4-9 was appended.
const AT_4: Answer = Says("$3\r\n4-9\r\n");

/// A reading above the entry that was read last looks for it. Where it is not the first, and with its bytes, something
/// is lost, and the next reading looks for nothing.
static READ_BEFORE: [Story<'static>; 7] = [
    (
        &[Opens, PONG, KEEPS, FIFTH, FIFTH, BOTH, SIXTH],
        &[
            Read(None),
            Read(Some((5, 0))),
            Read(Some((5, 0))),
            Read(Some((6, 0))),
        ],
        "connects\n*1~$4~PING~\n*1~$4~INFO~\n\
         *6~$6~XRANGE~$1~k~$1~-~$1~+~$5~COUNT~$3~256~\npasses over 5-0\n= 5-0 a\n\
         *6~$6~XRANGE~$1~k~$3~5-0~$1~+~$5~COUNT~$3~257~\n=\n\
         *6~$6~XRANGE~$1~k~$3~5-0~$1~+~$5~COUNT~$3~257~\npasses over 6-0\n= 6-0 b\n\
         *6~$6~XRANGE~$1~k~$3~6-0~$1~+~$5~COUNT~$3~257~\n=\n",
    ),
    (
        &[Opens, PONG, KEEPS, FIFTH, EMPTY, EMPTY],
        &[Read(None), Read(Some((5, 0))), Read(Some((5, 0)))],
        "connects\n*1~$4~PING~\n*1~$4~INFO~\n\
         *6~$6~XRANGE~$1~k~$1~-~$1~+~$5~COUNT~$3~256~\npasses over 5-0\n= 5-0 a\n\
         *6~$6~XRANGE~$1~k~$3~5-0~$1~+~$5~COUNT~$3~257~\nlost\n= Lost\n\
         *6~$6~XRANGE~$1~k~$4~(5-0~$1~+~$5~COUNT~$3~256~\n=\n",
    ),
    (
        &[Opens, PONG, KEEPS, FIFTH, SIXTH],
        &[Read(None), Read(Some((5, 0)))],
        "connects\n*1~$4~PING~\n*1~$4~INFO~\n\
         *6~$6~XRANGE~$1~k~$1~-~$1~+~$5~COUNT~$3~256~\npasses over 5-0\n= 5-0 a\n\
         *6~$6~XRANGE~$1~k~$3~5-0~$1~+~$5~COUNT~$3~257~\nlost\n= Lost\n",
    ),
    (
        &[Opens, PONG, KEEPS, FIFTH, OTHER],
        &[Read(None), Read(Some((5, 0)))],
        "connects\n*1~$4~PING~\n*1~$4~INFO~\n\
         *6~$6~XRANGE~$1~k~$1~-~$1~+~$5~COUNT~$3~256~\npasses over 5-0\n= 5-0 a\n\
         *6~$6~XRANGE~$1~k~$3~5-0~$1~+~$5~COUNT~$3~257~\nlost\n= Lost\n",
    ),
    (
        &[Opens, PONG, KEEPS, FIFTH, FOREIGN],
        &[Read(None), Read(Some((5, 0)))],
        "connects\n*1~$4~PING~\n*1~$4~INFO~\n\
         *6~$6~XRANGE~$1~k~$1~-~$1~+~$5~COUNT~$3~256~\npasses over 5-0\n= 5-0 a\n\
         *6~$6~XRANGE~$1~k~$3~5-0~$1~+~$5~COUNT~$3~257~\nlost\n= Lost\n",
    ),
    // From the start, or from elsewhere, nothing is looked for.
    (
        &[Opens, PONG, KEEPS, FIFTH, EMPTY, SIXTH, SIXTH],
        &[
            Read(None),
            Read(None),
            Read(Some((5, 0))),
            Read(Some((5, 9))),
        ],
        "connects\n*1~$4~PING~\n*1~$4~INFO~\n\
         *6~$6~XRANGE~$1~k~$1~-~$1~+~$5~COUNT~$3~256~\npasses over 5-0\n= 5-0 a\n\
         *6~$6~XRANGE~$1~k~$1~-~$1~+~$5~COUNT~$3~256~\n=\n\
         *6~$6~XRANGE~$1~k~$4~(5-0~$1~+~$5~COUNT~$3~256~\npasses over 6-0\n= 6-0 b\n\
         *6~$6~XRANGE~$1~k~$4~(5-9~$1~+~$5~COUNT~$3~256~\npasses over 6-0\n= 6-0 b\n",
    ),
    // So it is over a connection that was made again.
    (
        &[
            Opens,
            PONG,
            KEEPS,
            FIFTH,
            Ends(""),
            Opens,
            PONG,
            KEEPS,
            EMPTY,
        ],
        &[
            Read(None),
            Read(Some((5, 0))),
            Pass(100),
            Read(Some((5, 0))),
        ],
        "connects\n*1~$4~PING~\n*1~$4~INFO~\n\
         *6~$6~XRANGE~$1~k~$1~-~$1~+~$5~COUNT~$3~256~\npasses over 5-0\n= 5-0 a\n\
         *6~$6~XRANGE~$1~k~$3~5-0~$1~+~$5~COUNT~$3~257~\n= Unavailable\n100 ms\n\
         connects\n*1~$4~PING~\n*1~$4~INFO~\n\
         *6~$6~XRANGE~$1~k~$3~5-0~$1~+~$5~COUNT~$3~257~\nlost\n= Lost\n",
    ),
];

/// Tries: lw_redis_log::RedisLog::new
#[test]
fn what_was_read_is_looked_for(rt: HostRuntime) {
    play_all(&rt, rt.alloc(), &READ_BEFORE);
}

/// What was appended has to be in what is read from before it to the end, with its bytes.
static OWN: [Story<'static>; 7] = [
    (
        &[Opens, PONG, KEEPS, AT_5, FIFTH, FIFTH],
        &[Append("a"), Read(None), Read(Some((5, 0)))],
        "connects\n*1~$4~PING~\n*1~$4~INFO~\n\
         *6~$4~XADD~$1~k~$10~NOMKSTREAM~$1~*~$1~e~$1~a~\n= 5-0\n\
         *6~$6~XRANGE~$1~k~$1~-~$1~+~$5~COUNT~$3~256~\npasses over 5-0\n= 5-0 a\n\
         *6~$6~XRANGE~$1~k~$3~5-0~$1~+~$5~COUNT~$3~257~\n=\n",
    ),
    (
        &[Opens, PONG, KEEPS, AT_5, EMPTY],
        &[Append("a"), Read(None)],
        "connects\n*1~$4~PING~\n*1~$4~INFO~\n\
         *6~$4~XADD~$1~k~$10~NOMKSTREAM~$1~*~$1~e~$1~a~\n= 5-0\n\
         *6~$6~XRANGE~$1~k~$1~-~$1~+~$5~COUNT~$3~256~\nlost\n= Lost\n",
    ),
    (
        &[Opens, PONG, KEEPS, AT_5, SIXTH],
        &[Append("a"), Read(None)],
        "connects\n*1~$4~PING~\n*1~$4~INFO~\n\
         *6~$4~XADD~$1~k~$10~NOMKSTREAM~$1~*~$1~e~$1~a~\n= 5-0\n\
         *6~$6~XRANGE~$1~k~$1~-~$1~+~$5~COUNT~$3~256~\nlost\n= Lost\n",
    ),
    (
        &[Opens, PONG, KEEPS, AT_5, OTHER],
        &[Append("a"), Read(None)],
        "connects\n*1~$4~PING~\n*1~$4~INFO~\n\
         *6~$4~XADD~$1~k~$10~NOMKSTREAM~$1~*~$1~e~$1~a~\n= 5-0\n\
         *6~$6~XRANGE~$1~k~$1~-~$1~+~$5~COUNT~$3~256~\nlost\n= Lost\n",
    ),
    (
        &[Opens, PONG, KEEPS, AT_5, EMPTY],
        &[Append("a"), Read(Some((5, 0)))],
        "connects\n*1~$4~PING~\n*1~$4~INFO~\n\
         *6~$4~XADD~$1~k~$10~NOMKSTREAM~$1~*~$1~e~$1~a~\n= 5-0\n\
         *6~$6~XRANGE~$1~k~$4~(5-0~$1~+~$5~COUNT~$3~256~\nlost\n= Lost\n",
    ),
    (
        &[Opens, PONG, KEEPS, FIFTH, AT_6, BOTH, SIXTH],
        &[
            Read(None),
            Append("b"),
            Read(Some((5, 0))),
            Read(Some((6, 0))),
        ],
        "connects\n*1~$4~PING~\n*1~$4~INFO~\n\
         *6~$6~XRANGE~$1~k~$1~-~$1~+~$5~COUNT~$3~256~\npasses over 5-0\n= 5-0 a\n\
         *6~$4~XADD~$1~k~$10~NOMKSTREAM~$1~*~$1~e~$1~b~\n= 6-0\n\
         *6~$6~XRANGE~$1~k~$3~5-0~$1~+~$5~COUNT~$3~257~\npasses over 6-0\n= 6-0 b\n\
         *6~$6~XRANGE~$1~k~$3~6-0~$1~+~$5~COUNT~$3~257~\n=\n",
    ),
    (
        &[Opens, PONG, KEEPS, FIFTH, AT_6, FIFTH, FIFTH],
        &[Read(None), Append("b"), Read(Some((5, 0))), Read(None)],
        "connects\n*1~$4~PING~\n*1~$4~INFO~\n\
         *6~$6~XRANGE~$1~k~$1~-~$1~+~$5~COUNT~$3~256~\npasses over 5-0\n= 5-0 a\n\
         *6~$4~XADD~$1~k~$10~NOMKSTREAM~$1~*~$1~e~$1~b~\n= 6-0\n\
         *6~$6~XRANGE~$1~k~$3~5-0~$1~+~$5~COUNT~$3~257~\nlost\n= Lost\n\
         *6~$6~XRANGE~$1~k~$1~-~$1~+~$5~COUNT~$3~256~\npasses over 5-0\n= 5-0 a\n",
    ),
];

/// Tries: lw_redis_log::RedisLog::new
#[test]
fn what_was_appended_has_to_come(rt: HostRuntime) {
    play_all(&rt, rt.alloc(), &OWN);
}

/// What is appended stands above all that was seen.
static RISING: [Story<'static>; 5] = [
    (
        &[Opens, PONG, KEEPS, FIFTH, AT_5, AT_4],
        &[Read(None), Append("b"), Append("b")],
        "connects\n*1~$4~PING~\n*1~$4~INFO~\n\
         *6~$6~XRANGE~$1~k~$1~-~$1~+~$5~COUNT~$3~256~\npasses over 5-0\n= 5-0 a\n\
         *6~$4~XADD~$1~k~$10~NOMKSTREAM~$1~*~$1~e~$1~b~\nlost\n= Lost\n\
         *6~$4~XADD~$1~k~$10~NOMKSTREAM~$1~*~$1~e~$1~b~\n= 4-9\n",
    ),
    (
        &[Opens, PONG, KEEPS, FIFTH, AT_4],
        &[Read(None), Append("b")],
        "connects\n*1~$4~PING~\n*1~$4~INFO~\n\
         *6~$6~XRANGE~$1~k~$1~-~$1~+~$5~COUNT~$3~256~\npasses over 5-0\n= 5-0 a\n\
         *6~$4~XADD~$1~k~$10~NOMKSTREAM~$1~*~$1~e~$1~b~\nlost\n= Lost\n",
    ),
    (
        &[Opens, PONG, KEEPS, AT_5, AT_5],
        &[Append("a"), Append("b")],
        "connects\n*1~$4~PING~\n*1~$4~INFO~\n\
         *6~$4~XADD~$1~k~$10~NOMKSTREAM~$1~*~$1~e~$1~a~\n= 5-0\n\
         *6~$4~XADD~$1~k~$10~NOMKSTREAM~$1~*~$1~e~$1~b~\nlost\n= Lost\n",
    ),
    (
        &[Opens, PONG, KEEPS, AT_5, AT_6, BOTH],
        &[Append("a"), Append("b"), Read(None)],
        "connects\n*1~$4~PING~\n*1~$4~INFO~\n\
         *6~$4~XADD~$1~k~$10~NOMKSTREAM~$1~*~$1~e~$1~a~\n= 5-0\n\
         *6~$4~XADD~$1~k~$10~NOMKSTREAM~$1~*~$1~e~$1~b~\n= 6-0\n\
         *6~$6~XRANGE~$1~k~$1~-~$1~+~$5~COUNT~$3~256~\npasses over 5-0\npasses over 6-0\n= 5-0 a 6-0 b\n",
    ),
    (
        &[Opens, PONG, KEEPS, AT_5, Says("$-1\r\n"), EMPTY],
        &[Append("a"), Append("b"), Read(None)],
        "connects\n*1~$4~PING~\n*1~$4~INFO~\n\
         *6~$4~XADD~$1~k~$10~NOMKSTREAM~$1~*~$1~e~$1~a~\n= 5-0\n\
         *6~$4~XADD~$1~k~$10~NOMKSTREAM~$1~*~$1~e~$1~b~\nlost\n= Lost\n\
         *6~$6~XRANGE~$1~k~$1~-~$1~+~$5~COUNT~$3~256~\n=\n",
    ),
];

/// Tries: lw_redis_log::RedisLog::new
#[test]
fn identifiers_have_to_rise(rt: HostRuntime) {
    play_all(&rt, rt.alloc(), &RISING);
}

/// The entry 5-0 of 49,153 bytes, one more than three readings may have on the mean.
const LARGE: Answer = SaysLarge(
    "*1\r\n*2\r\n$3\r\n5-0\r\n*2\r\n$1\r\ne\r\n$49153\r\n",
    49_153,
    "\r\n",
);

/// A large entry is looked for in each fourth reading, and in the first over a connection.
static LARGE_LAST: [Story<'static>; 2] = [
    (
        &[
            Opens,
            PONG,
            KEEPS,
            LARGE,
            EMPTY,
            EMPTY,
            LARGE,
            EMPTY,
            Ends(""),
            Opens,
            PONG,
            KEEPS,
            LARGE,
        ],
        &[
            Read(None),
            Read(Some((5, 0))),
            Read(Some((5, 0))),
            Read(Some((5, 0))),
            Read(Some((5, 0))),
            Read(Some((5, 0))),
            Pass(100),
            Read(Some((5, 0))),
        ],
        "connects\n*1~$4~PING~\n*1~$4~INFO~\n\
         *6~$6~XRANGE~$1~k~$1~-~$1~+~$5~COUNT~$3~256~\npasses over 5-0\n= 5-0 (49153)\n\
         *6~$6~XRANGE~$1~k~$4~(5-0~$1~+~$5~COUNT~$3~256~\n=\n\
         *6~$6~XRANGE~$1~k~$4~(5-0~$1~+~$5~COUNT~$3~256~\n=\n\
         *6~$6~XRANGE~$1~k~$3~5-0~$1~+~$5~COUNT~$3~257~\n=\n\
         *6~$6~XRANGE~$1~k~$4~(5-0~$1~+~$5~COUNT~$3~256~\n=\n\
         *6~$6~XRANGE~$1~k~$4~(5-0~$1~+~$5~COUNT~$3~256~\n= Unavailable\n100 ms\n\
         connects\n*1~$4~PING~\n*1~$4~INFO~\n\
         *6~$6~XRANGE~$1~k~$3~5-0~$1~+~$5~COUNT~$3~257~\n=\n",
    ),
    (
        &[Opens, PONG, KEEPS, LARGE, EMPTY, EMPTY, EMPTY],
        &[
            Read(None),
            Read(Some((5, 0))),
            Read(Some((5, 0))),
            Read(Some((5, 0))),
        ],
        "connects\n*1~$4~PING~\n*1~$4~INFO~\n\
         *6~$6~XRANGE~$1~k~$1~-~$1~+~$5~COUNT~$3~256~\npasses over 5-0\n= 5-0 (49153)\n\
         *6~$6~XRANGE~$1~k~$4~(5-0~$1~+~$5~COUNT~$3~256~\n=\n\
         *6~$6~XRANGE~$1~k~$4~(5-0~$1~+~$5~COUNT~$3~256~\n=\n\
         *6~$6~XRANGE~$1~k~$3~5-0~$1~+~$5~COUNT~$3~257~\nlost\n= Lost\n",
    ),
];

/// Tries: lw_redis_log::RedisLog::new
#[test]
fn a_large_entry_is_not_read_each_time(rt: HostRuntime) {
    play_all(&rt, rt.alloc(), &LARGE_LAST);
}
