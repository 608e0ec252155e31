use crate::stage::Act::{Append, Pass, Read, Trim};
use crate::stage::Answer::{Ends, Opens, Says, SaysLarge};
use crate::stage::{Answer, Story, play_all};
use lw_redis_log::TRIM_DELAY;

const PONG: Answer = Says("+PONG\r\n");

/// What a Redis that keeps a file tells, as much of it as counts.
const KEEPS: Answer = Says("$30\r\n# Persistence\r\naof_enabled:1\r\n\r\n");

const EMPTY: Answer = Says("*0\r\n");

/// The entry 5-0 is there, `a`.
const FIFTH: Answer = Says("*1\r\n*2\r\n$3\r\n5-0\r\n*2\r\n$1\r\ne\r\n$1\r\na\r\n");

/// The same, and behind it 6-0, `b`.
const BOTH: Answer = Says(
    "*2\r\n*2\r\n$3\r\n5-0\r\n*2\r\n$1\r\ne\r\n$1\r\na\r\n*2\r\n$3\r\n6-0\r\n*2\r\n$1\r\ne\r\n$1\r\nb\r\n",
);

/// The entry 6-0 alone, `b`.
const SIXTH: Answer = Says("*1\r\n*2\r\n$3\r\n6-0\r\n*2\r\n$1\r\ne\r\n$1\r\nb\r\n");

/// The entry 6-0 was appended.
const AT_6: Answer = Says("$3\r\n6-0\r\n");

/// The entry 4-9 was appended.
const AT_4: Answer = Says("$3\r\n4-9\r\n");

/// The entry 5-0 of 49,153 bytes, one more than three readings may have on the mean.
const LARGE: Answer = SaysLarge(
    "*1\r\n*2\r\n$3\r\n5-0\r\n*2\r\n$1\r\ne\r\n$49153\r\n",
    49_153,
    "\r\n",
);

/// One entry has gone.
const GONE: Answer = Says(":1\r\n");

/// What is to go goes 30 seconds later, with a reading that finds the entry that was read last. Of several the first
/// waits no longer for those behind it, and the last waits its whole time.
static LATER: [Story<'static>; 3] = [
    (
        &[Opens, PONG, KEEPS, FIFTH, FIFTH, FIFTH, GONE, FIFTH],
        &[
            Read(None),
            Trim(4, 9),
            Pass(29_999),
            Read(Some((5, 0))),
            Pass(1),
            Read(Some((5, 0))),
            Read(Some((5, 0))),
        ],
        "connects\n*1~$4~PING~\n*1~$4~INFO~\n\
         *6~$6~XRANGE~$1~k~$1~-~$1~+~$5~COUNT~$3~256~\npasses over 5-0\n= 5-0 a\n\
         = trimmed\n29999 ms\n\
         *6~$6~XRANGE~$1~k~$3~5-0~$1~+~$5~COUNT~$3~257~\n=\n\
         1 ms\n\
         *6~$6~XRANGE~$1~k~$3~5-0~$1~+~$5~COUNT~$3~257~\n\
         *5~$5~XTRIM~$1~k~$5~MINID~$1~=~$4~4-10~\n=\n\
         *6~$6~XRANGE~$1~k~$3~5-0~$1~+~$5~COUNT~$3~257~\n=\n",
    ),
    (
        &[
            Opens, PONG, KEEPS, FIFTH, FIFTH, GONE, FIFTH, FIFTH, GONE, FIFTH,
        ],
        &[
            Read(None),
            Trim(4, 1),
            Pass(10_000),
            Trim(4, 5),
            Pass(5_000),
            Trim(4, 8),
            Pass(15_000),
            Read(Some((5, 0))),
            Pass(14_999),
            Read(Some((5, 0))),
            Pass(1),
            Read(Some((5, 0))),
            Read(Some((5, 0))),
        ],
        "connects\n*1~$4~PING~\n*1~$4~INFO~\n\
         *6~$6~XRANGE~$1~k~$1~-~$1~+~$5~COUNT~$3~256~\npasses over 5-0\n= 5-0 a\n\
         = trimmed\n10000 ms\n= trimmed\n5000 ms\n= trimmed\n15000 ms\n\
         *6~$6~XRANGE~$1~k~$3~5-0~$1~+~$5~COUNT~$3~257~\n\
         *5~$5~XTRIM~$1~k~$5~MINID~$1~=~$3~4-2~\n=\n\
         14999 ms\n\
         *6~$6~XRANGE~$1~k~$3~5-0~$1~+~$5~COUNT~$3~257~\n=\n\
         1 ms\n\
         *6~$6~XRANGE~$1~k~$3~5-0~$1~+~$5~COUNT~$3~257~\n\
         *5~$5~XTRIM~$1~k~$5~MINID~$1~=~$3~4-9~\n=\n\
         *6~$6~XRANGE~$1~k~$3~5-0~$1~+~$5~COUNT~$3~257~\n=\n",
    ),
    (
        &[Opens, PONG, KEEPS, FIFTH, AT_6, BOTH, BOTH, SIXTH, GONE],
        &[
            Read(None),
            Trim(5, 0),
            Pass(30_000),
            Append("b"),
            Read(None),
            Read(Some((4, 0))),
            Read(Some((6, 0))),
        ],
        "connects\n*1~$4~PING~\n*1~$4~INFO~\n\
         *6~$6~XRANGE~$1~k~$1~-~$1~+~$5~COUNT~$3~256~\npasses over 5-0\n= 5-0 a\n\
         = trimmed\n30000 ms\n\
         *6~$4~XADD~$1~k~$10~NOMKSTREAM~$1~*~$1~e~$1~b~\n= 6-0\n\
         *6~$6~XRANGE~$1~k~$1~-~$1~+~$5~COUNT~$3~256~\npasses over 5-0\npasses over 6-0\n= 5-0 a 6-0 b\n\
         *6~$6~XRANGE~$1~k~$4~(4-0~$1~+~$5~COUNT~$3~256~\npasses over 5-0\npasses over 6-0\n= 5-0 a 6-0 b\n\
         *6~$6~XRANGE~$1~k~$3~6-0~$1~+~$5~COUNT~$3~257~\n\
         *5~$5~XTRIM~$1~k~$5~MINID~$1~=~$3~5-1~\n=\n",
    ),
];

/// Tries: lw_redis_log::RedisLog::new
#[test]
fn what_is_to_go_goes_later(rt: HostRuntime) {
    assert_eq!(rt; TRIM_DELAY, 30_000);
    play_all(&rt, rt.alloc(), &LATER);
}

/// Where the server does not do it, it is asked again 30 seconds later, and what was read is given nevertheless.
static AGAIN: [Story<'static>; 2] = [
    (
        &[
            Opens,
            PONG,
            KEEPS,
            FIFTH,
            FIFTH,
            Says("-NOPERM no permissions\r\n"),
            FIFTH,
            FIFTH,
            GONE,
        ],
        &[
            Read(None),
            Trim(4, 9),
            Pass(30_000),
            Read(Some((5, 0))),
            Pass(29_999),
            Read(Some((5, 0))),
            Pass(1),
            Read(Some((5, 0))),
        ],
        "connects\n*1~$4~PING~\n*1~$4~INFO~\n\
         *6~$6~XRANGE~$1~k~$1~-~$1~+~$5~COUNT~$3~256~\npasses over 5-0\n= 5-0 a\n\
         = trimmed\n30000 ms\n\
         *6~$6~XRANGE~$1~k~$3~5-0~$1~+~$5~COUNT~$3~257~\n\
         *5~$5~XTRIM~$1~k~$5~MINID~$1~=~$4~4-10~\nNOPERM no permissions\n=\n\
         29999 ms\n\
         *6~$6~XRANGE~$1~k~$3~5-0~$1~+~$5~COUNT~$3~257~\n=\n\
         1 ms\n\
         *6~$6~XRANGE~$1~k~$3~5-0~$1~+~$5~COUNT~$3~257~\n\
         *5~$5~XTRIM~$1~k~$5~MINID~$1~=~$4~4-10~\n=\n",
    ),
    (
        &[
            Opens,
            PONG,
            KEEPS,
            FIFTH,
            BOTH,
            Ends(""),
            Opens,
            PONG,
            KEEPS,
            SIXTH,
            SIXTH,
            GONE,
        ],
        &[
            Read(None),
            Trim(4, 9),
            Pass(30_000),
            Read(Some((5, 0))),
            Read(Some((6, 0))),
            Pass(100),
            Read(Some((6, 0))),
            Pass(29_900),
            Read(Some((6, 0))),
        ],
        "connects\n*1~$4~PING~\n*1~$4~INFO~\n\
         *6~$6~XRANGE~$1~k~$1~-~$1~+~$5~COUNT~$3~256~\npasses over 5-0\n= 5-0 a\n\
         = trimmed\n30000 ms\n\
         *6~$6~XRANGE~$1~k~$3~5-0~$1~+~$5~COUNT~$3~257~\n\
         passes over 6-0\n*5~$5~XTRIM~$1~k~$5~MINID~$1~=~$4~4-10~\n= 6-0 b\n\
         = Unavailable\n100 ms\n\
         connects\n*1~$4~PING~\n*1~$4~INFO~\n\
         *6~$6~XRANGE~$1~k~$3~6-0~$1~+~$5~COUNT~$3~257~\n=\n\
         29900 ms\n\
         *6~$6~XRANGE~$1~k~$3~6-0~$1~+~$5~COUNT~$3~257~\n\
         *5~$5~XTRIM~$1~k~$5~MINID~$1~=~$4~4-10~\n=\n",
    ),
];

/// Tries: lw_redis_log::RedisLog::new
#[test]
fn a_trim_is_tried_again(rt: HostRuntime) {
    play_all(&rt, rt.alloc(), &AGAIN);
}

/// What was to go is forgotten with a loss. What has gone is not looked for, and a large entry is looked for before.
static SEEN: [Story<'static>; 4] = [
    (
        &[Opens, PONG, KEEPS, FIFTH, EMPTY, FIFTH, FIFTH],
        &[
            Read(None),
            Trim(4, 9),
            Pass(30_000),
            Read(Some((5, 0))),
            Read(None),
            Read(Some((5, 0))),
        ],
        "connects\n*1~$4~PING~\n*1~$4~INFO~\n\
         *6~$6~XRANGE~$1~k~$1~-~$1~+~$5~COUNT~$3~256~\npasses over 5-0\n= 5-0 a\n\
         = trimmed\n30000 ms\n\
         *6~$6~XRANGE~$1~k~$3~5-0~$1~+~$5~COUNT~$3~257~\nlost\n= Lost\n\
         *6~$6~XRANGE~$1~k~$1~-~$1~+~$5~COUNT~$3~256~\npasses over 5-0\n= 5-0 a\n\
         *6~$6~XRANGE~$1~k~$3~5-0~$1~+~$5~COUNT~$3~257~\n=\n",
    ),
    (
        &[Opens, PONG, KEEPS, FIFTH, AT_4, FIFTH, FIFTH],
        &[
            Read(None),
            Trim(4, 9),
            Append("b"),
            Pass(30_000),
            Read(None),
            Read(Some((5, 0))),
        ],
        "connects\n*1~$4~PING~\n*1~$4~INFO~\n\
         *6~$6~XRANGE~$1~k~$1~-~$1~+~$5~COUNT~$3~256~\npasses over 5-0\n= 5-0 a\n\
         = trimmed\n\
         *6~$4~XADD~$1~k~$10~NOMKSTREAM~$1~*~$1~e~$1~b~\nlost\n= Lost\n30000 ms\n\
         *6~$6~XRANGE~$1~k~$1~-~$1~+~$5~COUNT~$3~256~\npasses over 5-0\n= 5-0 a\n\
         *6~$6~XRANGE~$1~k~$3~5-0~$1~+~$5~COUNT~$3~257~\n=\n",
    ),
    (
        &[Opens, PONG, KEEPS, FIFTH, FIFTH, GONE, EMPTY],
        &[
            Read(None),
            Trim(5, 0),
            Pass(30_000),
            Read(Some((5, 0))),
            Read(Some((5, 0))),
        ],
        "connects\n*1~$4~PING~\n*1~$4~INFO~\n\
         *6~$6~XRANGE~$1~k~$1~-~$1~+~$5~COUNT~$3~256~\npasses over 5-0\n= 5-0 a\n\
         = trimmed\n30000 ms\n\
         *6~$6~XRANGE~$1~k~$3~5-0~$1~+~$5~COUNT~$3~257~\n\
         *5~$5~XTRIM~$1~k~$5~MINID~$1~=~$3~5-1~\n=\n\
         *6~$6~XRANGE~$1~k~$4~(5-0~$1~+~$5~COUNT~$3~256~\n=\n",
    ),
    (
        &[Opens, PONG, KEEPS, LARGE, EMPTY, LARGE, GONE],
        &[
            Read(None),
            Trim(4, 9),
            Read(Some((5, 0))),
            Pass(30_000),
            Read(Some((5, 0))),
        ],
        "connects\n*1~$4~PING~\n*1~$4~INFO~\n\
         *6~$6~XRANGE~$1~k~$1~-~$1~+~$5~COUNT~$3~256~\npasses over 5-0\n= 5-0 (49153)\n\
         = trimmed\n\
         *6~$6~XRANGE~$1~k~$4~(5-0~$1~+~$5~COUNT~$3~256~\n=\n30000 ms\n\
         *6~$6~XRANGE~$1~k~$3~5-0~$1~+~$5~COUNT~$3~257~\n\
         *5~$5~XTRIM~$1~k~$5~MINID~$1~=~$4~4-10~\n=\n",
    ),
];

/// Tries: lw_redis_log::RedisLog::new
#[test]
fn a_trim_is_of_what_was_seen(rt: HostRuntime) {
    play_all(&rt, rt.alloc(), &SEEN);
}
