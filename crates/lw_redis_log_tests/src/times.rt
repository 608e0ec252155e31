use crate::hold::shown;
use crate::stage::Act::{Append, Connect, Pass, Read};
use crate::stage::Answer::{Ends, Opens, Says, SaysAfter};
use crate::stage::{Answer, Story, play_timed};
use lw_redis_log::{
    LONGEST_EXCHANGE, RedisClock, RedisFault, TIME_BETWEEN, is_noted, moment_by, offset_of,
    time_told,
};

/// The bytes of a reply to `TIME`, and what time they tell. The first is the example of Redis's page on the command.
static TIMES: [(&str, Option<u64>); 19] = [
    (
        "*2\r\n$10\r\n1405067822\r\n$6\r\n251583\r\n",
        Some(1_405_067_822_251),
    ),
    ("*2\r\n$1\r\n0\r\n$1\r\n0\r\n", Some(0)),
    ("*2\r\n$1\r\n1\r\n$3\r\n999\r\n", Some(1_000)),
    ("*2\r\n$1\r\n1\r\n$4\r\n1000\r\n", Some(1_001)),
    ("*2\r\n$1\r\n1\r\n$6\r\n999999\r\n", Some(1_999)),
    (
        "*2\r\n$17\r\n18446744073709551\r\n$6\r\n615999\r\n",
        Some(u64::MAX),
    ),
    ("*2\r\n$17\r\n18446744073709551\r\n$6\r\n616000\r\n", None),
    ("*2\r\n$20\r\n18446744073709551616\r\n$1\r\n0\r\n", None),
    ("*2\r\n$1\r\n1\r\n$7\r\n1000000\r\n", None),
    ("*2\r\n$2\r\n01\r\n$1\r\n0\r\n", None),
    ("*2\r\n$2\r\n+1\r\n$1\r\n0\r\n", None),
    ("*2\r\n$1\r\n1\r\n$0\r\n\r\n", None),
    ("*2\r\n:1\r\n:0\r\n", None),
    ("*1\r\n$1\r\n1\r\n", None),
    ("*3\r\n$1\r\n1\r\n$1\r\n0\r\n$1\r\n0\r\n", None),
    ("*2\r\n$1\r\n1\r\n$1\r\n0\r\n+OK\r\n", None),
    ("*2\r\n$1\r\n1\r\n$1\r\n0\r", None),
    ("$10\r\n1405067822\r\n", None),
    ("", None),
];

/// Tries: lw_redis_log::time_told
#[test]
fn times_are_told(rt: HostRuntime) {
    for (bytes, want) in &TIMES {
        let want = match want {
            Some(told) => Ok(*told),
            None => Err(RedisFault::Unavailable),
        };
        assert!(rt; time_told(bytes.as_bytes()) == want, "{bytes}");
    }
}

/// Errors in place of a time, and the text of those that are refusals.
static ERRORS: [(&str, Option<&str>); 4] = [
    ("-LOADING Redis is loading the dataset in memory\r\n", None),
    (
        "-NOPERM this user has no permissions to run the 'time' command\r\n",
        Some("NOPERM this user has no permissions to run the 'time' command"),
    ),
    ("-ERR unknown command 'TIME'\r\n+OK\r\n", None),
    ("-ERR unknown command 'TIME'\r", None),
];

/// Tries: lw_redis_log::time_told
#[test]
fn times_are_refused(rt: HostRuntime) {
    for (bytes, want) in &ERRORS {
        match time_told(bytes.as_bytes()) {
            Err(RedisFault::Refused(text)) => {
                let text = shown(rt.alloc(), text).expect(&rt, "memory");
                assert!(rt; *want == Some(text.as_str()), "{bytes}");
            }
            other => assert!(rt;
                other == Err(RedisFault::Unavailable) && want.is_none(),
                "{bytes}"
            ),
        }
    }
}

/// What was told, how long that took, where the stopwatch is then, and what time it was where that began.
static OFFSETS: [(u64, u64, u64, u64); 5] = [
    (1_405_067_822_251, 0, 0, 1_405_067_822_251),
    (1_405_067_822_251, 9, 251, 1_405_067_822_004),
    (5, 0, 5, 0),
    (5, 0, 6, 0),
    (u64::MAX, u64::MAX, 1, u64::MAX - 1),
];

/// Offsets, where the stopwatch is, and what time it is.
static MOMENTS: [(u64, u64, Option<u64>); 4] = [
    (1_405_067_822_000, 251, Some(1_405_067_822_251)),
    (0, 251, None),
    (u64::MAX, 0, Some(u64::MAX)),
    (u64::MAX, 1, None),
];

/// Tries: lw_redis_log::offset_of, lw_redis_log::moment_by, lw_redis_log::is_noted
#[test]
fn a_time_goes_on(rt: HostRuntime) {
    for (told, took, now, want) in &OFFSETS {
        assert_eq!(rt; offset_of(*told, *took, *now), *want, "{told} {took} {now}");
    }
    for (offset, now, want) in &MOMENTS {
        assert!(rt; moment_by(*offset, *now) == *want, "{offset} {now}");
    }
    assert_eq!(rt; LONGEST_EXCHANGE, 1_000);
    assert!(rt; is_noted(true, 1_000));
    assert!(rt; !is_noted(true, 1_001));
    assert!(rt; is_noted(false, 1_001));
}

/// Whether the clock is at the moment, or up to a minute past it.
fn is_about<R: std::time::Clock>(clock: &RedisClock<'_, R>, moment: u64) -> bool {
    match clock.milliseconds() {
        Some(now) => moment <= now && now - moment < 60_000,
        None => false,
    }
}

/// Tries: lw_redis_log::RedisClock::new, lw_redis_log::RedisClock::note, lw_redis_log::RedisClock::milliseconds
#[test]
fn a_clock_is_what_was_told_last(rt: HostRuntime) {
    let clock = RedisClock::new(&rt);
    assert!(rt; clock.milliseconds().is_none());
    // One that took long is better than none.
    clock.note(1_405_067_000_000, 2_000);
    assert!(rt; is_about(&clock, 1_405_067_001_000));
    clock.note(1_405_067_822_251, 1_000);
    assert!(rt; is_about(&clock, 1_405_067_822_751));
    // A clock may be set back.
    clock.note(1_405_000_000_000, 0);
    assert!(rt; is_about(&clock, 1_405_000_000_000));
    clock.note(1_405_067_822_251, 1_001);
    assert!(rt; is_about(&clock, 1_405_000_000_000));
}

const PONG: Answer = Says("+PONG\r\n");

/// What a Redis that keeps a file tells, as much of it as counts.
const KEEPS: Answer = Says("$30\r\n# Persistence\r\naof_enabled:1\r\n\r\n");

const EMPTY: Answer = Says("*0\r\n");

/// The time of the example, and the same 9 milliseconds after the question.
const TIME: &str = "*2\r\n$10\r\n1405067822\r\n$6\r\n251583\r\n";

const AT_ONCE: Answer = Says(TIME);

const LATER: Answer = SaysAfter(9, TIME);

/// An access list without `+time`.
const NO_RIGHT: Answer = Says("-NOPERM this user has no permissions to run the 'time' command\r\n");

/// It is asked for at each connection, and then with a reading every 10 seconds.
static ASKED: [Story<'static>; 3] = [
    (
        &[Opens, PONG, KEEPS, LATER, EMPTY],
        &[Connect, Connect, Read(None)],
        "connects\n*1~$4~PING~\n*1~$4~INFO~\n*1~$4~TIME~\ntime 1405067822251 in 9 ms\n\
         = connected\n= connected\n\
         *6~$6~XRANGE~$1~k~$1~-~$1~+~$5~COUNT~$3~256~\n=\n",
    ),
    (
        &[
            Opens, PONG, KEEPS, AT_ONCE, EMPTY, EMPTY, EMPTY, LATER, EMPTY, EMPTY, AT_ONCE,
        ],
        &[
            Read(None),
            Pass(9_999),
            Read(None),
            Pass(1),
            Read(None),
            Pass(9_990),
            Read(None),
            Pass(1),
            Read(None),
        ],
        "connects\n*1~$4~PING~\n*1~$4~INFO~\n*1~$4~TIME~\ntime 1405067822251 in 0 ms\n\
         *6~$6~XRANGE~$1~k~$1~-~$1~+~$5~COUNT~$3~256~\n=\n9999 ms\n\
         *6~$6~XRANGE~$1~k~$1~-~$1~+~$5~COUNT~$3~256~\n=\n1 ms\n\
         *6~$6~XRANGE~$1~k~$1~-~$1~+~$5~COUNT~$3~256~\n\
         *1~$4~TIME~\ntime 1405067822251 in 9 ms\n=\n9990 ms\n\
         *6~$6~XRANGE~$1~k~$1~-~$1~+~$5~COUNT~$3~256~\n=\n1 ms\n\
         *6~$6~XRANGE~$1~k~$1~-~$1~+~$5~COUNT~$3~256~\n\
         *1~$4~TIME~\ntime 1405067822251 in 0 ms\n=\n",
    ),
    // What was read is given where the time does not come, and the connection is made again.
    (
        &[
            Opens,
            PONG,
            KEEPS,
            AT_ONCE,
            EMPTY,
            EMPTY,
            Ends("*2\r\n$10\r\n"),
            Opens,
            PONG,
            KEEPS,
            AT_ONCE,
            EMPTY,
        ],
        &[
            Read(None),
            Pass(10_000),
            Read(None),
            Read(None),
            Pass(100),
            Read(None),
        ],
        "connects\n*1~$4~PING~\n*1~$4~INFO~\n*1~$4~TIME~\ntime 1405067822251 in 0 ms\n\
         *6~$6~XRANGE~$1~k~$1~-~$1~+~$5~COUNT~$3~256~\n=\n10000 ms\n\
         *6~$6~XRANGE~$1~k~$1~-~$1~+~$5~COUNT~$3~256~\n*1~$4~TIME~\n=\n= Unavailable\n100 ms\n\
         connects\n*1~$4~PING~\n*1~$4~INFO~\n*1~$4~TIME~\ntime 1405067822251 in 0 ms\n\
         *6~$6~XRANGE~$1~k~$1~-~$1~+~$5~COUNT~$3~256~\n=\n",
    ),
];

/// Tries: lw_redis_log::RedisLog::connect
#[test]
fn the_time_is_asked_for(rt: HostRuntime) {
    assert_eq!(rt; TIME_BETWEEN, 10_000);
    play_timed(&rt, rt.alloc(), &ASKED);
}

/// One that refuses is used. It is told once, and asked again at the next connection alone. An error that passes, and
/// what tells no time, closes the connection.
static REFUSED: [Story<'static>; 3] = [
    (
        &[
            Opens,
            PONG,
            KEEPS,
            NO_RIGHT,
            EMPTY,
            EMPTY,
            Ends(""),
            Opens,
            PONG,
            KEEPS,
            NO_RIGHT,
            EMPTY,
        ],
        &[
            Read(None),
            Pass(20_000),
            Read(None),
            Append("a"),
            Pass(100),
            Read(None),
        ],
        "connects\n*1~$4~PING~\n*1~$4~INFO~\n*1~$4~TIME~\ntells no time\n\
         *6~$6~XRANGE~$1~k~$1~-~$1~+~$5~COUNT~$3~256~\n=\n20000 ms\n\
         *6~$6~XRANGE~$1~k~$1~-~$1~+~$5~COUNT~$3~256~\n=\n\
         *5~$4~XADD~$1~k~$1~*~$1~e~$1~a~\n= Unavailable\n100 ms\n\
         connects\n*1~$4~PING~\n*1~$4~INFO~\n*1~$4~TIME~\n\
         *6~$6~XRANGE~$1~k~$1~-~$1~+~$5~COUNT~$3~256~\n=\n",
    ),
    (
        &[Opens, PONG, KEEPS, Says("-LOADING data\r\n")],
        &[Connect, Connect],
        "connects\n*1~$4~PING~\n*1~$4~INFO~\n*1~$4~TIME~\n= Unavailable\n= Unavailable\n",
    ),
    (
        &[Opens, PONG, KEEPS, Says("+OK\r\n")],
        &[Connect, Connect],
        "connects\n*1~$4~PING~\n*1~$4~INFO~\n*1~$4~TIME~\n= Unavailable\n= Unavailable\n",
    ),
];

/// Tries: lw_redis_log::RedisLog::connect
#[test]
fn a_time_may_be_refused(rt: HostRuntime) {
    play_timed(&rt, rt.alloc(), &REFUSED);
}
