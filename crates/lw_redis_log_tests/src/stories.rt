use crate::stage::Act::{Append, Pass, Read};
use crate::stage::Answer::{Ends, Fails, Opens, Says, SaysSlowly};
use crate::stage::{Act, Answer, Story, play, play_all};
use lw_redis_log::Login;

const PONG: Answer = Says("+PONG\r\n");

/// What a Redis that keeps a file tells, as much of it as counts.
const KEEPS: Answer = Says("$30\r\n# Persistence\r\naof_enabled:1\r\n\r\n");

const FORGETS: Answer = Says("$30\r\n# Persistence\r\naof_enabled:0\r\n\r\n");

/// The entry 5-0 was appended.
const FIRST: Answer = Says("$3\r\n5-0\r\n");

/// The entry 6-0 was appended.
const SECOND: Answer = Says("$3\r\n6-0\r\n");

const EMPTY: Answer = Says("*0\r\n");

/// The entry 5-0 is there.
const FOUND: Answer = Says("*1\r\n*2\r\n$3\r\n5-0\r\n*2\r\n$1\r\ne\r\n$1\r\na\r\n");

/// The first entry makes the stream where a reading of the whole has found none, or where the server has said so.
static MADE: [Story<'static>; 4] = [
    (
        &[Opens, PONG, KEEPS, EMPTY, FIRST, SECOND],
        &[Read(None), Append("a"), Append("b")],
        "connects\n*1~$4~PING~\n*1~$4~INFO~\n\
         *6~$6~XRANGE~$1~k~$1~-~$1~+~$5~COUNT~$3~256~\n=\n\
         *5~$4~XADD~$1~k~$1~*~$1~e~$1~a~\n= 5-0\n\
         *6~$4~XADD~$1~k~$10~NOMKSTREAM~$1~*~$1~e~$1~b~\n= 6-0\n",
    ),
    (
        &[Opens, PONG, KEEPS, FOUND, SECOND],
        &[Read(None), Append("b")],
        "connects\n*1~$4~PING~\n*1~$4~INFO~\n\
         *6~$6~XRANGE~$1~k~$1~-~$1~+~$5~COUNT~$3~256~\npasses over 5-0\n= 5-0 a\n\
         *6~$4~XADD~$1~k~$10~NOMKSTREAM~$1~*~$1~e~$1~b~\n= 6-0\n",
    ),
    (
        &[Opens, PONG, KEEPS, EMPTY, SECOND],
        &[Read(Some((5, 0))), Append("b")],
        "connects\n*1~$4~PING~\n*1~$4~INFO~\n\
         *6~$6~XRANGE~$1~k~$4~(5-0~$1~+~$5~COUNT~$3~256~\n=\n\
         *6~$4~XADD~$1~k~$10~NOMKSTREAM~$1~*~$1~e~$1~b~\n= 6-0\n",
    ),
    (
        &[Opens, PONG, KEEPS, Says("$-1\r\n"), FIRST, SECOND],
        &[Append("a"), Append("a"), Append("b")],
        "connects\n*1~$4~PING~\n*1~$4~INFO~\n\
         *6~$4~XADD~$1~k~$10~NOMKSTREAM~$1~*~$1~e~$1~a~\nlost\n= Lost\n\
         *5~$4~XADD~$1~k~$1~*~$1~e~$1~a~\n= 5-0\n\
         *6~$4~XADD~$1~k~$10~NOMKSTREAM~$1~*~$1~e~$1~b~\n= 6-0\n",
    ),
];

/// Tries: lw_redis_log::RedisLog::new
#[test]
fn a_stream_is_made(rt: HostRuntime) {
    play_all(&rt, rt.alloc(), &MADE);
}

/// An access list without `+xadd`.
const NO_RIGHT: Answer = Says("-NOPERM no permissions\r\n");

/// A refusal is told, and the connection stays. One with the same first word is told again a minute later, or once an
/// append was done, or over a new connection that was read from.
static REFUSED: [Story<'static>; 4] = [
    (
        &[Opens, PONG, KEEPS, NO_RIGHT, FIRST],
        &[Append("a"), Append("a")],
        "connects\n*1~$4~PING~\n*1~$4~INFO~\n\
         *6~$4~XADD~$1~k~$10~NOMKSTREAM~$1~*~$1~e~$1~a~\nNOPERM no permissions\n= Refused\n\
         *6~$4~XADD~$1~k~$10~NOMKSTREAM~$1~*~$1~e~$1~a~\n= 5-0\n",
    ),
    (
        &[
            Opens,
            PONG,
            KEEPS,
            NO_RIGHT,
            Says("-NOPERM other words\r\n"),
            EMPTY,
            NO_RIGHT,
            Says("-WRONGTYPE another type\r\n"),
            NO_RIGHT,
        ],
        &[
            Append("a"),
            Append("a"),
            Pass(59_999),
            Read(Some((5, 0))),
            Pass(1),
            Append("a"),
            Append("a"),
            Append("a"),
        ],
        "connects\n*1~$4~PING~\n*1~$4~INFO~\n\
         *6~$4~XADD~$1~k~$10~NOMKSTREAM~$1~*~$1~e~$1~a~\nNOPERM no permissions\n= Refused\n\
         *6~$4~XADD~$1~k~$10~NOMKSTREAM~$1~*~$1~e~$1~a~\n= Refused\n59999 ms\n\
         *6~$6~XRANGE~$1~k~$4~(5-0~$1~+~$5~COUNT~$3~256~\n=\n1 ms\n\
         *6~$4~XADD~$1~k~$10~NOMKSTREAM~$1~*~$1~e~$1~a~\nNOPERM no permissions\n= Refused\n\
         *6~$4~XADD~$1~k~$10~NOMKSTREAM~$1~*~$1~e~$1~a~\nWRONGTYPE another type\n= Refused\n\
         *6~$4~XADD~$1~k~$10~NOMKSTREAM~$1~*~$1~e~$1~a~\nNOPERM no permissions\n= Refused\n",
    ),
    (
        &[Opens, PONG, KEEPS, NO_RIGHT, FIRST, NO_RIGHT],
        &[Append("a"), Append("a"), Append("a")],
        "connects\n*1~$4~PING~\n*1~$4~INFO~\n\
         *6~$4~XADD~$1~k~$10~NOMKSTREAM~$1~*~$1~e~$1~a~\nNOPERM no permissions\n= Refused\n\
         *6~$4~XADD~$1~k~$10~NOMKSTREAM~$1~*~$1~e~$1~a~\n= 5-0\n\
         *6~$4~XADD~$1~k~$10~NOMKSTREAM~$1~*~$1~e~$1~a~\nNOPERM no permissions\n= Refused\n",
    ),
    (
        &[
            Opens,
            PONG,
            KEEPS,
            NO_RIGHT,
            Ends(""),
            Opens,
            PONG,
            KEEPS,
            EMPTY,
            NO_RIGHT,
        ],
        &[
            Append("a"),
            Append("a"),
            Pass(100),
            Read(Some((5, 0))),
            Append("a"),
        ],
        "connects\n*1~$4~PING~\n*1~$4~INFO~\n\
         *6~$4~XADD~$1~k~$10~NOMKSTREAM~$1~*~$1~e~$1~a~\nNOPERM no permissions\n= Refused\n\
         *6~$4~XADD~$1~k~$10~NOMKSTREAM~$1~*~$1~e~$1~a~\n= Unavailable\n100 ms\n\
         connects\n*1~$4~PING~\n*1~$4~INFO~\n\
         *6~$6~XRANGE~$1~k~$4~(5-0~$1~+~$5~COUNT~$3~256~\n=\n\
         *6~$4~XADD~$1~k~$10~NOMKSTREAM~$1~*~$1~e~$1~a~\nNOPERM no permissions\n= Refused\n",
    ),
];

/// Tries: lw_redis_log::RedisLog::new
#[test]
fn a_refusal_is_told(rt: HostRuntime) {
    play_all(&rt, rt.alloc(), &REFUSED);
}

/// Nothing is asked while the pause lasts.
const DROPPED: &str = "connects\n*1~$4~PING~\n*1~$4~INFO~\n\
     *6~$4~XADD~$1~k~$10~NOMKSTREAM~$1~*~$1~e~$1~a~\n= Unavailable\n= Unavailable\n99 ms\n= Unavailable\n1 ms\n\
     connects\n*1~$4~PING~\n*1~$4~INFO~\n*6~$4~XADD~$1~k~$10~NOMKSTREAM~$1~*~$1~e~$1~a~\n= 5-0\n";

/// An append until it is done, and with it what is done while a pause of 100 ms lasts.
const APPENDED_AGAIN: &[Act] = &[
    Append("a"),
    Append("a"),
    Pass(99),
    Append("a"),
    Pass(1),
    Append("a"),
];

/// What drops the connection, which is made again: an error that passes, another kind, no reply, one and more, the
/// end, and nothing in time.
static DROPS: [Story<'static>; 9] = [
    (
        &[
            Opens,
            PONG,
            KEEPS,
            Says("-LOADING Redis is loading the dataset in memory\r\n"),
            Opens,
            PONG,
            KEEPS,
            FIRST,
        ],
        APPENDED_AGAIN,
        DROPPED,
    ),
    (
        &[
            Opens,
            PONG,
            KEEPS,
            Says(":1\r\n"),
            Opens,
            PONG,
            KEEPS,
            FIRST,
        ],
        APPENDED_AGAIN,
        DROPPED,
    ),
    (
        &[
            Opens,
            PONG,
            KEEPS,
            Says("5-0\r\n"),
            Opens,
            PONG,
            KEEPS,
            FIRST,
        ],
        APPENDED_AGAIN,
        DROPPED,
    ),
    (
        &[
            Opens,
            PONG,
            KEEPS,
            Says("$3\r\n5-0\r\n:1\r\n"),
            Opens,
            PONG,
            KEEPS,
            FIRST,
        ],
        APPENDED_AGAIN,
        DROPPED,
    ),
    (
        &[
            Opens,
            PONG,
            KEEPS,
            Says("$3\r\n5:0\r\n"),
            Opens,
            PONG,
            KEEPS,
            FIRST,
        ],
        APPENDED_AGAIN,
        DROPPED,
    ),
    (
        &[Opens, PONG, KEEPS, Says(""), Opens, PONG, KEEPS, FIRST],
        APPENDED_AGAIN,
        DROPPED,
    ),
    (
        &[
            Opens,
            PONG,
            KEEPS,
            Says("$3\r\n5-"),
            Opens,
            PONG,
            KEEPS,
            FIRST,
        ],
        APPENDED_AGAIN,
        DROPPED,
    ),
    (
        &[
            Opens,
            PONG,
            KEEPS,
            Ends("$3\r\n5-"),
            Opens,
            PONG,
            KEEPS,
            FIRST,
        ],
        APPENDED_AGAIN,
        DROPPED,
    ),
    (
        &[Opens, PONG, KEEPS, Fails, Opens, PONG, KEEPS, FIRST],
        APPENDED_AGAIN,
        DROPPED,
    ),
];

/// Tries: lw_redis_log::RedisLog::new
#[test]
fn a_connection_is_made_again(rt: HostRuntime) {
    play_all(&rt, rt.alloc(), &DROPS);
}

/// Pauses are doubled until the server does what it is asked.
static PAUSES: [Story<'static>; 2] = [
    (
        &[Fails, Fails, Opens, Says("-BUSY script\r\n"), Fails],
        &[
            Read(None),
            Pass(100),
            Read(None),
            Pass(199),
            Read(None),
            Pass(1),
            Read(None),
            Pass(399),
            Read(None),
            Pass(1),
            Read(None),
        ],
        "connects not\n= Unavailable\n100 ms\nconnects not\n= Unavailable\n199 ms\n= Unavailable\n1 ms\n\
         connects\n*1~$4~PING~\n= Unavailable\n399 ms\n= Unavailable\n1 ms\nconnects not\n= Unavailable\n",
    ),
    (
        &[
            Fails,
            Opens,
            PONG,
            KEEPS,
            FIRST,
            Ends(""),
            Opens,
            PONG,
            KEEPS,
            SECOND,
        ],
        &[
            Append("a"),
            Pass(100),
            Append("a"),
            Append("b"),
            Pass(100),
            Append("b"),
        ],
        "connects not\n= Unavailable\n100 ms\n\
         connects\n*1~$4~PING~\n*1~$4~INFO~\n\
         *6~$4~XADD~$1~k~$10~NOMKSTREAM~$1~*~$1~e~$1~a~\n= 5-0\n\
         *6~$4~XADD~$1~k~$10~NOMKSTREAM~$1~*~$1~e~$1~b~\n= Unavailable\n100 ms\n\
         connects\n*1~$4~PING~\n*1~$4~INFO~\n\
         *6~$4~XADD~$1~k~$10~NOMKSTREAM~$1~*~$1~e~$1~b~\n= 6-0\n",
    ),
];

/// Tries: lw_redis_log::RedisLog::new
#[test]
fn pauses_grow(rt: HostRuntime) {
    play_all(&rt, rt.alloc(), &PAUSES);
}

/// A replica whose policy lets no key go but those that end.
const REPLICA: Answer = Says(
    "$61\r\na\r\nmaxmemory_policy:volatile-lru\r\nrole:slave\r\nmaster_port:1\r\n\r\n",
);

/// The same with a policy that lets any key go.
const EVICTS: Answer = Says(
    "$60\r\na\r\nmaxmemory_policy:allkeys-lru\r\nrole:slave\r\nmaster_port:1\r\n\r\n",
);

/// What a server is is asked at each connection, and each thing told once. One that does not tell is used.
static SETTINGS: [Story<'static>; 4] = [
    (
        &[
            Opens,
            PONG,
            FORGETS,
            EMPTY,
            Ends(""),
            Opens,
            PONG,
            FORGETS,
            EMPTY,
        ],
        &[Read(None), Read(None), Pass(100), Read(None)],
        "connects\n*1~$4~PING~\n*1~$4~INFO~\nkeeps nothing\n\
         *6~$6~XRANGE~$1~k~$1~-~$1~+~$5~COUNT~$3~256~\n=\n\
         *6~$6~XRANGE~$1~k~$1~-~$1~+~$5~COUNT~$3~256~\n= Unavailable\n100 ms\n\
         connects\n*1~$4~PING~\n*1~$4~INFO~\n\
         *6~$6~XRANGE~$1~k~$1~-~$1~+~$5~COUNT~$3~256~\n=\n",
    ),
    (
        &[
            Opens,
            PONG,
            KEEPS,
            EMPTY,
            Ends(""),
            Opens,
            PONG,
            REPLICA,
            EMPTY,
            Ends(""),
            Opens,
            PONG,
            EVICTS,
            EMPTY,
            Ends(""),
            Opens,
            PONG,
            EVICTS,
            EMPTY,
        ],
        &[
            Read(None),
            Read(None),
            Pass(100),
            Read(None),
            Read(None),
            Pass(100),
            Read(None),
            Read(None),
            Pass(100),
            Read(None),
        ],
        "connects\n*1~$4~PING~\n*1~$4~INFO~\n\
         *6~$6~XRANGE~$1~k~$1~-~$1~+~$5~COUNT~$3~256~\n=\n\
         *6~$6~XRANGE~$1~k~$1~-~$1~+~$5~COUNT~$3~256~\n= Unavailable\n100 ms\n\
         connects\n*1~$4~PING~\n*1~$4~INFO~\nreplica\n\
         *6~$6~XRANGE~$1~k~$1~-~$1~+~$5~COUNT~$3~256~\n=\n\
         *6~$6~XRANGE~$1~k~$1~-~$1~+~$5~COUNT~$3~256~\n= Unavailable\n100 ms\n\
         connects\n*1~$4~PING~\n*1~$4~INFO~\nevicts\n\
         *6~$6~XRANGE~$1~k~$1~-~$1~+~$5~COUNT~$3~256~\n=\n\
         *6~$6~XRANGE~$1~k~$1~-~$1~+~$5~COUNT~$3~256~\n= Unavailable\n100 ms\n\
         connects\n*1~$4~PING~\n*1~$4~INFO~\n\
         *6~$6~XRANGE~$1~k~$1~-~$1~+~$5~COUNT~$3~256~\n=\n",
    ),
    (
        &[Opens, PONG, Says("-NOPERM no permissions\r\n"), EMPTY],
        &[Read(None)],
        "connects\n*1~$4~PING~\n*1~$4~INFO~\n\
         *6~$6~XRANGE~$1~k~$1~-~$1~+~$5~COUNT~$3~256~\n=\n",
    ),
    (
        &[
            Opens,
            PONG,
            Says("-LOADING data\r\n"),
            Opens,
            PONG,
            FORGETS,
            EMPTY,
        ],
        &[Read(None), Pass(100), Read(None)],
        "connects\n*1~$4~PING~\n*1~$4~INFO~\n= Unavailable\n100 ms\n\
         connects\n*1~$4~PING~\n*1~$4~INFO~\nkeeps nothing\n\
         *6~$6~XRANGE~$1~k~$1~-~$1~+~$5~COUNT~$3~256~\n=\n",
    ),
];

/// Tries: lw_redis_log::RedisLog::new
#[test]
fn settings_are_asked_for(rt: HostRuntime) {
    play_all(&rt, rt.alloc(), &SETTINGS);
}

/// Two entries, the second of which is foreign.
const PAGE: &str = "*2\r\n*2\r\n$3\r\n5-0\r\n*2\r\n$1\r\ne\r\n$2\r\nab\r\n\
     *2\r\n$3\r\n5-1\r\n*4\r\n$1\r\ne\r\n$1\r\na\r\n$1\r\nf\r\n$0\r\n\r\n";

/// The record of a reading whose reply is whole.
const WHOLE: &str = "connects\n*1~$4~PING~\n*1~$4~INFO~\n\
     *6~$6~XRANGE~$1~k~$1~-~$1~+~$5~COUNT~$3~256~\n\
     passes over 5-0\npasses over 5-1\n= 5-0 ab 5-1 \n";

/// The record of one whose reply is not.
const CUT: &str = "connects\n*1~$4~PING~\n*1~$4~INFO~\n\
     *6~$6~XRANGE~$1~k~$1~-~$1~+~$5~COUNT~$3~256~\n= Unavailable\n";

/// A reply comes in any pieces.
static WHOLES: [Story<'static>; 3] = [
    (&[Opens, PONG, KEEPS, Says(PAGE)], &[Read(None)], WHOLE),
    (
        &[Opens, PONG, KEEPS, SaysSlowly(PAGE)],
        &[Read(None)],
        WHOLE,
    ),
    (&[Opens, PONG, KEEPS, Ends(PAGE)], &[Read(None)], WHOLE),
];

/// A reply that ends before its end is none.
/// Tries: lw_redis_log::RedisLog::new
#[test]
fn a_reply_is_waited_for(rt: HostRuntime) {
    play_all(&rt, rt.alloc(), &WHOLES);
    for end in 0..PAGE.len() {
        let cut = PAGE.get(..end).expect(&rt, "ASCII");
        for answer in [Ends(cut), Says(cut)] {
            let answers = [Opens, PONG, KEEPS, answer];
            play(&rt, rt.alloc(), (&answers, &[Read(None)], CUT), None);
        }
    }
}

/// A user logs in before all else. A connection that is refused is made again after a pause, and of a refused login
/// only the first word is told.
static LOGINS: [Story<'static>; 4] = [
    (
        &[Opens, Says("+OK\r\n"), PONG, KEEPS, EMPTY],
        &[Read(None)],
        "connects\n*3~$4~AUTH~$5~fleet~$6~secret~\n*1~$4~PING~\n*1~$4~INFO~\n\
         *6~$6~XRANGE~$1~k~$1~-~$1~+~$5~COUNT~$3~256~\n=\n",
    ),
    (
        &[
            Opens,
            Says("-WRONGPASS invalid username-password pair or user is disabled.\r\n"),
            Fails,
        ],
        &[Read(None), Read(None), Pass(100), Read(None)],
        "connects\n*3~$4~AUTH~$5~fleet~$6~secret~\nWRONGPASS\n= Refused\n= Unavailable\n100 ms\n\
         connects not\n= Unavailable\n",
    ),
    (
        &[
            Opens,
            Says("-ERR unknown command 'AUTH', with args beginning with: 'fleet' 'secret' \r\n"),
        ],
        &[Read(None)],
        "connects\n*3~$4~AUTH~$5~fleet~$6~secret~\nERR\n= Refused\n",
    ),
    (
        &[
            Opens,
            Says("+OK\r\n"),
            Says("-NOPERM this user has no permissions to run the 'ping' command\r\n"),
        ],
        &[Read(None), Read(None)],
        "connects\n*3~$4~AUTH~$5~fleet~$6~secret~\n*1~$4~PING~\n\
         NOPERM this user has no permissions to run the 'ping' command\n= Refused\n= Unavailable\n",
    ),
];

/// Tries: lw_redis_log::RedisLog::new
#[test]
fn a_user_logs_in(rt: HostRuntime) {
    for story in &LOGINS {
        let login = Login::read(rt.alloc(), b"fleet\nsecret\n").expect(&rt, "a login");
        play(&rt, rt.alloc(), *story, Some(login));
    }
}
