use crate::hold::{page_text, shown};
use lw_redis_log::{
    PageFault, RedisFault, Settings, append_outcome, entries_outcome, info_outcome, page_of,
    status_outcome, trim_outcome,
};
use lw_resp::{Entry, Reply, first_reply};
use std::alloc::{AllocError, Global};
use std::process::Abort;

/// The bytes of a reply, and what it is to the question.
type Row = (&'static str, &'static str);

/// Errors, which are the same to each question, and kinds that no question asks for.
static TO_ANY: [Row; 7] = [
    (
        "-LOADING Redis is loading the dataset in memory\r\n",
        "away",
    ),
    (
        "-READONLY You can't write against a read only replica.\r\n",
        "away",
    ),
    (
        "-NOAUTH Authentication required.\r\n",
        "refused NOAUTH Authentication required.",
    ),
    (
        "-WRONGTYPE Operation against a key holding the wrong kind of value\r\n",
        "refused WRONGTYPE Operation against a key holding the wrong kind of value",
    ),
    ("-ERR syntax error\r\n", "refused ERR syntax error"),
    ("*-1\r\n", "away"),
    ("+QUEUED\r\n", "away"),
];

/// A question.
enum Asked {
    Append,
    Trim,
    /// `PING`
    Status,
    /// `INFO`
    Info,
    Read,
}

fn fault_text(alloc: Global, fault: RedisFault<'_>) -> Result<String, AllocError> {
    match fault {
        RedisFault::Unavailable => String::from_str(alloc, "away"),
        RedisFault::Lost => String::from_str(alloc, "lost"),
        RedisFault::Refused(text) => {
            let text = shown(alloc, text)?;
            format!(in alloc; "refused {text}")
        }
    }
}

/// The entries as a text, where they are those of a log.
fn entries_text(alloc: Global, entries: &[Entry<'_>]) -> Result<String, AllocError> {
    match page_of(alloc, entries) {
        Ok(page) => page_text(alloc, &page),
        Err(PageFault::Malformed) => String::from_str(alloc, "malformed"),
        Err(PageFault::NoMemory) => Err(AllocError),
    }
}

/// What is to be known of a server, as a text.
fn settings_text(alloc: Global, settings: Settings) -> Result<String, AllocError> {
    let mut text = String::from_str(alloc, "=")?;
    if settings.keeps_nothing {
        text.push_str(" keeps nothing")?;
    }
    if settings.is_replica {
        text.push_str(" replica")?;
    }
    if settings.evicts {
        text.push_str(" evicts")?;
    }
    Ok(text)
}

/// What the reply is to the question, as a text.
fn text_of(alloc: Global, asked: &Asked, reply: &Reply<'_>) -> Result<String, AllocError> {
    let fault = match asked {
        Asked::Append => match append_outcome(reply) {
            Ok(id) => return format!(in alloc; "{}-{}", id.major, id.minor),
            Err(fault) => fault,
        },
        Asked::Trim => match trim_outcome(reply) {
            Ok(number) => return format!(in alloc; "{number}"),
            Err(fault) => fault,
        },
        Asked::Status => match status_outcome(b"PONG", reply) {
            Ok(()) => return String::from_str(alloc, "ok"),
            Err(fault) => fault,
        },
        Asked::Info => match info_outcome(reply) {
            Ok(text) => return settings_text(alloc, Settings::read(text)),
            Err(fault) => fault,
        },
        Asked::Read => match entries_outcome(reply) {
            Ok(entries) => return entries_text(alloc, entries),
            Err(fault) => fault,
        },
    };
    fault_text(alloc, fault)
}

/// Compares what each reply is to the question.
fn check_all(rt: &impl Abort, alloc: Global, asked: &Asked, rows: &'static [Row]) {
    for (bytes, want) in rows {
        let Ok(Some((reply, b""))) = first_reply(alloc, bytes.as_bytes()) else {
            panic!(rt; "no reply: {bytes}");
        };
        let text = text_of(alloc, asked, &reply).expect(rt, "memory");
        assert_eq!(rt; text.as_str(), *want, "{bytes}");
    }
}

/// Replies to an append.
static APPENDS: [Row; 10] = [
    ("$15\r\n1526919030474-0\r\n", "1526919030474-0"),
    (
        "$41\r\n18446744073709551615-18446744073709551615\r\n",
        "18446744073709551615-18446744073709551615",
    ),
    ("$-1\r\n", "lost"),
    ("$0\r\n\r\n", "away"),
    ("$13\r\n1526919030474\r\n", "away"),
    ("$22\r\n18446744073709551616-0\r\n", "away"),
    ("$4\r\n07-1\r\n", "away"),
    (":1\r\n", "away"),
    ("*0\r\n", "away"),
    ("+OK\r\n", "away"),
];

/// Tries: lw_redis_log::append_outcome
#[test]
fn replies_to_an_append(rt: HostRuntime) {
    check_all(&rt, rt.alloc(), &Asked::Append, &APPENDS);
    check_all(&rt, rt.alloc(), &Asked::Append, &TO_ANY);
}

/// Replies to a trim.
static TRIMS: [Row; 5] = [
    (":0\r\n", "0"),
    (":15\r\n", "15"),
    ("$1\r\n0\r\n", "away"),
    ("$-1\r\n", "away"),
    ("*0\r\n", "away"),
];

/// Tries: lw_redis_log::trim_outcome
#[test]
fn replies_to_a_trim(rt: HostRuntime) {
    check_all(&rt, rt.alloc(), &Asked::Trim, &TRIMS);
    check_all(&rt, rt.alloc(), &Asked::Trim, &TO_ANY);
}

/// Replies to `PING`.
static STATUSES: [Row; 7] = [
    ("+PONG\r\n", "ok"),
    ("+OK\r\n", "away"),
    ("+pong\r\n", "away"),
    ("$4\r\nPONG\r\n", "away"),
    ("$-1\r\n", "away"),
    (":1\r\n", "away"),
    ("*0\r\n", "away"),
];

/// Tries: lw_redis_log::status_outcome
#[test]
fn replies_to_a_greeting(rt: HostRuntime) {
    check_all(&rt, rt.alloc(), &Asked::Status, &STATUSES);
    check_all(&rt, rt.alloc(), &Asked::Status, &TO_ANY);
}

/// Replies to `INFO`.
static SETTINGS: [Row; 19] = [
    (
        "$41\r\n# Persistence\r\nloading:0\r\naof_enabled:0\r\n\r\n",
        "= keeps nothing",
    ),
    (
        "$41\r\n# Persistence\r\nloading:0\r\naof_enabled:1\r\n\r\n",
        "=",
    ),
    ("$31\r\n# Persistence\r\nxaof_enabled:0\r\n\r\n", "="),
    ("$29\r\n# Persistence\r\naof_enabled:0\n\r\n", "="),
    ("$29\r\n# Persistence\r\naof_enabled:\r\n\r\n", "="),
    (
        "$42\r\n# Replication\r\nrole:slave\r\nmaster_host:a\r\n\r\n",
        "= replica",
    ),
    (
        "$48\r\n# Replication\r\nrole:master\r\nconnected_slaves:1\r\n\r\n",
        "=",
    ),
    ("$28\r\n# Replication\r\nrole:slave2\r\n\r\n", "="),
    ("$28\r\n# Replication\r\nxrole:slave\r\n\r\n", "="),
    (
        "$53\r\n# Memory\r\nmaxmemory_policy:allkeys-lru\r\nallocator:a\r\n\r\n",
        "= evicts",
    ),
    (
        "$43\r\n# Memory\r\nmaxmemory_policy:allkeys-random\r\n\r\n",
        "= evicts",
    ),
    (
        "$41\r\n# Memory\r\nmaxmemory_policy:volatile-lru\r\n\r\n",
        "=",
    ),
    (
        "$39\r\n# Memory\r\nmaxmemory_policy:noeviction\r\n\r\n",
        "=",
    ),
    (
        "$41\r\n# Memory\r\nxmaxmemory_policy:allkeys-lru\r\n\r\n",
        "=",
    ),
    (
        "$60\r\na\r\nmaxmemory_policy:allkeys-lfu\r\naof_enabled:0\r\nrole:slave\r\n\r\n",
        "= keeps nothing replica evicts",
    ),
    ("$0\r\n\r\n", "="),
    ("$-1\r\n", "away"),
    (":0\r\n", "away"),
    ("*0\r\n", "away"),
];

/// Tries: lw_redis_log::info_outcome, lw_redis_log::Settings::read
#[test]
fn replies_about_a_server(rt: HostRuntime) {
    check_all(&rt, rt.alloc(), &Asked::Info, &SETTINGS);
    check_all(&rt, rt.alloc(), &Asked::Info, &TO_ANY);
}

/// Replies to a reading.
static PAGES: [Row; 8] = [
    ("*0\r\n", "="),
    (
        "*1\r\n*2\r\n$3\r\n7-1\r\n*2\r\n$1\r\ne\r\n$2\r\nab\r\n",
        "= 7-1 ab",
    ),
    // Foreign entries: another name, two fields, and none.
    (
        "*4\r\n*2\r\n$3\r\n7-1\r\n*2\r\n$1\r\nf\r\n$2\r\nab\r\n\
         *2\r\n$3\r\n7-2\r\n*4\r\n$1\r\ne\r\n$2\r\nab\r\n$1\r\nf\r\n$1\r\nx\r\n\
         *2\r\n$3\r\n7-3\r\n*0\r\n\
         *2\r\n$3\r\n8-0\r\n*2\r\n$1\r\ne\r\n$1\r\nz\r\n",
        "= 7-1  7-2  7-3  8-0 z",
    ),
    (
        "*1\r\n*2\r\n$3\r\n7_1\r\n*2\r\n$1\r\ne\r\n$2\r\nab\r\n",
        "malformed",
    ),
    (
        "*2\r\n*2\r\n$3\r\n7-1\r\n*2\r\n$1\r\ne\r\n$0\r\n\r\n*2\r\n$1\r\n7\r\n*2\r\n$1\r\ne\r\n$0\r\n\r\n",
        "malformed",
    ),
    ("$-1\r\n", "away"),
    (":0\r\n", "away"),
    ("$3\r\n7-1\r\n", "away"),
];

/// Tries: lw_redis_log::entries_outcome, lw_redis_log::page_of
#[test]
fn replies_to_a_reading(rt: HostRuntime) {
    check_all(&rt, rt.alloc(), &Asked::Read, &PAGES);
    check_all(&rt, rt.alloc(), &Asked::Read, &TO_ANY);
}
