use crate::told::reply_told;
use std::alloc::Global;
use std::process::Abort;

/// Bytes, and what is read of them.
type Row = (&'static str, &'static str);

/// What is read of the bytes has to be this.
fn check(rt: &impl Abort, alloc: Global, bytes: &[u8], want: &str) {
    let got = reply_told(rt, alloc, bytes);
    assert!(rt; got.as_str() == want, "{want}: {got}");
}

/// What the commands of a log are answered with.
const SINGLE: &[Row] = &[
    ("+PONG\r\n", "status PONG|"),
    ("+OK\r\n", "status OK|"),
    ("$15\r\n1526985054069-0\r\n", "bulk 1526985054069-0|"),
    ("$-1\r\n", "null|"),
    (":3\r\n", "number 3|"),
    ("*-1\r\n", "null array|"),
    (
        "-NOAUTH Authentication required.\r\n",
        "error NOAUTH Authentication required.|",
    ),
    (
        "-WRONGTYPE Operation against a key holding the wrong kind of value\r\n",
        "error WRONGTYPE Operation against a key holding the wrong kind of value|",
    ),
];

/// Entries with the one field of a log; the fifth has the fields of the page on XRANGE.
const ENTRIES: &[Row] = &[
    ("*0\r\n", "entries|"),
    (
        "*1\r\n*2\r\n$3\r\n7-1\r\n*2\r\n$1\r\ne\r\n$2\r\nab\r\n",
        "entries 7-1=ab|",
    ),
    (
        "*2\r\n*2\r\n$3\r\n7-1\r\n*2\r\n$1\r\ne\r\n$0\r\n\r\n*2\r\n$3\r\n7-2\r\n*2\r\n$1\r\ne\r\n$2\r\n\r\n\r\n",
        "entries 7-1= 7-2=\r\n|",
    ),
    (
        "*3\r\n*2\r\n$3\r\n7-1\r\n*2\r\n$1\r\nf\r\n$1\r\na\r\n\
         *2\r\n$3\r\n7-2\r\n*2\r\n$2\r\nee\r\n$1\r\na\r\n\
         *2\r\n$3\r\n7-3\r\n*2\r\n$0\r\n\r\n$1\r\ne\r\n",
        "entries 7-1 is foreign 7-2 is foreign 7-3 is foreign|",
    ),
    (
        "*1\r\n*2\r\n$15\r\n1526985054069-0\r\n*6\r\n$8\r\nduration\r\n$2\r\n72\r\n\
         $8\r\nevent-id\r\n$1\r\n9\r\n$7\r\nuser-id\r\n$6\r\n839248\r\n",
        "entries 1526985054069-0 is foreign|",
    ),
    (
        "*3\r\n*2\r\n$3\r\n7-1\r\n*0\r\n\
         *2\r\n$3\r\n7-2\r\n*1\r\n$1\r\ne\r\n\
         *2\r\n$3\r\n7-3\r\n*4\r\n$1\r\ne\r\n$1\r\na\r\n$1\r\ne\r\n$1\r\nb\r\n",
        "entries 7-1 is foreign 7-2 is foreign 7-3 is foreign|",
    ),
];

/// Replies with what follows them.
const FOLLOWED: &[Row] = &[
    ("*0\r\n*0\r\n", "entries|*0\r\n"),
    (
        "*1\r\n*2\r\n$3\r\n7-1\r\n*2\r\n$1\r\ne\r\n$2\r\nab\r\n:1\r\n",
        "entries 7-1=ab|:1\r\n",
    ),
    ("+OK\r\n?", "status OK|?"),
];

/// What is read whole.
static READ: [&[Row]; 3] = [SINGLE, ENTRIES, FOLLOWED];

/// What is read up to each place before its end.
static CUT: [&[Row]; 2] = [SINGLE, ENTRIES];

/// Tries: lw_resp::first_reply
#[test]
fn replies_are_read(rt: HostRuntime) {
    for rows in &READ {
        for (bytes, want) in *rows {
            check(&rt, rt.alloc(), bytes.as_bytes(), want);
        }
    }
}

/// The bytes up to each place before their end are not whole.
/// Tries: lw_resp::first_reply
#[test]
fn what_is_cut_is_not_whole(rt: HostRuntime) {
    for rows in &CUT {
        for (bytes, _) in *rows {
            for end in 0..bytes.len() {
                check(&rt, rt.alloc(), &bytes.as_bytes()[..end], "not whole");
            }
        }
    }
}

/// Arrays of other things than entries, and parts that are cut and can be no part of an entry.
static MALFORMED: [&str; 14] = [
    "*2\r\n$5\r\nhello\r\n$5\r\nworld\r\n",
    "*2\r\n$4\r\nLLEN\r\n$6\r\nmylist\r\n",
    "*1\r\n:1\r\n",
    "*1\r\n$-1\r\n",
    "*1\r\n*3",
    "*1\r\n*2x",
    "*1\r\n*2\r\n+",
    "*1\r\n*2\r\n$-",
    "*1\r\n*2\r\n$3\r\n7-1\r\n*-",
    "*1\r\n*2\r\n$3\r\n7-1\r\n$",
    "*1\r\n*2\r\n$3\r\n7-1\r\n*1\r\n:",
    "*1\r\n*2\r\n$3\r\n7-1\r\n*2\r\n$1\r\ne\r\n*",
    "*1\r\n*2\r\n$3\r\n7-1x",
    "?",
];

/// Tries: lw_resp::first_reply
#[test]
fn what_no_reply_begins_with_is_malformed(rt: HostRuntime) {
    for bytes in &MALFORMED {
        check(&rt, rt.alloc(), bytes.as_bytes(), "malformed");
    }
}

/// As many entries and fields as a number can announce.
static ANNOUNCED: [&str; 2] = [
    "*9223372036854775807\r\n",
    "*1\r\n*2\r\n$3\r\n7-1\r\n*9223372036854775807\r\n",
];

/// Tries: lw_resp::first_reply
#[test]
fn entries_that_are_announced_take_no_memory(rt: HostRuntime) {
    for bytes in &ANNOUNCED {
        check(&rt, rt.alloc(), bytes.as_bytes(), "not whole");
    }
}
