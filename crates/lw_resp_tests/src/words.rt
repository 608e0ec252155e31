use crate::told::word_told;
use std::alloc::Global;
use std::process::Abort;

/// Bytes, and what is read of them.
type Row = (&'static str, &'static str);

/// What is read of the bytes has to be this.
fn check(rt: &impl Abort, alloc: Global, bytes: &[u8], want: &str) {
    let got = word_told(rt, alloc, bytes);
    assert!(rt; got.as_str() == want, "{want}: {got}");
}

/// Examples of the page on the protocol, with texts and numbers of its own and at its bounds.
static EXAMPLES: [Row; 16] = [
    ("+OK\r\n", "status OK|"),
    ("-Error message\r\n", "error Error message|"),
    (
        "-ERR unknown command 'asdf'\r\n",
        "error ERR unknown command 'asdf'|",
    ),
    (
        "-WRONGTYPE Operation against a key holding the wrong kind of value\r\n",
        "error WRONGTYPE Operation against a key holding the wrong kind of value|",
    ),
    ("+\r\n", "status |"),
    (":0\r\n", "number 0|"),
    (":1000\r\n", "number 1000|"),
    (":9223372036854775807\r\n", "number 9223372036854775807|"),
    ("$5\r\nhello\r\n", "bulk hello|"),
    ("$0\r\n\r\n", "bulk |"),
    ("$6\r\na\r\nb\r\n\r\n", "bulk a\r\nb\r\n|"),
    ("$-1\r\n", "null|"),
    ("*-1\r\n", "null array|"),
    ("*0\r\n", "array 0|"),
    ("*3\r\n", "array 3|"),
    ("*9223372036854775807\r\n", "array 9223372036854775807|"),
];

/// Arrays of the page on the protocol, and words that follow one another.
static FOLLOWED: [Row; 5] = [
    (
        "*2\r\n$5\r\nhello\r\n$5\r\nworld\r\n",
        "array 2|$5\r\nhello\r\n$5\r\nworld\r\n",
    ),
    (
        "*2\r\n$4\r\nLLEN\r\n$6\r\nmylist\r\n",
        "array 2|$4\r\nLLEN\r\n$6\r\nmylist\r\n",
    ),
    ("+OK\r\n\r\n", "status OK|\r\n"),
    ("$-1\r\n$-1\r\n", "null|$-1\r\n"),
    (":1\r\n?", "number 1|?"),
];

/// Tries: lw_resp::first_word
#[test]
fn examples_are_read(rt: HostRuntime) {
    for (bytes, want) in &EXAMPLES {
        check(&rt, rt.alloc(), bytes.as_bytes(), want);
        for end in 0..bytes.len() {
            check(&rt, rt.alloc(), &bytes.as_bytes()[..end], "not whole");
        }
    }
    for (bytes, want) in &FOLLOWED {
        check(&rt, rt.alloc(), bytes.as_bytes(), want);
    }
}

/// No kind of the protocol's second version.
const NO_KINDS: &[&str] = &[
    "OK\r\n", " ", "\r\n", "%1\r\n", "_\r\n", "#t\r\n", "(1\r\n", "5\r\n",
];

/// A line that ends with one byte of two.
const BAD_ENDS: &[&str] = &[
    "+O\nK\r\n",
    "+O\rK\r\n",
    "-\n",
    ":1\n",
    "$5\n",
    "$-1\n",
    "*0\rx",
    "$5\r\nhello\n",
];

/// A content that is longer or shorter than its length.
const BAD_LENGTHS: &[&str] = &["$4\r\nhello\r\n", "$6\r\nhello\r\nx", "$0\r\nx"];

/// Numbers with a sign, a leading zero, no digit or another byte.
const BAD_NUMBERS: &[&str] = &[
    ":-1\r\n", ":+1\r\n", ":01\r\n", ":00", ":\r\n", ":1a", ":1 ", "$a", "$05", "$-2", "$-1x",
    "*-0", "*-2\r\n", "*1a\r\n",
];

/// Numbers that pass their bound: 63 bits, and 512 megabytes for a bulk string.
const TOO_GREAT: &[&str] = &[
    ":9223372036854775808\r\n",
    ":9223372036854775808",
    ":10000000000000000000",
    "*9223372036854775808\r\n",
    "$536870913\r\n",
    "$536870913",
    "$999999999",
];

/// Numbers at their bound, or below it as far as they have come.
const NOT_TOO_GREAT: &[&str] = &[
    ":922337203685477580",
    "$536870912\r\n",
    "$536870912",
    "$53687091",
    "*9223372036854775807\r",
];

/// Texts, and what is read of each.
static UNREAD: [(&[&str], &str); 6] = [
    (NO_KINDS, "malformed"),
    (BAD_ENDS, "malformed"),
    (BAD_LENGTHS, "malformed"),
    (BAD_NUMBERS, "malformed"),
    (TOO_GREAT, "malformed"),
    (NOT_TOO_GREAT, "not whole"),
];

/// Tries: lw_resp::first_word
#[test]
fn what_no_word_begins_with_is_malformed(rt: HostRuntime) {
    for (texts, want) in &UNREAD {
        for bytes in *texts {
            check(&rt, rt.alloc(), bytes.as_bytes(), want);
        }
    }
}

/// The kind of a line, how many bytes stand behind it, what ends it, and how what is read of it begins.
static LINES: [(&str, usize, &str, &str); 7] = [
    ("+", 65_536, "\r\n", "status a"),
    ("-", 65_536, "\r\n", "error a"),
    ("+", 65_536, "\r", "not whole"),
    ("-", 65_536, "", "not whole"),
    ("+", 65_537, "\r\n", "malformed"),
    ("-", 65_537, "\r", "malformed"),
    ("-", 65_537, "", "malformed"),
];

/// Tries: lw_resp::first_word
#[test]
fn texts_are_bounded(rt: HostRuntime) {
    for row in &LINES {
        let (kind, count, end, want) = *row;
        let mut bytes = Vec::from_slice(rt.alloc(), kind.as_bytes()).expect(&rt, "memory");
        for _ in 0..count {
            bytes.push(b'a').expect(&rt, "memory");
        }
        bytes
            .extend_from_slice(end.as_bytes())
            .expect(&rt, "memory");
        let told = word_told(&rt, rt.alloc(), &bytes);
        assert!(rt; told.as_str().starts_with(want), "{want} of {count}");
    }
}
