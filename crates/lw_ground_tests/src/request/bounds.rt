//! Messages at the bounds of what they may say.

use super::told;
use crate::hold::text_of;
use lw_coap::{CoapOption, Kind, Message, codes};
use std::alloc::Global;
use std::process::Abort;

fn push_options(
    rt: &impl Abort,
    alloc: Global,
    options: &mut Vec<CoapOption>,
    number: u16,
    texts: &str,
    between: char,
) {
    for text in texts.split(between) {
        let value = Vec::from_slice(alloc, text.as_bytes()).expect(rt, "memory");
        options
            .push(CoapOption { number, value })
            .expect(rt, "memory");
    }
}

/// A POST without a token, of a path, and of queries that `&` divides.
fn post(rt: &impl Abort, alloc: Global, path: &str, queries: &str, payload: &str) -> Message {
    let mut options = Vec::new(alloc);
    push_options(rt, alloc, &mut options, 11, path, '/');
    push_options(rt, alloc, &mut options, 15, queries, '&');
    let payload = Vec::from_slice(alloc, payload.as_bytes()).expect(rt, "memory");
    Message {
        kind: Kind::Con,
        code: codes::POST,
        mid: 1,
        token: Vec::new(alloc),
        options,
        payload,
    }
}

/// Looks at what a POST means.
fn check_post(
    rt: &impl Abort,
    alloc: Global,
    path: &str,
    queries: &str,
    payload: &str,
    want: &str,
) {
    let message = post(rt, alloc, path, queries, payload);
    let meant = told(rt, alloc, &message);
    assert!(rt; meant.as_str() == want, "{path}: {meant}");
}

fn text(rt: &impl Abort, alloc: Global, parts: &[(&str, usize)]) -> String {
    text_of(alloc, parts).expect(rt, "memory")
}

/// A link of 30 bytes, behind its comma.
const FURTHER: &str = ",</3303/100>;ver=1.1;obs;ct=110";

/// Looks at a POST of texts of these lengths: endpoint, binding and SMS number, and how many links follow the first. It
/// means the words in front, and its texts.
fn check_lengths(
    rt: &impl Abort,
    alloc: Global,
    path: &str,
    [endpoint, binding, sms, links]: [usize; 4],
    [word, name, rest]: [(&str, usize); 3],
) {
    let queries = [
        ("ep=", 1),
        ("e", endpoint),
        ("&lt=4294967295&lwm2m=1.1&b=", 1),
        ("U", binding),
        ("&Q&sms=", 1),
        ("1", sms),
    ];
    let want = [
        word,
        name,
        rest,
        (" 4294967295 ", 1),
        ("U", binding),
        (" ", 1),
        ("1", sms),
        (" </>", 1),
        (FURTHER, links),
    ];
    let queries = text(rt, alloc, &queries);
    let payload = text(rt, alloc, &[("</>", 1), (FURTHER, links)]);
    let want = text(rt, alloc, &want);
    check_post(
        rt,
        alloc,
        path,
        queries.as_str(),
        payload.as_str(),
        want.as_str(),
    );
}

/// Lengths of a Register.
static REGISTERS: [[usize; 4]; 6] = [
    [1, 1, 0, 0],
    [8, 2, 1, 1],
    [9, 3, 8, 2],
    [64, 7, 64, 3],
    [65, 8, 65, 4],
    [252, 8, 251, 255],
];

/// Lengths of an Update.
static UPDATES: [[usize; 4]; 4] = [[1, 8, 0, 0], [1, 8, 1, 1], [1, 8, 9, 3], [1, 8, 251, 255]];

/// Tries: understand
#[test]
fn registers_and_updates_at_their_bounds(rt: HostRuntime) {
    for lengths in &REGISTERS {
        let front = [("register ", 1), ("e", lengths[0]), (" 1.1 true", 1)];
        check_lengths(&rt, rt.alloc(), "rd", *lengths, front);
    }
    for lengths in &UPDATES {
        let front = [("update ", 1), ("0000000000010001", 1), ("", 1)];
        check_lengths(&rt, rt.alloc(), "rd/0000000000010001", *lengths, front);
    }
}

/// A query, another, and what they mean.
static BEHIND: [(&str, &str, &str); 7] = [
    ("&", "lt=5", "register a 1.0 false 5 U - </>"),
    ("x=1&", "Q", "register a 1.0 true 86400 U - </> x=1"),
    ("y&x=2&", "x=1", "register a 1.0 false 86400 U - </> x=1 y="),
    ("lt=x&", "lt=5", "register a 1.0 false 5 U - </>"),
    ("sms=1&", "sms=2", "register a 1.0 false 86400 U 2 </>"),
    ("ep&", "ep=b", "register b 1.0 false 86400 U - </>"),
    ("lt=5&", "lt=x", "60800001"),
];

/// A Register of the endpoint `a` with a query 700 times before another.
/// Tries: understand
#[test]
fn hundreds_of_queries(rt: HostRuntime) {
    for (query, last, want) in &BEHIND {
        let queries = text(&rt, rt.alloc(), &[("ep=a&", 1), (*query, 700), (*last, 1)]);
        check_post(&rt, rt.alloc(), "rd", queries.as_str(), "</>", want);
    }
}

/// A payload of over 8,192 bytes stands in no datagram.
/// Tries: understand
#[test]
fn more_than_a_datagram_is_too_large(rt: HostRuntime) {
    let payload = text(&rt, rt.alloc(), &[("x", 8193)]);
    check_post(&rt, rt.alloc(), "rd", "ep=a", payload.as_str(), "608d0001");
}
