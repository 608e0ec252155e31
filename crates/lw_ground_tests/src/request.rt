use crate::hold::text_of;
use lw_coap::{Kind, Message, codes, decode, decode_lent};
use lw_request::*;
use lw_stamp::Stamp;
use shown::shown;
use std::alloc::Global;
use std::process::Abort;

mod bounds;
mod cases;
mod shown;

/// The bytes of an answer to a message, in hex.
fn answered(
    rt: &impl Abort,
    alloc: Global,
    message: &Message,
    code: u8,
    location: Option<Stamp>,
) -> String {
    let token = message.token.as_slice();
    assert!(rt;
        message.kind == Kind::Con || message.kind == Kind::Non,
        "a request"
    );
    assert!(rt; token.len() <= 8 && code != 0, "an answer");
    let bytes = answer(alloc, message.kind, message.mid, token, code, location);
    hex::encode(alloc, &bytes.expect(rt, "memory")).expect(rt, "memory")
}

/// A meaning: a refusal as the bytes of its answer, and any other in words.
fn meaning(rt: &impl Abort, alloc: Global, message: &Message, asked: &Asked) -> String {
    match asked {
        Asked::Refuse(refusal) => answered(rt, alloc, message, refusal.code(), None),
        _ => shown(rt, alloc, asked),
    }
}

/// What a message means.
fn told(rt: &impl Abort, alloc: Global, message: &Message) -> String {
    let asked = understand(alloc, message).expect(rt, "memory");
    meaning(rt, alloc, message, &asked)
}

/// What the message means where it lies in its datagram.
fn told_lent(rt: &impl Abort, alloc: Global, datagram: &[u8], message: &Message) -> String {
    let lent = decode_lent(alloc, datagram).expect(rt, "a message");
    let asked = understand_lent(alloc, &lent.lend()).expect(rt, "memory");
    meaning(rt, alloc, message, &asked)
}

fn bytes_of(rt: &impl Abort, alloc: Global, datagram: &str) -> Vec<u8> {
    hex::decode(alloc, datagram).expect(rt, "bytes in hex")
}

fn check_meaning(rt: &impl Abort, alloc: Global, datagram: &str, want: &str) {
    let bytes = bytes_of(rt, alloc, datagram);
    let message = decode(alloc, &bytes).expect(rt, "a message");
    let meant = told(rt, alloc, &message);
    assert!(rt; meant.as_str() == want, "{datagram}: {meant}");
    let lent = told_lent(rt, alloc, &bytes, &message);
    assert!(rt; lent.as_str() == want, "{datagram}, lent: {lent}");
}

/// The datagram of a case, and what it means.
fn case_of(line: &str) -> Option<(&str, &str)> {
    let (_what, means) = line.split_once(": ")?;
    means.split_once(" -> ")
}

/// Looks at cases, a line each: what it is, its datagram in hex, and what that means.
fn check(rt: &impl Abort, alloc: Global, cases: &str) {
    for line in cases.trim().lines() {
        let (datagram, want) = case_of(line).expect(rt, "a case");
        check_meaning(rt, alloc, datagram, want);
    }
}

/// Tries: understand, understand_lent
#[test]
fn requests_have_meanings(rt: HostRuntime) {
    for cases in &cases::MEANINGS {
        check(&rt, rt.alloc(), cases);
    }
}

/// Tries: understand, Refusal::code
#[test]
fn the_first_cause_refuses(rt: HostRuntime) {
    for cases in &cases::CAUSES {
        check(&rt, rt.alloc(), cases);
    }
}

/// The front of a datagram, what is repeated behind it and how often, and what that means.
static LONG: [(&str, &str, usize, &str); 9] = [
    // a query of 255 bytes on a DELETE, and of 256 on it, on a POST and on a non-confirmable DELETE
    (
        "40040001b272640d03303030303030303030303031303030314df2",
        "61",
        255,
        "deregister 0000000000010001",
    ),
    (
        "40040001b272640d03303030303030303030303031303030314df3",
        "61",
        256,
        "60820001",
    ),
    (
        "40020001b272640d03303030303030303030303031303030314df3",
        "61",
        256,
        "60820001",
    ),
    (
        "50040001b272640d03303030303030303030303031303030314df3",
        "61",
        256,
        "reject",
    ),
    // 257 links
    (
        "40020004b272644465703d61ff3c2f3e",
        "2c3c2f3e",
        256,
        "608d0004",
    ),
    (
        "50020004b272644465703d61ff3c2f3e",
        "2c3c2f3e",
        256,
        "508d0004",
    ),
    ("40020004b272640178ff3c2f3e", "2c3c2f3e", 256, "608d0004"),
    // a bad lifetime, and another version
    (
        "40020004b272644465703d61046c743d78ff3c2f3e",
        "2c3c2f3e",
        256,
        "60800004",
    ),
    (
        "40020004b272644465703d61096c776d326d3d312e32ff3c2f3e",
        "2c3c2f3e",
        256,
        "608c0004",
    ),
];

/// Tries: understand
#[test]
fn long_queries_and_lists_are_refused(rt: HostRuntime) {
    for (front, part, count, want) in &LONG {
        let datagram = text_of(rt.alloc(), &[(*front, 1), (*part, *count)]).expect(&rt, "memory");
        check_meaning(&rt, rt.alloc(), datagram.as_str(), want);
    }
}

/// Tries: understand
#[test]
fn a_list_may_have_256_links(rt: HostRuntime) {
    let links = [("40020004b272644465703d61ff3c2f3e", 1), ("2c3c2f3e", 255)];
    let links = text_of(rt.alloc(), &links).expect(&rt, "memory");
    let want = [("register a 1.0 false 86400 U - </>", 1), (",</>", 255)];
    let want = text_of(rt.alloc(), &want).expect(&rt, "memory");
    check_meaning(&rt, rt.alloc(), links.as_str(), want.as_str());
}

/// Datagrams, the codes of their answers, whether a registration was made, and the answers.
static ANSWERS: [(&str, u8, bool, &str); 5] = [
    (
        "4402000101020304",
        codes::CREATED,
        true,
        "64410001010203048272640d0330303030303030303030303130303031",
    ),
    (
        "480200020102030405060708",
        codes::CREATED,
        true,
        "6841000201020304050607088272640d0330303030303030303030303130303031",
    ),
    (
        "5002000b",
        codes::CREATED,
        true,
        "5041000b8272640d0330303030303030303030303130303031",
    ),
    ("40020010", codes::CHANGED, false, "60440010"),
    ("40040012", codes::DELETED, false, "60420012"),
];

fn is_answered(
    rt: &impl Abort,
    alloc: Global,
    datagram: &str,
    code: u8,
    location: Option<Stamp>,
    want: &str,
) -> bool {
    let bytes = bytes_of(rt, alloc, datagram);
    let message = decode(alloc, &bytes).expect(rt, "a message");
    answered(rt, alloc, &message, code, location).as_str() == want
}

fn empty_answers_have_the_number() -> bool {
    reset(0x0007) == [0x70, 0x00, 0x00, 0x07]
        && reset(0xfedc) == [0x70, 0x00, 0xfe, 0xdc]
        && ack(0x0031) == [0x60, 0x00, 0x00, 0x31]
        && ack(0xfedc) == [0x60, 0x00, 0xfe, 0xdc]
}

/// Tries: answer, reset, ack, lw_coap::encode_lent
#[test]
fn answers_have_the_token_and_the_location(rt: HostRuntime) {
    let made = Stamp::read_id(b"0000000000010001");
    for (datagram, code, is_made, want) in &ANSWERS {
        let location = if *is_made { made } else { None };
        assert!(rt;
            is_answered(&rt, rt.alloc(), datagram, *code, location, want),
            "{datagram}"
        );
    }
    assert!(rt;
        empty_answers_have_the_number(),
        "Resets and acknowledgements"
    );
}
