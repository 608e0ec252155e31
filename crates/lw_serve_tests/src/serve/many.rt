//! Runs of many datagrams.

use super::runs::{AMPLE, run};
use super::*;

/// A datagram without a reply.
const NOTHING: &[u8] = &[0x80, 0, 0, 7];

/// How many datagrams are taken, how many of them have a reply, and what comes of the run.
static TAKEN: [(u32, usize, &str); 4] = [
    (1, 1, "Ok(()) 1 0 0 0\nsettled\n"),
    (32, 16, "Ok(()) 1 0 0 0\nsettled\n"),
    (33, 17, "Ok(()) 2 0 0 0\nsettled\n"),
    (70, 35, "Ok(()) 3 0 0 0\nsettled\n"),
];

/// Of eighty datagrams that are there at once every second has a reply.
/// Tries: Plan::new, receive
#[test]
fn no_more_is_taken_than_asked_for(rt: HostRuntime) {
    let mut arrivals = Vec::new(rt.alloc());
    for _pair in 0..40 {
        arrivals.push((5683, PING, AtOnce)).expect(&rt, "memory");
        arrivals.push((5683, NOTHING, AtOnce)).expect(&rt, "memory");
    }
    for (count, replies, want) in &TAKEN {
        let mut wire = MemoryWire::new(rt.alloc(), &arrivals);
        let text = run(&rt, &mut wire, (*count, 1, 1, None), &[0], AMPLE);
        assert_eq!(rt; text.as_str(), *want);
        assert_eq!(rt; (wire.taken, wire.sent.len()), (*count as usize, *replies));
    }
}

/// A Register of an endpoint of three digits, whose message ID is the number.
fn register(number: u16) -> [u8; 18] {
    let [high, low] = number.to_be_bytes();
    let (hundreds, tens) = (number / 100 % 10, number / 10 % 10);
    let [hundreds, tens, ones] = [digit(hundreds), digit(tens), digit(number % 10)];
    [
        0x40, 0x02, high, low, 0xb2, b'r', b'd', 0x46, b'e', b'p', b'=', hundreds, tens, ones,
        0xff, b'<', b'/', b'>',
    ]
}

fn digit(number: u16) -> u8 {
    let [_high, low] = number.to_be_bytes();
    low.wrapping_add(b'0')
}

/// When the datagram at the place comes: each seventh and a few more when they are waited for.
fn coming(place: u16) -> Coming {
    if place % 7 == 0 || place % 45 == 3 {
        Alone
    } else {
        AtOnce
    }
}

/// Whether the reply is the 2.01 to the Register of the number, and goes to the port that it came from.
fn is_reply(number: u16, port: u16, reply: &[u8]) -> bool {
    let [high, low] = number.to_be_bytes();
    port == number.wrapping_add(40_000)
        && reply.len() == 25
        && reply.starts_with(&[0x60, 0x41, high, low])
}

/// The replies are those to the Registers, in order.
fn are_replies<R: Abort>(rt: &R, sent: &[(u16, Vec<u8>)]) {
    for (number, (port, reply)) in (0_u16..=u16::MAX).zip(sent) {
        assert!(rt; is_reply(number, *port, reply), "{number}");
    }
}

/// So many Registers, from ports of their own, are served at four nodes by four workers, with the journals cut after so
/// many rounds or never. Each has its reply.
fn are_all_replied_to<R: Threads + Wait + Sync + Abort>(
    rt: &R,
    alloc: Global,
    count: u16,
    cut: Option<u32>,
) {
    let mut datagrams = Vec::new(alloc);
    for number in 0..count {
        datagrams.push(register(number)).expect(rt, "memory");
    }
    let mut arrivals = Vec::new(alloc);
    for (place, datagram) in (0_u16..=u16::MAX).zip(&datagrams) {
        let arrival = (
            place.wrapping_add(40_000),
            datagram.as_slice(),
            coming(place),
        );
        arrivals.push(arrival).expect(rt, "memory");
    }
    let mut wire = MemoryWire::new(alloc, &arrivals);
    let sizes = (u32::from(count), 4, 4, cut);
    let text = run(rt, &mut wire, sizes, &[0], AMPLE);
    assert!(rt;
        text.starts_with("Ok(()) ") && text.ends_with("\nsettled\n"),
        "{text}"
    );
    assert_eq!(rt; wire.sent.len(), datagrams.len());
    are_replies(rt, &wire.sent);
}

/// Tries: serve_on, reply_in, Server::round
#[test]
fn every_request_has_its_reply(rt: HostRuntime) {
    are_all_replied_to(&rt, rt.alloc(), 400, None);
}

/// Tries: serve_on, Server::cut
#[test]
fn every_request_has_its_reply_where_journals_are_cut(rt: HostRuntime) {
    are_all_replied_to(&rt, rt.alloc(), 100, Some(1));
    are_all_replied_to(&rt, rt.alloc(), 100, Some(7));
}
