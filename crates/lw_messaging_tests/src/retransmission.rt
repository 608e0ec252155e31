//! When requests are sent, and what answers them (RFC 7252, sections 4.2, 4.8 and 5.2.2).

use crate::moments::at;
use lw_messaging::{MAX_REQUESTS, Matched, MessageIds, OutgoingRequests, Purpose, Step};
use lw_reg::Addr;
use lw_stamp::Stamp;
use std::alloc::Global;
use std::process::Abort;

const DEVICE: Addr = Addr::V4 {
    address: [192, 0, 2, 1],
    port: 5683,
};

const OTHER_PORT: Addr = Addr::V4 {
    address: [192, 0, 2, 1],
    port: 5684,
};

const OTHER_ADDRESS: Addr = Addr::V4 {
    address: [192, 0, 2, 2],
    port: 5683,
};

const TOKEN: Stamp = Stamp {
    counter: 1,
    node: 7,
};

const OTHER_TOKEN: Stamp = Stamp {
    counter: 2,
    node: 7,
};

/// A confirmable GET of `3` with the token a1b2 and no message ID yet.
const REQUEST: &[u8] = b"\x42\x01\x00\x00\xa1\xb2\xb13";

/// A start whose first message ID is 750, 0x02ee, by which the first timeout is 2,750 ms.
const START: u64 = 3_000;

/// The request with that message ID.
const SENT: &[u8] = b"\x42\x01\x02\xee\xa1\xb2\xb13";

/// Puts the request behind the others, as one about this.
fn add(rt: &impl Abort, alloc: Global, requests: &mut OutgoingRequests, purpose: Purpose) {
    let bytes = Vec::from_slice(alloc, REQUEST).expect(rt, "memory");
    requests.reserve().expect(rt, "memory");
    requests.add(at(START), DEVICE, purpose, bytes);
}

/// The request, which begins an observation.
fn one(rt: &impl Abort, alloc: Global) -> OutgoingRequests {
    let mut requests = OutgoingRequests::new(alloc);
    add(rt, alloc, &mut requests, Purpose::Observation(TOKEN));
    requests
}

/// What is done at the moment.
fn step(
    rt: &impl Abort,
    requests: &mut OutgoingRequests,
    ids: &mut MessageIds,
    ms: u64,
) -> Option<Step> {
    requests.step(at(ms), ids).expect(rt, "memory")
}

/// Whether the bytes are sent to the device.
fn is_sent(step: &Option<Step>, want: &[u8], is_again: bool) -> bool {
    match step {
        Some(Step::Send { to, bytes, again }) => {
            *to == DEVICE && bytes.as_slice() == want && *again == is_again
        }
        _ => false,
    }
}

/// Sends the bytes to the device, for the first time or again.
fn sends(
    rt: &impl Abort,
    requests: &mut OutgoingRequests,
    ids: &mut MessageIds,
    ms: u64,
    want: (&[u8], bool),
) {
    let (bytes, is_again) = want;
    let step = step(rt, requests, ids, ms);
    assert!(rt; is_sent(&step, bytes, is_again), "at {ms} ms, {bytes:?}");
}

/// Whether the request about this is given up.
fn has_timed_out(step: &Option<Step>, want: Purpose) -> bool {
    match step {
        Some(Step::TimedOut(purpose)) => *purpose == want,
        _ => false,
    }
}

/// When it is sent, and whether again: after 2,750 ms, and then twice as long each time.
static MOMENTS: [(u64, bool); 5] = [
    (3_000, false),
    (5_750, true),
    (11_250, true),
    (22_250, true),
    (44_250, true),
];

/// When it is given up.
const GIVEN_UP: u64 = 88_250;

/// Tries: lw_messaging::OutgoingRequests::new, lw_messaging::OutgoingRequests::add
/// Tries: lw_messaging::OutgoingRequests::is_due
/// Tries: lw_messaging::OutgoingRequests::step
#[test]
fn a_request_is_sent_five_times(rt: HostRuntime) {
    let mut requests = one(&rt, rt.alloc());
    let mut ids = MessageIds::new(at(START));
    for row in &MOMENTS {
        let (ms, again) = *row;
        let before = ms.saturating_sub(1);
        assert!(rt; !requests.is_due(at(before)), "{before}");
        assert!(rt;
            step(&rt, &mut requests, &mut ids, before).is_none(),
            "{before}"
        );
        assert!(rt; requests.is_due(at(ms)), "{ms}");
        sends(&rt, &mut requests, &mut ids, ms, (SENT, again));
    }
    assert!(rt; !requests.is_due(at(GIVEN_UP - 1)));
    let last = step(&rt, &mut requests, &mut ids, GIVEN_UP);
    assert!(rt; has_timed_out(&last, Purpose::Observation(TOKEN)));
    assert!(rt; requests.count() == 0);
    // Of the message IDs one was taken.
    assert!(rt; ids.next(at(GIVEN_UP), DEVICE) == Some(751));
}

/// Tries: lw_messaging::OutgoingRequests::step
#[test]
fn the_first_that_is_due_is_sent_first(rt: HostRuntime) {
    let mut requests = one(&rt, rt.alloc());
    let mut ids = MessageIds::new(at(START));
    add(&rt, rt.alloc(), &mut requests, Purpose::Rest(4));
    for sent in [SENT, b"\x42\x01\x02\xef\xa1\xb2\xb13"] {
        sends(&rt, &mut requests, &mut ids, START, (sent, false));
    }
    assert!(rt; step(&rt, &mut requests, &mut ids, START).is_none());
}

/// Tries: lw_messaging::OutgoingRequests::step
#[test]
fn a_request_waits_for_a_message_id(rt: HostRuntime) {
    let mut requests = one(&rt, rt.alloc());
    let mut ids = MessageIds::new(at(START));
    for _ in 0..32_768 {
        let _ = ids.next(at(START), DEVICE);
    }
    let first = step(&rt, &mut requests, &mut ids, START);
    assert!(rt; matches!(&first, Some(Step::Postponed)));
    assert!(rt; !requests.is_due(at(3_999)));
    assert!(rt; requests.is_due(at(4_000)));
    // 250,001 is more than 247 s after the start, and 750 + 32,768 is 33,518, 0x82ee.
    let sent = b"\x42\x01\x82\xee\xa1\xb2\xb13";
    sends(&rt, &mut requests, &mut ids, 250_001, (sent, false));
}

const ACKNOWLEDGED: Matched = Matched::Acknowledged(Purpose::Observation(TOKEN));

const RESET: Matched = Matched::Reset(Purpose::Observation(TOKEN));

/// What the device acknowledges its request by.
static ACKNOWLEDGING: [&[u8]; 6] = [
    // An empty acknowledgement, and one with a response.
    b"\x60\x00\x02\xee",
    b"\x62\x45\x02\xee\xa1\xb2\xff5",
    // A response of its own, whose acknowledgement was lost: 2.05, 4.04, 5.00, confirmable or not.
    b"\x42\x45\x77\x77\xa1\xb2\xff5",
    b"\x52\x45\x77\x77\xa1\xb2\xff5",
    b"\x42\x84\x77\x77\xa1\xb2",
    b"\x52\xa0\x77\x77\xa1\xb2",
];

/// A Reset is a header alone.
static RESETTING: [&[u8]; 1] = [b"\x70\x00\x02\xee"];

/// Where a datagram comes from, and its bytes, which say nothing of the request.
static UNHEARD: [(Addr, &[u8]); 19] = [
    // Another source, another message ID, another version, and less than a header.
    (OTHER_PORT, b"\x60\x00\x02\xee"),
    (OTHER_ADDRESS, b"\x60\x00\x02\xee"),
    (DEVICE, b"\x60\x00\x02\xef"),
    (DEVICE, b"\xa0\x00\x02\xee"),
    (DEVICE, b"\x60\x00\x02"),
    (DEVICE, b""),
    // A Reset from another source, of another message ID, and with a byte more.
    (OTHER_ADDRESS, b"\x70\x00\x02\xee"),
    (DEVICE, b"\x70\x00\x02\xef"),
    (DEVICE, b"\x70\x00\x02\xee\xff"),
    // A confirmable or non-confirmable message has the message ID by chance.
    (DEVICE, b"\x40\x00\x02\xee"),
    (DEVICE, b"\x50\x00\x02\xee"),
    // Responses from another source, with other tokens, and with a token that is cut.
    (OTHER_PORT, b"\x42\x45\x77\x77\xa1\xb2\xff5"),
    (DEVICE, b"\x42\x45\x77\x77\xa1\xb3\xff5"),
    (DEVICE, b"\x41\x45\x77\x77\xa1\xb2\xff5"),
    (DEVICE, b"\x40\x45\x77\x77"),
    (DEVICE, b"\x42\x45\x77\x77\xa1"),
    // Requests, and codes of the classes 1 and 6.
    (DEVICE, b"\x42\x01\x77\x77\xa1\xb2"),
    (DEVICE, b"\x42\x3f\x77\x77\xa1\xb2"),
    (DEVICE, b"\x42\xc1\x77\x77\xa1\xb2"),
];

/// What a datagram answers.
fn match_response(requests: &mut OutgoingRequests, from: Addr, bytes: &[u8]) -> Matched {
    requests.match_response(from, bytes)
}

/// Whether a datagram says that of the request, once it is sent. It waits on where that is nothing.
fn matches_as(rt: &impl Abort, alloc: Global, from: Addr, bytes: &[u8], want: Matched) {
    let mut requests = one(rt, alloc);
    let mut ids = MessageIds::new(at(START));
    // What was not sent yet cannot be answered.
    assert!(rt;
        match_response(&mut requests, from, bytes) == Matched::Nothing,
        "{bytes:?}"
    );
    sends(rt, &mut requests, &mut ids, START, (SENT, false));
    assert!(rt;
        match_response(&mut requests, from, bytes) == want,
        "{bytes:?}"
    );
    let left = if want == Matched::Nothing { 1 } else { 0 };
    assert!(rt; requests.count() == left, "{bytes:?}");
}

/// Tries: lw_messaging::OutgoingRequests::match_response
#[test]
fn a_device_answers_its_request(rt: HostRuntime) {
    for bytes in &ACKNOWLEDGING {
        matches_as(&rt, rt.alloc(), DEVICE, bytes, ACKNOWLEDGED);
    }
    for bytes in &RESETTING {
        matches_as(&rt, rt.alloc(), DEVICE, bytes, RESET);
    }
    for (from, bytes) in &UNHEARD {
        matches_as(&rt, rt.alloc(), *from, bytes, Matched::Nothing);
    }
}

/// Tries: lw_messaging::OutgoingRequests::match_response
#[test]
fn a_datagram_answers_one_request(rt: HostRuntime) {
    let mut requests = one(&rt, rt.alloc());
    add(&rt, rt.alloc(), &mut requests, Purpose::Rest(4));
    let mut ids = MessageIds::new(at(START));
    let _ = step(&rt, &mut requests, &mut ids, START);
    let _ = step(&rt, &mut requests, &mut ids, START);
    // Both have the token: the first is answered first.
    for want in [
        ACKNOWLEDGED,
        Matched::Acknowledged(Purpose::Rest(4)),
        Matched::Nothing,
    ] {
        let response = b"\x42\x45\x77\x77\xa1\xb2\xff5";
        assert!(rt;
            match_response(&mut requests, DEVICE, response) == want,
            "{want:?}"
        );
    }
}

/// What is forgotten, one after another, and how many are left of `KNOWN`.
const FORGOTTEN: [(Purpose, usize); 5] = [
    (Purpose::Observation(TOKEN), 3),
    (Purpose::Observation(TOKEN), 3),
    (Purpose::Observation(OTHER_TOKEN), 2),
    (Purpose::Rest(2), 2),
    (Purpose::Rest(1), 1),
];

/// What the requests behind the first are about.
const KNOWN: [Purpose; 4] = [
    Purpose::Observation(OTHER_TOKEN),
    Purpose::Cancellation(TOKEN),
    Purpose::Rest(1),
    Purpose::Observation(TOKEN),
];

/// Tries: lw_messaging::OutgoingRequests::forget
#[test]
fn what_has_the_same_purpose_is_forgotten(rt: HostRuntime) {
    let mut requests = one(&rt, rt.alloc());
    for purpose in &KNOWN {
        add(&rt, rt.alloc(), &mut requests, *purpose);
    }
    for row in &FORGOTTEN {
        let (purpose, left) = *row;
        requests.forget(purpose);
        assert!(rt; requests.count() == left, "{purpose:?}");
    }
}

/// Tries: lw_messaging::OutgoingRequests::reserve, lw_messaging::OutgoingRequests::count
#[test]
fn so_many_wait_at_most(rt: HostRuntime) {
    let mut requests = OutgoingRequests::new(rt.alloc());
    for _ in 0..MAX_REQUESTS {
        add(&rt, rt.alloc(), &mut requests, Purpose::Rest(1));
    }
    assert!(rt; requests.reserve().is_err());
    assert!(rt; requests.count() == 1_536);
}
