//! Which replies are sent again, and for how long they are kept (RFC 7252, sections 4.2, 4.5 and 4.8.2).

use crate::moments::at;
use lw_messaging::{Bytes, Exchange, Replies, put_message_id};
use lw_reg::Addr;
use lw_stamp::{Moment, NoMemory};
use std::alloc::Global;
use std::process::Abort;
use std::test::Fail;

/// A Register of `ep=a`: confirmable, POST, message ID 7, token 01020304, `rd`.
const REGISTER: &[u8] = b"\x44\x02\x00\x07\x01\x02\x03\x04\xb2rd\x44ep=a";
/// Its first three bytes, which are no header.
const TOO_SHORT: &[u8] = b"\x44\x02\x00";
/// The Register without its last byte.
const REGISTER_CUT: &[u8] = b"\x44\x02\x00\x07\x01\x02\x03\x04\xb2rd\x44ep=";
/// The Register, not confirmable.
const REGISTER_NON: &[u8] = b"\x54\x02\x00\x07\x01\x02\x03\x04\xb2rd\x44ep=a";
/// The Register with message ID 8.
const REGISTER_8: &[u8] = b"\x44\x02\x00\x08\x01\x02\x03\x04\xb2rd\x44ep=a";
/// The Register with another endpoint.
const REGISTER_B: &[u8] = b"\x44\x02\x00\x07\x01\x02\x03\x04\xb2rd\x44ep=b";

const CREATED: &[u8] = b"\x64\x41\x00\x07\x01\x02\x03\x04\x82rd\x041234";

const REFUSED: &[u8] = b"\x64\x80\x00\x07\x01\x02\x03\x04";

const DEVICE: Addr = Addr::V4 {
    address: [192, 0, 2, 1],
    port: 5683,
};

const OTHER_PORT: Addr = Addr::V4 {
    address: [192, 0, 2, 1],
    port: 5684,
};

const OTHER_ADDRESS: Addr = Addr::V4 {
    address: [192, 0, 2, 2],
    port: 5683,
};
/// The address of the device inside IPv6, which is another one.
const MAPPED: Addr = Addr::V6 {
    address: [0, 0, 0, 0, 0, 0, 0, 0, 0, 0, 0xff, 0xff, 192, 0, 2, 1],
    port: 5683,
};

/// When the request was answered, in milliseconds.
const ANSWERED: u64 = 1_000_000;

/// What was replied to a request: it is not known, it was owed no reply, or there was one.
type Replied = Option<Option<&'static [u8]>>;

const FORGOTTEN: Replied = None;

const UNANSWERED: Replied = Some(None);

const WAS_CREATED: Replied = Some(Some(CREATED));

const WAS_REFUSED: Replied = Some(Some(REFUSED));

/// A copy of the bytes.
fn copied(rt: &impl Abort, alloc: Global, bytes: &[u8]) -> Bytes {
    Bytes::copy_from_slice(alloc, bytes).expect(rt, "memory")
}

/// Where a request comes from, and its bytes.
type Request<'a> = (Addr, &'a [u8]);

/// Keeps an exchange of a moment.
fn keep(
    rt: &impl Abort,
    alloc: Global,
    replies: &mut Replies,
    ms: u64,
    request: Request<'_>,
    reply: Option<&[u8]>,
) {
    let (from, bytes) = request;
    let bytes = copied(rt, alloc, bytes);
    let reply = match reply {
        Some(reply) => Some(copied(rt, alloc, reply)),
        None => None,
    };
    let exchange = Exchange {
        moment: at(ms),
        from,
        bytes,
        reply,
    };
    replies.keep(exchange).expect(rt, "memory");
}

/// Whether that is what was replied to a request, if it comes again at a moment.
fn is_replied(replies: &Replies, ms: u64, request: Request<'_>, want: Replied) -> bool {
    let (from, bytes) = request;
    replies.again(at(ms), from, bytes) == want
}

/// What is done with a request, at a moment in milliseconds.
#[derive(Clone, Copy)]
enum Done {
    /// It is kept with the reply, if it was owed one.
    Keep(u64, Request<'static>, Option<&'static [u8]>),
    /// It comes again, and this was replied to it.
    Again(u64, Request<'static>, Replied),
}

/// The Register of the device is answered by a 2.01.
const REGISTERED: Done = Done::Keep(ANSWERED, (DEVICE, REGISTER), Some(CREATED));

/// A name, and what is done one after another.
type Course = (&'static str, &'static [Done]);

/// What is replied, kept and forgotten.
static COURSES: [Course; 6] = [
    (
        "nothing is known at first",
        &[Done::Again(ANSWERED, (DEVICE, REGISTER), FORGOTTEN)],
    ),
    (
        "a reply is sent again for 247 seconds, and where the clock went back",
        &[
            REGISTERED,
            Done::Again(ANSWERED, (DEVICE, REGISTER), WAS_CREATED),
            Done::Again(ANSWERED + 1, (DEVICE, REGISTER), WAS_CREATED),
            Done::Again(ANSWERED - 1, (DEVICE, REGISTER), WAS_CREATED),
            Done::Again(ANSWERED + 246_000, (DEVICE, REGISTER), WAS_CREATED),
            Done::Again(ANSWERED - 246_000, (DEVICE, REGISTER), WAS_CREATED),
            Done::Again(ANSWERED + 247_000, (DEVICE, REGISTER), WAS_CREATED),
            Done::Again(ANSWERED - 247_000, (DEVICE, REGISTER), WAS_CREATED),
            Done::Again(ANSWERED + 247_001, (DEVICE, REGISTER), FORGOTTEN),
            Done::Again(ANSWERED - 247_001, (DEVICE, REGISTER), FORGOTTEN),
            Done::Again(ANSWERED + 248_000, (DEVICE, REGISTER), FORGOTTEN),
            Done::Again(ANSWERED - 248_000, (DEVICE, REGISTER), FORGOTTEN),
        ],
    ),
    (
        "other requests are not known",
        &[
            REGISTERED,
            Done::Again(ANSWERED, (DEVICE, REGISTER_8), FORGOTTEN),
            Done::Again(ANSWERED, (DEVICE, REGISTER_B), FORGOTTEN),
            Done::Again(ANSWERED, (DEVICE, REGISTER_NON), FORGOTTEN),
            Done::Again(ANSWERED, (DEVICE, REGISTER_CUT), FORGOTTEN),
            Done::Again(ANSWERED, (DEVICE, TOO_SHORT), FORGOTTEN),
            Done::Again(ANSWERED, (OTHER_PORT, REGISTER), FORGOTTEN),
            Done::Again(ANSWERED, (OTHER_ADDRESS, REGISTER), FORGOTTEN),
            Done::Again(ANSWERED, (MAPPED, REGISTER), FORGOTTEN),
        ],
    ),
    (
        "each source has its own reply",
        &[
            REGISTERED,
            Done::Keep(ANSWERED, (MAPPED, REGISTER), Some(REFUSED)),
            Done::Keep(ANSWERED, (OTHER_PORT, REGISTER_NON), None),
            Done::Again(ANSWERED + 1, (DEVICE, REGISTER), WAS_CREATED),
            Done::Again(ANSWERED + 1, (MAPPED, REGISTER), WAS_REFUSED),
            Done::Again(ANSWERED + 1, (OTHER_PORT, REGISTER_NON), UNANSWERED),
        ],
    ),
    (
        "other bytes under a message ID take its place",
        &[
            REGISTERED,
            Done::Keep(ANSWERED + 1, (DEVICE, REGISTER_B), Some(REFUSED)),
            Done::Again(ANSWERED + 2, (DEVICE, REGISTER), FORGOTTEN),
            Done::Again(ANSWERED + 2, (DEVICE, REGISTER_B), WAS_REFUSED),
            Done::Keep(ANSWERED + 3, (DEVICE, REGISTER), Some(CREATED)),
            Done::Again(ANSWERED + 2, (DEVICE, REGISTER), WAS_CREATED),
            Done::Again(ANSWERED + 2, (DEVICE, REGISTER_B), FORGOTTEN),
        ],
    ),
    (
        "the old go where another is kept",
        &[
            REGISTERED,
            Done::Keep(ANSWERED + 247_000, (OTHER_PORT, REGISTER), None),
            Done::Again(ANSWERED, (DEVICE, REGISTER), WAS_CREATED),
            Done::Keep(ANSWERED + 247_001, (OTHER_ADDRESS, REGISTER), None),
            Done::Again(ANSWERED, (DEVICE, REGISTER), FORGOTTEN),
            Done::Again(ANSWERED + 247_001, (OTHER_PORT, REGISTER), UNANSWERED),
        ],
    ),
];

/// Tries: lw_messaging::Replies::new, lw_messaging::Replies::again, lw_messaging::Replies::keep
#[test]
fn a_reply_is_sent_again_while_it_is_kept(rt: HostRuntime) {
    for (name, course) in &COURSES {
        let mut replies = Replies::new(rt.alloc());
        for (place, done) in course.iter().enumerate() {
            match *done {
                Done::Keep(ms, request, reply) => {
                    keep(&rt, rt.alloc(), &mut replies, ms, request, reply);
                }
                Done::Again(ms, request, want) => {
                    let is_so = is_replied(&replies, ms, request, want);
                    assert!(rt; is_so, "{name}: {place}");
                }
            }
        }
    }
}

/// A request with a message ID.
fn request(id: u16) -> [u8; 4] {
    let [high, low] = id.to_be_bytes();
    [0x40, 0x02, high, low]
}

/// Tries: lw_messaging::Replies::again, lw_messaging::Replies::keep
#[test]
fn no_more_than_65536_are_kept(rt: HostRuntime) {
    let alloc = rt.alloc();
    let mut replies = Replies::new(alloc);
    let first = (DEVICE, REGISTER);
    keep(&rt, alloc, &mut replies, ANSWERED, first, Some(CREATED));
    for id in 0..65_535 {
        let another = request(id);
        keep(
            &rt,
            alloc,
            &mut replies,
            ANSWERED,
            (OTHER_PORT, &another),
            None,
        );
    }
    assert!(rt; is_replied(&replies, ANSWERED, first, WAS_CREATED));
    let last = request(65_535);
    keep(
        &rt,
        alloc,
        &mut replies,
        ANSWERED,
        (OTHER_PORT, &last),
        None,
    );
    assert!(rt; is_replied(&replies, ANSWERED, first, FORGOTTEN));
    for id in [0, 65_535] {
        let another = request(id);
        let is_so = is_replied(&replies, ANSWERED, (OTHER_PORT, &another), UNANSWERED);
        assert!(rt; is_so, "{id}");
    }
}

/// Tries: lw_messaging::Replies::again, lw_messaging::Replies::keep
#[test]
fn no_more_than_16_mebibytes_are_kept(rt: HostRuntime) {
    let alloc = rt.alloc();
    let mut replies = Replies::new(alloc);
    // 2,048 requests of 8,192 bytes have 16 MiB.
    let mut long = Vec::from_slice(alloc, &request(0)).expect(&rt, "memory");
    long.resize(8_192, 0).expect(&rt, "memory");
    for id in 0..2_048 {
        put_message_id(&mut long, id);
        keep(&rt, alloc, &mut replies, ANSWERED, (DEVICE, &long), None);
    }
    put_message_id(&mut long, 0);
    assert!(rt; is_replied(&replies, ANSWERED, (DEVICE, &long), UNANSWERED));
    keep(
        &rt,
        alloc,
        &mut replies,
        ANSWERED,
        (OTHER_PORT, &[]),
        Some(&[0]),
    );
    assert!(rt; is_replied(&replies, ANSWERED, (DEVICE, &long), FORGOTTEN));
    put_message_id(&mut long, 1);
    assert!(rt; is_replied(&replies, ANSWERED, (DEVICE, &long), UNANSWERED));
}

/// Tries: lw_messaging::Replies::again, lw_messaging::Replies::keep
#[test]
fn what_is_too_long_for_all_is_not_kept(rt: HostRuntime) {
    let alloc = rt.alloc();
    let mut replies = Replies::new(alloc);
    let first = (DEVICE, REGISTER);
    keep(&rt, alloc, &mut replies, ANSWERED, first, Some(CREATED));
    let long = vec![in alloc; 0x40; 16_777_217].expect(&rt, "memory");
    keep(
        &rt,
        alloc,
        &mut replies,
        ANSWERED,
        (OTHER_PORT, &long),
        None,
    );
    assert!(rt; is_replied(&replies, ANSWERED, (OTHER_PORT, &long), FORGOTTEN));
    assert!(rt; is_replied(&replies, ANSWERED, first, FORGOTTEN));
    keep(&rt, alloc, &mut replies, ANSWERED, first, Some(CREATED));
    assert!(rt; is_replied(&replies, ANSWERED, first, WAS_CREATED));
}

/// How many requests are kept one after another.
const REQUESTS: u16 = 40;

/// Whether each request below the end is known, and no other.
fn knows_only_below(replies: &Replies, now: Moment, end: u16) -> bool {
    for id in 0..REQUESTS {
        let want = (id < end).then_some(None);
        if replies.again(now, DEVICE, &request(id)) != want {
            return false;
        }
    }
    true
}

/// A request of the device that was owed no reply.
fn exchange(alloc: Global, now: Moment, id: u16) -> Result<Exchange, NoMemory> {
    Ok(Exchange {
        moment: now,
        from: DEVICE,
        bytes: Bytes::copy_from_slice(alloc, &request(id))?,
        reply: None,
    })
}

/// Whether a request is kept behind those below it. Where that is refused it leaves them, and is made again.
fn keeps(alloc: Global, replies: &mut Replies, now: Moment, id: u16) -> Result<bool, NoMemory> {
    if replies.keep(exchange(alloc, now, id)?).is_ok() {
        return Ok(knows_only_below(replies, now, id.saturating_add(1)));
    }
    let left = knows_only_below(replies, now, id);
    replies.keep(exchange(alloc, now, id)?)?;
    Ok(left && knows_only_below(replies, now, id.saturating_add(1)))
}

/// Tries: lw_messaging::Replies::keep
#[test]
fn a_refused_keep_leaves_what_is_kept(rt: HostRuntime) -> Result<(), Fail> {
    let mut replies = Replies::new(rt.alloc());
    for id in 0..REQUESTS {
        let kept = keeps(rt.alloc(), &mut replies, at(ANSWERED), id)?;
        assert!(rt; kept, "request {id}");
    }
    Ok(())
}
