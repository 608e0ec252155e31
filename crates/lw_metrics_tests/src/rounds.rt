//! Rounds by hand: which calls were made, and what they gave.

use bytes::Bytes;
use lw_call::{Answer, Call, ClockEnd, MergeFault, Notice, ObserveFault, Reply, Taken};
use lw_metrics::Tally;
use lw_reg::{Addr, Path, Text};
use lw_stamp::{Moment, NoMemory, Stamp};
use std::alloc::Global;
use std::process::Abort;

/// A call.
pub(crate) enum Made {
    Take,
    Merge,
    Send,
    Sweep,
}

/// What a call gave.
pub(crate) enum Gave {
    /// The bytes of a reply.
    Reply(&'static [u8]),
    /// A datagram that is owed no reply.
    NoReply,
    /// What a device tells of an observation, and the bytes of a reply.
    NoticeAndReply(&'static [u8]),
    /// What a device tells of an observation, with no reply.
    Notice,
    /// A sweep that has ended a registration.
    Swept,
    /// Something else, by a number.
    Other(u8),
    /// Want of memory, by a number.
    NoMemory(u8),
}

/// A round: the calls that were made, and what calls gave.
pub(crate) type Round = (&'static [Made], &'static [Gave]);

const REGISTRATION: Stamp = Stamp {
    counter: 9,
    node: 1,
};

/// Where the device is.
const HOME: Addr = Addr::V4 {
    address: [192, 0, 2, 7],
    port: 5683,
};

/// Counts a round.
pub(crate) fn count(rt: &impl Abort, alloc: Global, tally: &mut Tally, round: &Round) {
    let (made, gave) = round;
    let mut calls = Vec::new(alloc);
    for call in *made {
        calls.push(call_of(rt, alloc, call)).expect(rt, "memory");
    }
    let mut replies = Vec::new(alloc);
    for reply in *gave {
        replies
            .push(reply_of(rt, alloc, reply))
            .expect(rt, "memory");
    }
    tally.count(&calls, &replies);
}

fn call_of(rt: &impl Abort, alloc: Global, made: &Made) -> Call {
    let now = Moment::START;
    match made {
        Made::Take => Call::Take {
            now,
            from: HOME,
            bytes: one_byte(rt, alloc),
        },
        Made::Merge => Call::Merge {
            bytes: one_byte(rt, alloc),
        },
        Made::Send => Call::Send { since: 7 },
        Made::Sweep => Call::Sweep { now },
    }
}

fn one_byte(rt: &impl Abort, alloc: Global) -> Bytes {
    let bytes = [0x40].to_vec(alloc).expect(rt, "memory");
    Bytes::from_vec(bytes).expect(rt, "memory")
}

fn reply_of(rt: &impl Abort, alloc: Global, gave: &Gave) -> Reply {
    match gave {
        Gave::Reply(bytes) => taken(rt, alloc, Some(*bytes), None),
        Gave::NoReply => taken(rt, alloc, None, None),
        Gave::NoticeAndReply(bytes) => taken(rt, alloc, Some(*bytes), Some(notice(rt, alloc))),
        Gave::Notice => taken(rt, alloc, None, Some(notice(rt, alloc))),
        Gave::Swept => Reply::Sweep(Ok(Some(REGISTRATION))),
        Gave::Other(number) => other(*number),
        Gave::NoMemory(number) => want_of_memory(*number),
    }
}

fn taken(rt: &impl Abort, alloc: Global, bytes: Option<&[u8]>, notice: Option<Notice>) -> Reply {
    let reply = match bytes {
        Some(bytes) => Some(bytes.to_vec(alloc).expect(rt, "memory")),
        None => None,
    };
    Reply::Take(Ok(Taken { reply, notice }))
}

fn other(number: u8) -> Reply {
    match number {
        0 => Reply::Merge(Ok(3)),
        1 => Reply::Sweep(Ok(None)),
        2 => Reply::Sweep(Err(ClockEnd)),
        3 => Reply::Ask(Ok(Answer::Changed(7))),
        4 => Reply::Observe(Err(ObserveFault::NotFound)),
        _ => Reply::Cancel(Err(ObserveFault::ClockEnd)),
    }
}

fn want_of_memory(number: u8) -> Reply {
    match number {
        0 => Reply::Take(Err(NoMemory)),
        1 => Reply::Observe(Err(ObserveFault::NoMemory)),
        2 => Reply::Cancel(Err(ObserveFault::NoMemory)),
        3 => Reply::Send(Err(NoMemory)),
        4 => Reply::Merge(Err(MergeFault::NoMemory { joined: 2 })),
        _ => Reply::Ask(Err(NoMemory)),
    }
}

/// What a device tells of the resource 3303/0/5700.
fn notice(rt: &impl Abort, alloc: Global) -> Notice {
    Notice {
        token: REGISTRATION,
        id: REGISTRATION,
        endpoint: Text::copy_of(alloc, "lamp").expect(rt, "memory"),
        path: Path::new(&[3303, 0, 5700]).expect(rt, "a path"),
        code: 0x45,
        observe: Some(7),
        format: None,
        ended: false,
        payload: Vec::new(alloc),
    }
}
