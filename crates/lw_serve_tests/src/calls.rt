//! Datagrams, the calls that take and ask for them, and what is given as a text.

use hex::FromHexError;
use lw_node::{
    Addr, Answer, Bytes, Call, MergeFault, ObserveFault, Path, Question, Reply, Seen, Sent, Text,
};
use lw_stamp::{Moment, NoMemory, Stamp};
use std::alloc::{AllocError, Global};
use std::process::Abort;

/// A Register of `a` with the object list `</>`, message ID 4.
pub(super) const REGISTER: &str = "40020004b272644465703d61ff3c2f3e";

/// The reply to the first Register with message ID 4 at node 1.
pub(super) const CREATED: &str = "604100048272640d0330303030303030303030303130303031";

/// What is asked of a node. Datagrams and deltas are in hex, addresses are 127.0.0.1:5683, and moments are 0 but for
/// those of sweeps, in milliseconds.
#[derive(Clone, Copy)]
pub(super) enum What<'a> {
    Takes(&'a str),
    Observes(&'a str, &'a [u16], u16),
    Cancels(&'a str, u16),
    Sweeps(u64),
    Sends(u64),
    Merges(&'a str),
    ByEndpoint(&'a str),
}

impl What<'_> {
    pub(super) fn made<R: Abort>(self, rt: &R, alloc: Global) -> Result<Call, NoMemory> {
        let now = Moment::START;
        match self {
            What::Takes(datagram) => take(rt, alloc, datagram),
            What::Observes(id, path, mid) => Ok(Call::Observe {
                now,
                id: stamp(rt, id),
                path: Path::new(path).expect(rt, "a path"),
                accept: None,
                mid,
            }),
            What::Cancels(token, mid) => Ok(Call::Cancel {
                now,
                token: stamp(rt, token),
                mid,
            }),
            What::Sweeps(ms) => Ok(Call::Sweep {
                now: Moment::new(ms).expect(rt, "a moment"),
            }),
            What::Sends(since) => Ok(Call::Send { since }),
            What::Merges(delta) => merge(rt, alloc, delta),
            What::ByEndpoint(endpoint) => ask(alloc, endpoint),
        }
    }
}

fn stamp<R: Abort>(rt: &R, text: &str) -> Stamp {
    Stamp::read_id(text.as_bytes()).expect(rt, "an identifier")
}

/// The bytes that the digits spell.
fn bytes<R: Abort>(rt: &R, alloc: Global, text: &str) -> Result<Bytes, NoMemory> {
    match hex::decode(alloc, text) {
        Ok(bytes) => Ok(Bytes::from_vec(bytes)?),
        Err(fault) => {
            assert_eq!(rt; fault, FromHexError::OutOfMemory);
            Err(NoMemory)
        }
    }
}

fn take<R: Abort>(rt: &R, alloc: Global, datagram: &str) -> Result<Call, NoMemory> {
    Ok(Call::Take {
        now: Moment::START,
        from: Addr::V4 {
            address: [127, 0, 0, 1],
            port: 5683,
        },
        bytes: bytes(rt, alloc, datagram)?,
    })
}

fn merge<R: Abort>(rt: &R, alloc: Global, delta: &str) -> Result<Call, NoMemory> {
    Ok(Call::Merge {
        bytes: bytes(rt, alloc, delta)?,
    })
}

fn ask(alloc: Global, endpoint: &str) -> Result<Call, NoMemory> {
    Ok(Call::Ask {
        now: Moment::START,
        question: Question::ByEndpoint(Text::copy_of(alloc, endpoint)?),
    })
}

/// Whether it is the reply to a call that was refused memory before it changed anything.
pub(super) fn wants_memory(reply: &Reply) -> bool {
    matches!(
        reply,
        Reply::Take(Err(NoMemory))
            | Reply::Observe(Err(ObserveFault::NoMemory))
            | Reply::Cancel(Err(ObserveFault::NoMemory))
            | Reply::Send(Err(NoMemory))
            | Reply::Merge(Err(MergeFault::NoMemory { joined: 0 }))
            | Reply::Ask(Err(NoMemory))
    )
}

pub(super) fn reply_text(alloc: Global, reply: &Reply) -> Result<String, AllocError> {
    match reply {
        Reply::Take(Ok(taken)) => match &taken.reply {
            Some(reply) => hex::encode(alloc, reply),
            None => String::from_str(alloc, "-"),
        },
        Reply::Observe(Ok(outgoing)) | Reply::Cancel(Ok(outgoing)) => {
            hex::encode(alloc, &outgoing.bytes)
        }
        Reply::Send(Ok(sent)) => sent_text(alloc, sent),
        Reply::Merge(Ok(count)) => format!(in alloc; "joined {count}"),
        Reply::Ask(Ok(Answer::Registration(Some(seen)))) => seen_text(alloc, seen),
        Reply::Ask(Ok(_)) => String::from_str(alloc, "-"),
        Reply::Sweep(Ok(Some(id))) => swept_text(alloc, *id),
        Reply::Sweep(Ok(None)) => String::from_str(alloc, "-"),
        Reply::Cancel(Err(fault)) => format!(in alloc; "Cancel(Err({fault:?}))"),
        Reply::Merge(Err(fault)) => format!(in alloc; "Merge(Err({fault:?}))"),
        _ => String::from_str(alloc, "refused"),
    }
}

fn sent_text(alloc: Global, sent: &Sent) -> Result<String, AllocError> {
    let delta = hex::encode(alloc, sent.delta.as_slice())?;
    let change = sent.change;
    format!(in alloc; "{delta} {change}")
}

fn swept_text(alloc: Global, id: Stamp) -> Result<String, AllocError> {
    let id = u64::from_be_bytes(id.to_bytes());
    format!(in alloc; "swept {id:016x}")
}

/// What is shown, its endpoint first and its objects last.
fn seen_text(alloc: Global, seen: &Seen) -> Result<String, AllocError> {
    let Ok(address) = seen.address.print(alloc) else {
        return Err(AllocError);
    };
    shown_at(alloc, seen, &address)
}

fn shown_at(alloc: Global, seen: &Seen, address: &str) -> Result<String, AllocError> {
    let id = u64::from_be_bytes(seen.id.to_bytes());
    let (endpoint, moment) = (seen.endpoint.as_str(), seen.seen.ms());
    let (lifetime, binding) = (seen.lifetime, seen.binding.as_str());
    let (queue, objects) = (seen.queue, seen.objects.as_str());
    format!(in alloc;
        "{endpoint} {id:016x} {address} {moment} {lifetime} {binding} {queue} {objects}"
    )
}
