//! Bodies that come in blocks: what the store takes of the datagrams of a turn, and what answers them.

ghost use Rattle.std.specs.Prelude.{◌≡◌, ◌+◌, ◌<◌, ◌≤◌, ◌++◌, ◌∷◌, [], List, map, option_map, filter_map, IfOk, OnErr, OnOk, vec_len, vec_capacity};
ghost use Rattle.std.specs.Option.{option_to_list};
ghost use Rattle.std.specs.List.{list_any, AllZip};
ghost use Rattle.lw_server.specs.Blocks.{answered, call_of, has_block as has_block_in, lacks_block as lacks_block_in, made, with_blocks as with_blocks_in, AreHandled, GoOn, IsHandled, NamesBlock};
ghost use Rattle.lw_server.specs.inner.Sorting.{arrival_of, AreSorted, Puts};
ghost use Rattle.lw_call.specs.declared.call.Call.TheVariants.{Take};

use bytes::Bytes;
use lw_call::{Call, Reply};
use lw_messaging::{Block, Bodies, Piece, with_block};
use lw_reg::Addr;
use lw_stamp::{Moment, NoMemory};
use lw_udp::Datagram;
use std::alloc::Global;

/// Where a call of the store comes from.
#[derive(Drop)]
pub(crate) struct Origin {
    pub(crate) from: Addr,
    /// The datagram as it came; of a body in blocks, the last.
    pub(crate) bytes: Bytes,
    /// The block that the reply has to name.
    pub(crate) block: Option<Block>,
}

/// A datagram that is answered, or is owed no answer.
#[derive(Drop)]
pub(crate) struct Handled {
    pub(crate) from: Addr,
    /// The datagram as it came.
    pub(crate) bytes: Bytes,
    pub(crate) reply: Option<Vec<u8>>,
    /// Whether there was no memory to name the block in the reply.
    pub(crate) lacks_block: bool,
}

/// The datagrams of a turn: what the store is called for, each call with where it comes from, and what is answered
/// without it.
#[derive(Drop)]
pub(crate) struct Sorted {
    pub(crate) calls: Vec<Call>,
    pub(crate) origins: Vec<Origin>,
    pub(crate) handled: Vec<Handled>,
}

impl Sorted {
    fn new(alloc: Global) -> Sorted
        ensures calls { result.calls.items ≡ [] }
        ensures origins { result.origins.items ≡ [] }
        ensures handled { result.handled.items ≡ [] }
    {
        Sorted {
            calls: Vec::new(alloc),
            origins: Vec::new(alloc),
            handled: Vec::new(alloc),
        }
    }

    /// Puts a datagram, of which this became among the bodies, behind the others.
    fn put(&mut self, now: Moment, datagram: Datagram, piece: Piece) -> Result<(), NoMemory>
        ensures { OnOk result (Puts now self.old (arrival_of datagram piece) self.new) }
    {
        let Datagram { from, bytes } = datagram;
        match piece {
            Piece::Through => {
                let message = bytes.clone()?;
                let block = None;
                self.put_call(now, message, Origin { from, bytes, block })
            }
            Piece::Answered(reply) => self.put_answered(from, bytes, reply),
            Piece::Whole { message, block } => {
                let message = Bytes::from_vec(message)?;
                let block = Some(block);
                self.put_call(now, message, Origin { from, bytes, block })
            }
        }
    }

    fn put_call(&mut self, now: Moment, message: Bytes, origin: Origin) -> Result<(), NoMemory>
        ensures calls { OnOk result
            (self.new.calls.items ≡ self.old.calls.items ++ Take now origin.from message ∷ []) }
        ensures origins { OnOk result (self.new.origins.items ≡ self.old.origins.items ++ origin ∷ []) }
        ensures handled { OnOk result (self.new.handled.items ≡ self.old.handled.items) }
    {
        let from = origin.from;
        self.calls.push(Call::Take {
            now,
            from,
            bytes: message,
        })?;
        self.origins.push(origin)?;
        Ok(())
    }

    fn put_answered(&mut self, from: Addr, bytes: Bytes, reply: Vec<u8>) -> Result<(), NoMemory>
        ensures calls { OnOk result (self.new.calls.items ≡ self.old.calls.items) }
        ensures origins { OnOk result (self.new.origins.items ≡ self.old.origins.items) }
        ensures handled { OnOk result
            (self.new.handled.items ≡ self.old.handled.items ++ answered from bytes reply ∷ []) }
    {
        self.handled.push(Handled {
            from,
            bytes,
            reply: Some(reply),
            lacks_block: false,
        })?;
        Ok(())
    }

    /// A count of blocks after this turn.
    pub(crate) fn with_blocks(&self, count: u64) -> u64
        ensures { result ≡ with_blocks_in count self.now.handled.items self.now.origins.items }
    {
        let whole = self
            .origins
            .iter()
            .filter(|origin| origin.block.is_some())
            .count();
        let blocks = self.handled.len().saturating_add(whole);
        count.saturating_add(blocks as u64)
    }
}

/// The datagrams, each among the bodies that those before it left: the store is called at the moment, and the bodies go
/// by the one that never goes back. Where there is no memory for all, the bodies are those after some of them.
pub(crate) fn sort(
    alloc: Global,
    bodies: &mut Bodies,
    now: Moment,
    steady: Moment,
    fresh: Vec<Datagram>,
) -> Result<Sorted, NoMemory>
    ensures sorted { IfOk result (λ sorted. AreSorted now steady bodies.old fresh.items sorted bodies.new) }
    ensures memory { OnErr result (GoOn steady bodies.old fresh.items bodies.new) }
{
    let mut sorted = Sorted::new(alloc);
    for datagram in fresh {
        let piece = bodies.take(steady, datagram.from, &datagram.bytes)?;
        sorted.put(now, datagram, piece)?;
    }
    Ok(sorted)
}

/// Puts the calls that were made, with their replies, behind what is handled. There is room for as many as there are
/// origins.
pub(crate) fn put_handled(
    alloc: Global,
    origins: Vec<Origin>,
    replies: Vec<Reply>,
    handled: &mut Vec<Handled>,
)
    requires room { vec_len handled.old + vec_len origins ≤ vec_capacity handled.old }
    ensures handled { (more : List Handled) × ((handled.new.items ≡ handled.old.items ++ more)
        × AreHandled origins.items replies.items more) }
    ensures capacity { vec_capacity handled.new ≡ vec_capacity handled.old }
{
    let mut replies = replies.into_iter();
    for origin in origins {
        let Some(reply) = replies.next() else {
            return;
        };
        if let Some(made) = handled_of(alloc, origin, reply) {
            handled.push_reserved(made);
        }
    }
}

/// The call with its reply, if it was made.
fn handled_of(alloc: Global, origin: Origin, reply: Reply) -> Option<Handled>
    ensures { AllZip IsHandled (option_to_list (made origin reply)) (option_to_list result) }
{
    let Reply::Take(Ok(taken)) = reply else {
        return None;
    };
    let Origin { from, bytes, block } = origin;
    let named = name_block(alloc, taken.reply, block);
    Some(Handled {
        from,
        bytes,
        reply: named.reply,
        lacks_block: named.lacks_block,
    })
}

/// A reply that names the block that it answers, or lacks it.
#[derive(Drop)]
struct Named {
    reply: Option<Vec<u8>>,
    lacks_block: bool,
}

/// The reply with the block that it has to name. Where there is no memory for that, it stays as it is.
fn name_block(alloc: Global, reply: Option<Vec<u8>>, block: Option<Block>) -> Named
    ensures { NamesBlock block (option_map (λ r. r.items) reply) (option_map (λ r. r.items) result.reply)
        result.lacks_block }
{
    let Some(block) = block else {
        return Named {
            reply,
            lacks_block: false,
        };
    };
    let Some(reply) = reply else {
        return Named {
            reply: None,
            lacks_block: false,
        };
    };
    match with_block(alloc, &reply, block) {
        Ok(named) => Named {
            reply: Some(named),
            lacks_block: false,
        },
        Err(NoMemory) => Named {
            reply: Some(reply),
            lacks_block: true,
        },
    }
}

/// Whether a reply lacks its block.
pub(crate) fn any_lacks_block(handled: &[Handled]) -> bool
    ensures { result ≡ list_any lacks_block_in handled.now }
{
    handled.iter().any(|handled| handled.lacks_block)
}
