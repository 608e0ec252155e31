//! What reading a message costs, whatever a node knows.

use crate::cost::Cost;
use crate::fault::BenchFault;
use crate::messages::{ENDPOINT, MORE_LINKS, attribute_queries, empty_queries, put_register};
use lw_coap::{LentMessage, Message, decode, decode_lent};
use lw_link::LinkText;
use lw_request::{Asked, understand_lent};
use std::alloc::{AllocError, Global};
use std::time::CpuClock;

/// A call on a message.
#[derive(Clone, Copy)]
pub(crate) enum RequestCall {
    /// `decode_lent` and `understand_lent` of a Register.
    Understand,
    /// `understand_lent` of 8,000 empty queries.
    UnderstandQueries,
    /// `understand_lent` of 2,604 attributes.
    UnderstandAttributes,
    /// `LinkText::read` of a printing of 256 links.
    ReadLinks,
}

/// The most bytes of an object list.
const MAX_OBJECTS: usize = 8192;

impl RequestCall {
    /// The cost of so many calls.
    pub(crate) fn round<C: CpuClock>(
        self,
        clock: &C,
        alloc: Global,
        count: u32,
    ) -> Result<Cost, BenchFault> {
        let datagram = self.datagram(alloc)?;
        let message = decode(alloc, &datagram)?;
        self.cost(clock, alloc, &datagram, &message, count)
    }

    fn cost<C: CpuClock>(
        self,
        clock: &C,
        alloc: Global,
        datagram: &[u8],
        message: &Message,
        count: u32,
    ) -> Result<Cost, BenchFault> {
        let start = clock.thread_cpu_time()?;
        for _ in 0..count {
            self.make(alloc, datagram, message)?;
        }
        let bytes = u64::from(count).saturating_mul(datagram.len() as u64);
        Cost::since(clock, start, count, bytes)
    }

    fn datagram(self, alloc: Global) -> Result<Vec<u8>, AllocError> {
        let mut bytes = Vec::new(alloc);
        let queries = self.queries(alloc)?;
        put_register(&mut bytes, ENDPOINT, &queries, self.links())?;
        Ok(bytes)
    }

    fn queries(self, alloc: Global) -> Result<Vec<u8>, AllocError> {
        match self {
            RequestCall::UnderstandQueries => empty_queries(alloc),
            RequestCall::UnderstandAttributes => attribute_queries(alloc),
            RequestCall::Understand | RequestCall::ReadLinks => Ok(Vec::new(alloc)),
        }
    }

    fn links(self) -> u32 {
        if let RequestCall::ReadLinks = self {
            MORE_LINKS
        } else {
            0
        }
    }

    fn make(self, alloc: Global, datagram: &[u8], message: &Message) -> Result<(), BenchFault> {
        match self {
            RequestCall::Understand => {
                let message = decode_lent(alloc, datagram)?;
                understand_register(alloc, &message.lend())
            }
            RequestCall::UnderstandQueries | RequestCall::UnderstandAttributes => {
                understand_register(alloc, &message.lend())
            }
            RequestCall::ReadLinks => read_links(alloc, &message.payload),
        }
    }
}

fn see_register(asked: &Asked) -> Result<(), BenchFault> {
    match asked {
        Asked::Register { .. } => Ok(()),
        _ => Err(BenchFault::Unexpected),
    }
}

fn understand_register(alloc: Global, message: &LentMessage<'_>) -> Result<(), BenchFault> {
    see_register(&understand_lent(alloc, message)?)
}

fn read_links(alloc: Global, text: &[u8]) -> Result<(), BenchFault> {
    if text.len() > MAX_OBJECTS {
        return Err(BenchFault::Unexpected);
    }
    LinkText::read(alloc, text)?;
    Ok(())
}
