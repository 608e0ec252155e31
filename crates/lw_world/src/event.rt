use lw_node::{Addr, Bytes, Path, Question};
use lw_stamp::{Moment, Stamp};

/// What happens at a node of a run.
#[derive(Drop)]
pub struct Event {
    /// The number of the node, from 1. It may be of no node.
    pub node: u16,
    pub action: Action,
}

/// What a node of a run does.
#[derive(Drop)]
pub enum Action {
    /// It takes a datagram, at a moment, from an address.
    Take {
        now: Moment,
        from: Addr,
        bytes: Bytes,
    },
    /// It observes a path of the registration with the identifier.
    Observe {
        now: Moment,
        id: Stamp,
        path: Path,
        accept: Option<u16>,
        mid: u16,
    },
    /// It ends the observation with the token.
    Cancel {
        now: Moment,
        token: Stamp,
        mid: u16,
    },
    /// It ends the first registration that has expired at a moment.
    Sweep {
        now: Moment,
    },
    /// It answers a question.
    Ask {
        now: Moment,
        question: Question,
    },
    /// It sends a delta since a change number, which becomes the next message.
    Send {
        since: u64,
    },
    /// A message reaches it: the first is number 0. There may be none of the number.
    Deliver {
        message: usize,
    },
}
