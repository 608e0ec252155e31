use crate::question::Question;
use bytes::Bytes;
use lw_reg::{Addr, Path};
use lw_stamp::{Moment, Stamp};

/// A call of a node.
#[derive(Drop)]
pub enum Call {
    /// A datagram comes, at a moment, from an address.
    Take {
        now: Moment,
        from: Addr,
        bytes: Bytes,
    },
    /// A path of the registration with the identifier is to be observed.
    Observe {
        now: Moment,
        id: Stamp,
        path: Path,
        accept: Option<u16>,
        mid: u16,
    },
    /// The observation with the token is to end.
    Cancel {
        now: Moment,
        token: Stamp,
        mid: u16,
    },
    /// A delta since a change number is to be sent.
    Send {
        since: u64,
    },
    /// A delta is to be merged.
    Merge {
        bytes: Bytes,
    },
    Ask {
        now: Moment,
        question: Question,
    },
    /// The first registration that has expired at a moment is to end.
    Sweep {
        now: Moment,
    },
}
