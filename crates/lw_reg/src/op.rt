use crate::{Addr, Endpoint, GivenSettings, Path, Settings, Version};
use lw_stamp::{Moment, Stamp};

/// An operation on a registration.
#[derive(Drop)]
pub struct Op {
    pub stamp: Stamp,
    pub endpoint: Endpoint,
    /// The registration that it is about: the stamp of its Register, which a Register has itself.
    pub reg: Stamp,
    pub what: What,
}

/// What an operation does.
#[derive(Drop)]
pub enum What {
    Register {
        version: Version,
        /// Whether it asks for queue mode.
        queue: bool,
        address: Addr,
        seen: Moment,
        settings: Settings,
    },
    /// Writes the address, the moment, and each setting that is given.
    Update {
        address: Addr,
        seen: Moment,
        settings: GivenSettings,
    },
    Remove,
    /// The operation's stamp is the token.
    Observe {
        path: Path,
        accept: Option<u16>,
    },
    /// Ends the observation of the path with that token.
    Cancel {
        path: Path,
        token: Stamp,
    },
    /// What was seen of it up to this stamp is over.
    Expire {
        upto: Stamp,
    },
}
