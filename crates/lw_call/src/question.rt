use lw_reg::{Addr, Path, Text};
use lw_stamp::Stamp;

/// What can be asked of a node at a moment.
#[derive(Drop)]
pub enum Question {
    ById(Stamp),
    ByEndpoint(Text),
    ByAddress(Addr),
    ByToken(Stamp),
    /// Of the registration with the identifier, the live watch on the least path above the given one, or of all.
    WatchAfter { id: Stamp, after: Option<Path> },
    /// The least shown endpoint above the given one, or of all.
    FirstAfter(Option<Text>),
    /// The least expired endpoint above the given one, or of all.
    ExpiredAfter(Option<Text>),
    /// The change number.
    Change,
}
