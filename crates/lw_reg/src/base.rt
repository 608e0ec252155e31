use crate::Version;

/// What a registration keeps as its Register gave it.
///
/// Bases are ordered by version, and then by queue mode, off before on.
#[derive(Clone, Copy, Debug, PartialEq, Eq, PartialOrd, Ord)]
pub struct Base {
    pub version: Version,
    /// Whether the Register asked for queue mode.
    pub queue: bool,
}
