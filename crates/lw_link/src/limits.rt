//! The bounds of a list of links.

/// The most links that a list has.
pub const MAX_LINKS: usize = 256;
