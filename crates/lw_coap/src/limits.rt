//! The bounds of a message.

/// The most bytes that a message has.
pub const MAX_LENGTH: usize = 8192;

/// How many bytes a header has (RFC 7252, section 3).
pub const HEADER_LENGTH: usize = 4;

/// The most bytes that a token has (RFC 7252, section 3).
pub const MAX_TOKEN: usize = 8;

/// The byte before a payload (RFC 7252, section 3).
pub const PAYLOAD_MARKER: u8 = 0xff;

/// The version of the protocol (RFC 7252, section 3).
pub const VERSION: u8 = 1;
