//! Codes of messages (RFC 7252, section 12.1): class in the upper three bits, detail in the lower five.

/// 0.00: an empty message.
pub const EMPTY: u8 = 0x00;

/// 0.01.
pub const GET: u8 = 0x01;

/// 0.02.
pub const POST: u8 = 0x02;

/// 0.04.
pub const DELETE: u8 = 0x04;
/// 2.01.
pub const CREATED: u8 = 0x41;
/// 2.02.
pub const DELETED: u8 = 0x42;
/// 2.04.
pub const CHANGED: u8 = 0x44;
/// 2.05.
pub const CONTENT: u8 = 0x45;
/// 4.00.
pub const BAD_REQUEST: u8 = 0x80;
/// 4.02.
pub const BAD_OPTION: u8 = 0x82;
/// 4.04.
pub const NOT_FOUND: u8 = 0x84;
/// 4.05.
pub const METHOD_NOT_ALLOWED: u8 = 0x85;
/// 4.12.
pub const PRECONDITION_FAILED: u8 = 0x8c;
/// 4.13.
pub const REQUEST_ENTITY_TOO_LARGE: u8 = 0x8d;
/// 4.15.
pub const UNSUPPORTED_CONTENT_FORMAT: u8 = 0x8f;
/// 5.03.
pub const SERVICE_UNAVAILABLE: u8 = 0xa3;
/// 5.05.
pub const PROXYING_NOT_SUPPORTED: u8 = 0xa5;
