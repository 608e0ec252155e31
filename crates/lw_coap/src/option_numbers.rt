//! Numbers of options (RFC 7252, section 12.2; Observe: RFC 7641, section 2). An odd one is critical.

/// A part of the URI that is asked for (section 5.10.1).
pub const URI_HOST: u16 = 3;

/// Of a request: 0 begins an observation, and 1 ends it; of a notification its order (RFC 7641, section 2).
pub const OBSERVE: u16 = 6;

/// A part of the URI that is asked for (section 5.10.1).
pub const URI_PORT: u16 = 7;

/// A segment of the path of what was created (section 5.10.7).
pub const LOCATION_PATH: u16 = 8;

/// A segment of the path that is asked for (section 5.10.1).
pub const URI_PATH: u16 = 11;

/// The format of the payload (section 5.10.3).
pub const CONTENT_FORMAT: u16 = 12;

/// A parameter of what is asked for (section 5.10.1).
pub const URI_QUERY: u16 = 15;

/// The format that the client wants (section 5.10.4).
pub const ACCEPT: u16 = 17;

/// The URI that a proxy is to ask for (section 5.10.2).
pub const PROXY_URI: u16 = 35;

/// Its scheme, where the other options give the rest (section 5.10.2).
pub const PROXY_SCHEME: u16 = 39;
