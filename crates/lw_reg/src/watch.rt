use crate::Path;
use lw_stamp::Stamp;

/// An observation that lives (RFC 7641): the token that its notifications have, the path that is observed,
/// and the Content-Format that it accepts, if it names one.
#[derive(Clone, Copy, Debug, PartialEq, Eq)]
pub struct Watch {
    pub token: Stamp,
    pub path: Path,
    pub accept: Option<u16>,
}
