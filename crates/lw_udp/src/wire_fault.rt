use thiserror::Error;

/// A call of a wire failed.
#[derive(Clone, Copy, Debug, PartialEq, Eq, Error)]
#[error("a call of the wire failed")]
pub struct WireFault;
