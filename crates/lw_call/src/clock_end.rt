use thiserror::Error;

/// No stamp is left.
#[derive(Clone, Copy, Debug, PartialEq, Eq, Error)]
#[error("the clock of the node is at its end")]
pub struct ClockEnd;
