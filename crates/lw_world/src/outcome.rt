use lw_node::{Answer, ClockEnd, MergeFault, ObserveFault, Outgoing, Taken};
use lw_stamp::{NoMemory, Stamp};

/// What comes of an event.
#[derive(Drop)]
pub enum Outcome {
    Taken(Result<Taken, NoMemory>),
    Observed(Result<Outgoing, ObserveFault>),
    Cancelled(Result<Outgoing, ObserveFault>),
    /// The identifier of the registration that has ended, if one has.
    Swept(Result<Option<Stamp>, ClockEnd>),
    Answered(Result<Answer, NoMemory>),
    Sent(Result<Sending, NoMemory>),
    /// How many slots the message has, which all are joined; or the fault. No message of a run is malformed.
    Delivered(Result<usize, MergeFault>),
    /// The run has no node of the number. Nothing is changed.
    NoSuchNode,
    /// The run has no message of the number. Nothing is changed.
    NoSuchMessage,
}

/// A message that was made.
#[derive(Clone, Copy, Debug, PartialEq, Eq)]
pub struct Sending {
    /// Its number.
    pub message: usize,
    /// The sender's change number, since which a later delta is asked for.
    pub change: u64,
}
