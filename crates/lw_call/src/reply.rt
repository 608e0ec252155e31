use crate::answer::Answer;
use crate::clock_end::ClockEnd;
use crate::merge_fault::MergeFault;
use crate::observe_fault::ObserveFault;
use crate::outgoing::Outgoing;
use crate::sent::Sent;
use crate::taken::Taken;
use lw_stamp::{NoMemory, Stamp};

/// What a call gives.
#[derive(Drop)]
pub enum Reply {
    Take(Result<Taken, NoMemory>),
    Observe(Result<Outgoing, ObserveFault>),
    Cancel(Result<Outgoing, ObserveFault>),
    Send(Result<Sent, NoMemory>),
    Merge(Result<usize, MergeFault>),
    Ask(Result<Answer, NoMemory>),
    /// The identifier of the registration that has ended, if one has.
    Sweep(Result<Option<Stamp>, ClockEnd>),
}
