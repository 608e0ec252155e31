//! Calls of a node and what they give, as values: their copies, and whether two of them are of equal content.
//!
//! Nothing here knows of a node. What a call does is said where nodes are.
#![tactic(auto)]

mod answer;
mod call;
mod clock_end;
mod comparing;
mod copying;
mod merge_fault;
mod notice;
mod observe_fault;
mod outgoing;
mod question;
mod reply;
mod sent;
mod taken;

pub use answer::Answer;
pub use call::Call;
pub use clock_end::ClockEnd;
pub use merge_fault::MergeFault;
pub use notice::Notice;
pub use observe_fault::ObserveFault;
pub use outgoing::Outgoing;
pub use question::Question;
pub use reply::Reply;
pub use sent::Sent;
pub use taken::Taken;
