//! Workers that make the calls of a list of jobs, each with a pass of its own.
//!
//! The jobs are handed out in order. What the workers tell of them goes over a channel, of which nothing is promised: so
//! each result is held against the passes that come back, and only a list with one true result a job is given on.
#![tactic(auto)]

mod board;
mod checking;
mod gathering;
mod job;
mod need;
mod serving;
mod work;

pub use gathering::gather;
pub use job::{CrewFault, Done, Job, JobOutcome};
pub use lw_held::{Gate, NoGate, Pass, Shelf};
pub use need::Sharing;
pub use serving::Crew;
