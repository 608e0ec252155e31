//! Several nodes, and the deltas that pass between them: a run of events, and what it comes to.
//!
//! What each node knows is a set of operations: those that it issued, and those that deltas brought. The sets are no
//! part of the program. That each outcome is the one which is defined over the set of its node, whatever deltas are
//! lost, repeated or late, is what `run` promises.
#![tactic(auto)]

mod event;
pub mod laws;
mod outcome;
mod running;
mod world;

pub use event::{Action, Event};
pub use lw_node::{
    Addr, Answer, Bytes, ClockEnd, DeltaFault, MergeFault, Node, Notice, ObserveFault, Outgoing,
    Path, Question, Seen, Taken, Text, Watch,
};
pub use outcome::{Outcome, Sending};
pub use running::run;
pub use world::World;
