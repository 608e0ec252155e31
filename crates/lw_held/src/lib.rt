//! Nodes behind locks, each with the journal of its calls, and the passes that the calls are made with.
//!
//! What a lock keeps is a node and its journal, and that the journal is a legal history that leads to the node is part
//! of its type. A journal can be cut: what it has is then a volume, and it begins anew with the node as it stands. Each
//! caller has a pass, which keeps a transcript of its own calls. `settle` compares the transcripts with the volumes and
//! the journals: where they agree, each answer that was given stands in the one history of its node.
#![tactic(auto)]

mod agreeing;
mod entry;
mod gate;
mod held;
pub mod laws;
mod laying;
mod pass;
mod shelf;
mod volume;

pub use entry::{Entry, Part};
pub use gate::{Gate, NoGate};
pub use held::Held;
pub use lw_node::{Call, Reply};
pub use pass::Pass;
pub use shelf::{Settled, Shelf, Unsettled, set_up, settle};
pub use volume::Volume;
