//! The log that the servers of a fleet share: its entries as bytes, the trait `DeltaLog` of what keeps
//! them, and the laws by which what was told before is known ever after.
#![tactic(auto)]

mod delta_log;
mod entry;
mod entry_fault;
pub mod laws;
mod log_fault;
mod memory_log;
mod nowhere;
mod position;
mod reading;
mod start;
mod writing;

pub use bytes::Bytes;
pub use delta_log::{DeltaLog, PAGE};
pub use entry::{Body, Entry, FleetId};
pub use entry_fault::EntryFault;
pub use log_fault::LogFault;
pub use memory_log::{MemoryCall, MemoryLog};
pub use nowhere::Nowhere;
pub use position::Position;
pub use reading::read_entry;
pub use start::Start;
pub use writing::put_entry;
