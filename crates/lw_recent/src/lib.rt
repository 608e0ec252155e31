//! Places, each under the number that it took when it moved last.
//!
//! A place takes another number without memory.
#![tactic(auto)]

mod entry;
mod recent;
mod since;

pub use recent::Recent;
pub use since::Since;
