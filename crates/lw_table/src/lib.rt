//! What a node knows of its endpoints: their slots, found by endpoint, identifier, address and token, which of them
//! have moved since a change number, and which has expired.
#![tactic(auto)]

mod copying;
mod filed;
mod key;
mod key_changes;
mod lifts;
mod look_ups;
mod moves;
mod pages;
mod row;
mod rows;
mod since;
mod table;

pub use key::Key;
pub use pages::Page;
pub use since::Moved;
pub use table::Table;
