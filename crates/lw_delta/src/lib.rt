//! Deltas as bytes: the clock of a sender and slots, by one grammar. `check`, `read` and a
//! `Reader` take them apart, and a `Writer` puts them together.
#![tactic(auto)]

mod attributes;
mod behind;
mod checking;
mod delta;
mod fault;
mod fields;
mod form;
pub mod laws;
mod lent;
mod numbers;
mod parse;
mod put;
mod reader;
mod reading;
mod slots;
mod values;
mod watches;
mod writer;
mod writing;

pub use checking::check;
pub use delta::Delta;
pub use fault::DeltaFault;
pub use reader::Reader;
pub use reading::read;
pub use writer::Writer;
