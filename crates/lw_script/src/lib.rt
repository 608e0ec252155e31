//! The scripts of a run: lines of text, each with a word and fields, that are read into the events of several nodes.
#![tactic(auto)]

mod fault;
mod field;
mod kinds;
mod last;
mod line;
mod number;
mod path_field;
mod script;
mod word;

pub use fault::LineFault;
pub use last::is_hex;
pub use line::read_line;
pub use script::{Script, ScriptFault, read_script};
