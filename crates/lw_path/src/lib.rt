//! The path of what is observed, as text: a slash and a number, for each of its numbers.
#![tactic(auto)]

mod number;
mod reading;
mod steps;

pub use reading::read_path;
