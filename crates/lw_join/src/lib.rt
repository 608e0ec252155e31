//! Values that only move up, and their joins: of two values, the least that is above both.
//!
//! Whatever order the values of a set arrive in, and however often, their join is one.
#![tactic(auto)]

mod both;
mod copied;
mod entries;
mod exact;
mod flag;
mod in_place;
mod items;
mod join;
mod last;
pub mod laws;
mod lex;
mod lww;
mod merge;
mod once;
mod or_gone;
mod pair;
mod parts;

pub use both::Both;
pub use copied::Copied;
pub use exact::Exact;
pub use flag::Flag;
pub use join::{Calm, Join};
pub use last::Last;
pub use lex::Lex;
pub use lww::Lww;
pub use once::Once;
pub use or_gone::OrGone;
pub use parts::Parts;
