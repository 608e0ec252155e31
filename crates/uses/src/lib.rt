//! Callers of the store, each with a contract that says what it then knows. docs/CALLING.md shows them.
#![tactic(auto)]

mod answer;
mod embedded;
mod finding;
mod following;
pub mod laws;
mod meeting;
mod naming;
mod threads;
mod volumes;

pub use answer::stands_in;
pub use embedded::{Fault, Server, Wish, ten_lines};
pub use finding::register_and_find;
pub use following::{Datagram, follow};
pub use meeting::meet;
pub use naming::names;
pub use threads::ask_from_threads;
pub use volumes::{call_and_cut, clocks};
