//! Lists of links as text: a profile of the CoRE link format (RFC 6690, section 2).
//!
//! `read` walks the whole grammar before it takes any memory, so a fault never depends on memory. `print`
//! writes the one spelling of a list that has no spaces and no needless backslash, and `LinkText` is a text
//! of that kind.
#![tactic(auto)]

mod characters;
mod checking;
mod fault;
pub mod laws;
mod limits;
mod link;
mod link_text;
mod printing;
mod reading;
mod runs;
mod scan;
mod scanner;
mod state;
mod style;

pub use checking::well_formed;
pub use fault::LinkFault;
pub use link::{Attr, AttrValue, Link};
pub use link_text::LinkText;
pub use printing::print;
pub use reading::read;
pub use scan::is_printing;
