//! Stamps, the clock that issues them, moments and texts, by which the crates above count and order;
//! and `NoMemory`, which they answer where a growth was refused.
//!
//! A stamp names an operation. Its eight bytes are the CoAP token of an observation, and their hex
//! text is the identifier of a registration.
#![tactic(auto)]

mod clock;
pub mod laws;
mod moment;
mod no_memory;
mod stamp;
mod text;

pub use clock::Clock;
pub use moment::Moment;
pub use no_memory::NoMemory;
pub use stamp::Stamp;
pub use text::Text;
