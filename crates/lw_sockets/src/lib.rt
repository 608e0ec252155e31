//! A transport of real sockets, which one thread waits for.
#![tactic(auto)]

mod drops;
mod http_connection;
mod http_listener;
mod request_line;
mod sockets;
mod stopwatch;

pub use drops::drops_in;
pub use lw_server::{Incoming, Transport};
pub use sockets::Sockets;
pub use stopwatch::SystemStopwatch;
