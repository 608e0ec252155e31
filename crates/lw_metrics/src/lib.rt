//! How often each thing was done in the rounds of a server, and the text that Prometheus reads.
//!
//! Nothing is asked, read or written here.
#![tactic(auto)]

mod append_times;
mod escaping;
mod family;
mod histogram;
mod io_counters;
mod measures;
mod metric;
mod reply_codes;
mod requests;
mod responses;
mod tally;
mod text;

pub use append_times::AppendTimes;
pub use io_counters::{IoCounters, LogCounters};
pub use measures::{Measures, NodeMeasures};
pub use reply_codes::REPLY_CODES;
pub use requests::RequestMeasures;
pub use responses::{Responses, STATUSES};
pub use tally::Tally;
pub use text::metrics_text;
