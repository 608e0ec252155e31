//! What the programs print: registrations, watches and notices as JSON, and the line of what comes of an event.
#![tactic(auto)]

mod changes;
mod hexadecimal;
mod line;
mod members;
mod node;
mod notice;
mod notifications;
mod observations;
mod one;
mod page;
mod path;
mod registration;
mod values;
mod watch;
mod words;

pub use changes::{Change, ChangePage, changes_text};
pub use line::{outcome_line, put_outcome};
pub use node::{NodeNumbers, health_text, node_text};
pub use notice::notice_text;
pub use notifications::{Notification, NotificationPage, notifications_text};
pub use observations::observations_text;
pub use one::answer_text;
pub use page::page_text;
pub use path::path_text;
pub use registration::registration_text;
pub use watch::{stale_text, watch_text};
