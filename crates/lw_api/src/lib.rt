//! What a node tells over HTTP of the registrations that it shows, and what devices told: JSON texts, each the one that
//! is defined over what is known.
#![tactic(auto)]

mod answering;
mod changes;
mod commands;
mod look_ups;
mod notification_buffer;
mod notified;
mod observing;
mod pages;

pub use answering::{About, answer, error_response, not_found, numbers_of};
pub use commands::{created, no_content};
pub use look_ups::{by_address, by_id, by_token, registration};
pub use notification_buffer::{BufferedNotification, MAX_NOTIFICATIONS, NotificationBuffer};
pub use notified::notifications;
pub use observing::observations;
pub use pages::registrations;
