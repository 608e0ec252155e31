//! What is known of a registration: the operations on it, the slot that keeps what they told, and what a
//! server shows of it at a moment.
//!
//! The slots of operations about one endpoint join to one, whatever order they come in and however often. A
//! registration that was removed stays so, and a later one of the endpoint takes its place whole.
#![tactic(auto)]

mod addr;
mod atoms;
mod attributes;
mod base;
mod binding;
mod body;
mod copied;
mod endpoint;
mod exact;
mod fields;
pub mod laws;
mod object_list;
mod op;
mod path;
mod seen;
mod settings;
mod showing;
mod slot;
mod sms_number;
mod told;
mod version;
mod view;
mod watch;
mod watches;

pub use addr::Addr;
pub use atoms::{atom, atom_with_endpoint};
pub use attributes::{Attributes, AttributesView, is_attribute_name};
pub use base::Base;
pub use binding::Binding;
pub use body::Watching;
pub use endpoint::Endpoint;
pub use fields::{FieldWrites, Fields};
pub use lw_stamp::Text;
pub use op::{Op, What};
pub use path::Path;
pub use seen::Seen;
pub use settings::{GivenSettings, Settings};
pub use slot::Slot;
pub use sms_number::SmsNumber;
pub use version::Version;
pub use view::View;
pub use watch::Watch;
