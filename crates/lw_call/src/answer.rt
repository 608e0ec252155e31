use lw_reg::{Seen, Text, Watch};
use lw_stamp::Stamp;

/// What is answered to a question, owned.
#[derive(Drop)]
pub enum Answer {
    Registration(Option<Seen>),
    /// A live watch, and its registration.
    Watched(Option<(Seen, Watch)>),
    /// The endpoint and the identifier of a registration that has expired.
    Expired(Option<(Text, Stamp)>),
    Changed(u64),
}
