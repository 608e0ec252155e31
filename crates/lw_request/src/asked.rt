use crate::{Refusal, Report};
use lw_reg::{Endpoint, GivenSettings, Settings, Version};
use lw_stamp::Stamp;

/// What a message asks of the server (LwM2M 1.1 Core, section 6.2; RFC 7252, section 4.2). The queries whose names
/// are no parameters' are attributes.
#[derive(Drop)]
pub enum Asked {
    /// A POST on `rd`: a new registration.
    Register {
        endpoint: Endpoint,
        version: Version,
        /// Whether it asks for queue mode.
        queue: bool,
        settings: Settings,
    },
    /// A POST on a registration: what is absent is kept.
    Update {
        /// There is none where the segment is no identifier.
        id: Option<Stamp>,
        settings: GivenSettings,
    },
    /// A DELETE on a registration.
    Deregister {
        /// There is none where the segment is no identifier.
        id: Option<Stamp>,
    },
    /// A response, whose token tells what it is about.
    Report(Report),
    /// An empty confirmable message: it asks for a Reset.
    Ping,
    /// A request that is answered with this code and changes nothing.
    Refuse(Refusal),
    /// A confirmable message is reset, and any other has no reply.
    Reject,
    /// It has no reply.
    Ignore,
}
