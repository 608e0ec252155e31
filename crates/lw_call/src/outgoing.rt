use lw_reg::Addr;
use lw_stamp::Stamp;
use std::marker::Model;

/// A request that is to be sent to a device.
#[derive(Drop)]
pub struct Outgoing {
    pub to: Addr,
    /// The token of the observation.
    pub token: Stamp,
    /// The datagram.
    pub bytes: Vec<u8>,
}

impl Model for Outgoing {
    ghost use Rattle.lw_call.specs.Contents.{OutgoingContent};

    ghost Value = { OutgoingContent };

    ghost view = { λ o. record { to = o.to; token = o.token; bytes = o.bytes.items } };
}
