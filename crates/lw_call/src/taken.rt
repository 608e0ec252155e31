use crate::notice::Notice;
use std::marker::Model;

/// What a node gives for a datagram.
#[derive(Drop)]
pub struct Taken {
    /// The datagram to send back, where one is owed.
    pub reply: Option<Vec<u8>>,
    /// What a device tells of an observation, where the datagram does.
    pub notice: Option<Notice>,
}

impl Model for Taken {
    ghost use Rattle.std.specs.Prelude.{option_map};
    ghost use Rattle.lw_call.specs.Contents.{TakenContent};

    ghost Value = { TakenContent };

    ghost view = { λ t. record { reply = option_map (λ bytes. bytes.items) t.reply; notice = t.notice } };
}
