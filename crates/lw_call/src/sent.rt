use bytes::Bytes;
use std::marker::Model;

/// What a node sends of its state.
#[derive(Drop)]
pub struct Sent {
    /// The bytes of the delta.
    pub delta: Bytes,
    /// The change number that a later delta is asked for since.
    pub change: u64,
}

impl Model for Sent {
    ghost use Rattle.lw_call.specs.Contents.{SentContent};

    ghost Value = { SentContent };

    ghost view = { λ s. record { delta = s.delta; change = s.change } };
}
