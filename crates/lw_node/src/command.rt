use lw_call::Outgoing;
use lw_reg::Op;
use std::marker::Model;

/// What a command is to do, of which nothing is done yet.
#[derive(Drop)]
pub(crate) struct Command {
    pub(crate) outgoing: Outgoing,
    pub(crate) operation: Op,
}

impl Model for Command {
    ghost use Rattle.lw_node.specs.inner.Calls.{CommandContent};

    ghost Value = { CommandContent };

    ghost view = { λ c. record { outgoing = c.outgoing; operation = c.operation } };
}
