use lw_call::Notice;
use lw_reg::Op;
use std::marker::Model;

/// What a datagram is to do, of which nothing is done yet.
#[derive(Drop)]
pub(crate) struct Decision {
    pub(crate) reply: Option<Vec<u8>>,
    pub(crate) notice: Option<Notice>,
    pub(crate) operation: Option<Op>,
}

impl Model for Decision {
    ghost use Rattle.std.specs.Prelude.{option_map};
    ghost use Rattle.lw_node.specs.inner.Calls.{DecisionContent};

    ghost Value = { DecisionContent };

    ghost view = { λ d.
        record { reply = option_map (λ bytes. bytes.items) d.reply; notice = d.notice; operation = d.operation } };
}

impl Decision {
    ghost use Rattle.std.specs.Prelude.{◌≡◌, option_map, None};

    /// To answer, or not, and to change nothing.
    pub(crate) fn reply(reply: Option<Vec<u8>>) -> Decision
        ensures { result ≡ record { reply = option_map (λ bytes. bytes.items) reply; notice = None; operation = None } }
    {
        Decision {
            reply,
            notice: None,
            operation: None,
        }
    }
}
