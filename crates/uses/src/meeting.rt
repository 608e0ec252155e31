//! Two servers that pass on to each other what they know.

ghost use Rattle.std.specs.Prelude.{◌≡◌, max, OnOk};
ghost use Rattle.lw_reg.specs.State.{state_join};
ghost use Rattle.uses.specs.Meeting.{IsCounted, KnowsBoth, AnswerAlike};

use lw_node::Node;
use lw_stamp::NoMemory;

// cut: meet
/// Each of two nodes merges the whole delta of the other. Where memory runs out, a part may be merged; to meet again
/// brings the rest.
pub fn meet(one: &mut Node, other: &mut Node) -> Result<(), NoMemory>
    // Each then knows what the two knew, and they answer each question alike, at any moment, but how often they have
    // changed. Both have to have counted all that they know: a new node has, and each call of a node keeps it, as
    // `laws::nodes_count_what_they_know` says.
    ensures one { IsCounted one.old → IsCounted other.old → OnOk result (KnowsBoth one.old other.old one.new) }
    ensures other { IsCounted one.old → IsCounted other.old → OnOk result (KnowsBoth one.old other.old other.new) }
    ensures alike { IsCounted one.old → IsCounted other.old → OnOk result (AnswerAlike one.new other.new) }
    ensures one_counted { IsCounted one.old → IsCounted one.new }
    ensures other_counted { IsCounted other.old → IsCounted other.new }
{
    pass(one, other)?;
    pass(other, one)
}

/// Has the other node merge all that the first knows.
fn pass(node: &Node, other: &mut Node) -> Result<(), NoMemory>
    ensures clock { OnOk result (other.new.clock ≡ max other.old.clock node.now.clock) }
    ensures state { IsCounted node.now
        → OnOk result (other.new.table.state ≡ state_join other.old.table.state node.now.table.state) }
    ensures counted { IsCounted other.old → IsCounted other.new }
{
    let delta = node.delta_since(0)?;
    match other.merge(&delta) {
        Ok(_) => Ok(()),
        // What a node has made is a delta: so memory ran out.
        Err(_) => Err(NoMemory),
    }
}
// end: meet
