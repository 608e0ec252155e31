//! What a node passes on to another.

ghost use Rattle.std.specs.Prelude.{◌≡◌, IfOk};
ghost use Rattle.registry.specs.Steps.{PassesOn};

use crate::fault::LineFault;
use lw_node::Node;

/// Has the other node merge what has changed at the first since the change number, and gives the change number for the
/// next time. Over a network one keeps the old number until the other has answered that it has merged the delta; where
/// it has not, or not the whole, the next delta brings it again.
pub fn pass_on(node: &Node, other: &mut Node, since: u64) -> Result<u64, LineFault>
    ensures { IfOk result (λ next. PassesOn node.now since other.old next other.new) }
{
    let delta = node.delta_since(since)?;
    match other.merge(&delta) {
        Ok(_) => Ok(node.change()),
        // What a node has made is a delta: nothing but memory can be missing.
        Err(_) => Err(LineFault::NoMemory),
    }
}
