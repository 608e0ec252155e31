//! Journals that are cut, and what their volumes tell.

ghost use Rattle.std.specs.Prelude.{◌≡◌, IfOk, IfSome, IsSome, OnErr};
ghost use Rattle.lw_held.specs.History.{Leads};
ghost use Rattle.uses.specs.Volumes.{IsCallIn, IsUncut};

use lw_held::{Held, Pass, Volume};
use lw_node::Call;
use lw_stamp::NoMemory;

// cut: call_and_cut
/// Makes a call of a node with a journal, and cuts the journal.
pub fn call_and_cut(
    node: u16,
    held: &mut Held,
    pass: &mut Pass,
    call: &Call,
) -> Result<Option<Volume>, NoMemory>
    // There is a volume, and the call with its answer is the last of its entries.
    ensures some { IfOk result IsSome }
    ensures has { IfOk result (λ cut. IfSome cut (λ volume.
        IsCallIn held.old pass.old node call.now volume held.new pass.new)) }
    // Where there is no memory, nothing has changed, or the call was made and the journal not cut.
    ensures uncut { OnErr result (IsUncut held.old pass.old node call.now held.new pass.new) }
{
    pass.step(node, held, call)?;
    held.cut()
}

/// How many operations the node had heard of, before the first entry of the volume and after the last.
pub fn clocks(volume: &Volume) -> (u64, u64)
    ensures before { result.0 ≡ volume.now.opening.clock }
    ensures after { result.1 ≡ volume.now.closing.clock }
    // The entries are a legal history from the one node to the other.
    ensures legal { Leads volume.now.opening volume.now.entries volume.now.closing }
{
    volume.legal();
    (volume.opening().clock(), volume.closing().clock())
}
// end: call_and_cut
