ghost use Rattle.std.specs.Prelude.{◌≡◌, ◌↔◌, IsTrue};

use lw_join::Join;
use lw_reg::Slot;

/// What is kept of an endpoint: its slot, and the number of the change that moved it last.
#[derive(Drop)]
pub(crate) struct Row {
    pub(crate) slot: Slot,
    pub(crate) number: u64,
}

impl Row {
    /// Whether both have the same slot, which moved last with the same number.
    pub(crate) fn same(&self, other: &Row) -> bool
        ensures { IsTrue result ↔ (self.now ≡ other.now) }
    {
        self.number == other.number && is_same_slot(&self.slot, &other.slot)
    }
}

/// Two slots are the same where each is below the other.
fn is_same_slot(slot: &Slot, other: &Slot) -> bool
    ensures { IsTrue result ↔ (slot.now ≡ other.now) }
{
    slot.le(other) && other.le(slot)
}
