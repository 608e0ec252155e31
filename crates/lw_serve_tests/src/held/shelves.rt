//! Volumes that are of the nodes of shelves, and whether these settle with them.

ghost use Rattle.std.specs.Prelude.{◌≡◌, ℕ, Some, slice_get, IsTrue};
ghost use Rattle.lw_held.specs.Agree.{AreDistinct};
ghost use Rattle.lw_held.specs.Shelves.{AreInOrder, HaveShelves};
ghost use Rattle.lw_held.specs.declared.shelf.Shelf.{Shelf as Shelves};

use super::*;

/// Whether the volume's node is that of a shelf, which then stands at the place of its number.
fn has_shelf(shelves: &[Shelf], volume: &Volume) -> bool
    ensures { IsTrue result → (k : ℕ) × (shelf : Shelves) × (slice_get shelves.now k ≡ Some shelf)
        × (shelf.number ≡ volume.now.opening.number) }
{
    let place = usize::from(volume.node()).wrapping_sub(1);
    match shelves.get(place) {
        Some(shelf) => shelf.number() == volume.node(),
        None => false,
    }
}

/// Whether each volume's node is that of a shelf.
fn have_shelves(shelves: &[Shelf], volumes: &[Volume]) -> bool
    ensures { IsTrue result → HaveShelves shelves.now volumes.now }
{
    for volume in volumes {
        if !has_shelf(shelves, volume) {
            return false;
        }
    }
    true
}

/// Whether the transcripts of the passes are the volumes and the journals. Each volume has to be of a shelf's node.
pub(crate) fn settle_with<R: Wait>(
    rt: &R,
    shelves: &[Shelf],
    volumes: &[Volume],
    passes: &[Pass],
) -> Result<Settled, Unsettled>
    requires shelves { AreInOrder shelves.now }
    requires passes { AreDistinct passes.now }
{
    if !have_shelves(shelves, volumes) {
        return Err(Unsettled { node: 0, place: 0 });
    }
    settle(rt, shelves, volumes, passes)
}
