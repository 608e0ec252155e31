//! Whether the volumes of a node and its journal are laid end to end, without memory.
//!
//! Below the journal's first place each place is in one volume of the node, and from there on in none. What begins
//! where a volume ends has that volume's closing as its opening, and what begins at place 0 has a new node. The least
//! place where this does not hold is 0, the journal's first, or one where a volume begins or ends, so these are looked
//! at. Each look goes over all volumes.

ghost use Rattle.std.specs.Prelude.{◌≡◌, ◌↔◌, ◌<◌, ℕ, length, Some, IsTrue};
ghost use Rattle.lw_node.specs.Node.{fresh};
ghost use Rattle.lw_held.specs.Agree.{AreLinked, Covers, IsCoveredOnce, IsFirstBreak, IsLaid, IsLinked, end_of};
ghost use Rattle.lw_held.specs.inner.Looks.{IsEndOf, IsFirstFrom};

use crate::agreeing::lesser;
use crate::held::Held;
use crate::volume::Volume;
use lw_node::Node;

/// The least place that is not laid. The last argument is a new node of the number.
pub(crate) fn first_unlaid(node: u16, volumes: &[Volume], held: &Held, new: &Node) -> Option<u64>
    requires { new.now ≡ fresh node }
    ensures { IsFirstBreak (IsLaid node volumes.now held.now) result }
{
    let begins = unlaid_at(node, volumes, held, new, 0);
    let mut least = lesser(begins, unlaid_at(node, volumes, held, new, held.first()));
    for volume in volumes {
        least = lesser(least, unlaid_end(node, volumes, held, new, volume));
    }
    least
}

/// The lesser of the places where the volume begins and ends that is not laid, if the volume is of the node.
fn unlaid_end(
    node: u16,
    volumes: &[Volume],
    held: &Held,
    new: &Node,
    volume: &Volume,
) -> Option<u64>
    requires { new.now ≡ fresh node }
    ensures { IsFirstBreak (λ p. IsEndOf node volume.now p → IsLaid node volumes.now held.now p) result }
{
    if volume.node() != node {
        return None;
    }
    let first = unlaid_at(node, volumes, held, new, volume.first());
    lesser(first, unlaid_at(node, volumes, held, new, volume.end()))
}

/// The place, if it is not laid.
fn unlaid_at(node: u16, volumes: &[Volume], held: &Held, new: &Node, place: u64) -> Option<u64>
    requires { new.now ≡ fresh node }
    ensures { IsFirstBreak (λ p. p ≡ place → IsLaid node volumes.now held.now p) result }
{
    if is_laid(node, volumes, held, new, place) {
        None
    } else {
        Some(place)
    }
}

fn is_laid(node: u16, volumes: &[Volume], held: &Held, new: &Node, place: u64) -> bool
    requires { new.now ≡ fresh node }
    ensures { IsTrue result ↔ IsLaid node volumes.now held.now place }
{
    is_covered_once(node, volumes, held.first(), place)
        && are_linked(node, volumes, held, new, place)
}

/// Whether one volume of the node alone has the place, where that is below the journal's first, and else whether none
/// has it.
fn is_covered_once(node: u16, volumes: &[Volume], first: u64, place: u64) -> bool
    ensures { IsTrue result ↔ IsCoveredOnce node volumes.now first place }
{
    match covering(node, volumes, place, 0) {
        None => first <= place,
        Some(i) => place < first && covering(node, volumes, place, i + 1).is_none(),
    }
}

/// The first volume of the node that has the place, of those from the number on.
fn covering(node: u16, volumes: &[Volume], place: u64, start: usize) -> Option<usize>
    ensures first { IsFirstFrom node volumes.now place start result }
    ensures within { (i : ℕ) → result ≡ Some i → i < length volumes.now }
{
    for index in start..volumes.len() {
        if has_place(node, &volumes[index], place) {
            return Some(index);
        }
    }
    None
}

/// Whether the volume is of the node and has the place.
fn has_place(node: u16, volume: &Volume, place: u64) -> bool
    ensures { IsTrue result ↔ ((volume.now.opening.number ≡ node) × Covers volume.now place) }
{
    volume.node() == node && volume.first() <= place && place < volume.end()
}

/// Whether what begins at the place is linked to what is before it.
fn are_linked(node: u16, volumes: &[Volume], held: &Held, new: &Node, place: u64) -> bool
    requires { new.now ≡ fresh node }
    ensures { IsTrue result ↔ AreLinked node volumes.now held.now place }
{
    if held.first() == place && !is_linked(node, volumes, new, held.first(), held.opening()) {
        return false;
    }
    for volume in volumes {
        if !is_volume_linked(node, volumes, new, place, volume) {
            return false;
        }
    }
    true
}

/// Whether the volume is linked, if it is of the node and begins at the place.
fn is_volume_linked(node: u16, volumes: &[Volume], new: &Node, place: u64, volume: &Volume) -> bool
    requires { new.now ≡ fresh node }
    ensures { IsTrue result ↔ (volume.now.opening.number ≡ node → volume.now.first ≡ place
        → IsLinked node volumes.now volume.now.first volume.now.opening) }
{
    volume.node() != node
        || volume.first() != place
        || is_linked(node, volumes, new, volume.first(), volume.opening())
}

/// Whether what begins at the place with this opening is linked: at place 0 the opening is a new node, and it is the
/// closing of each volume that ends there.
fn is_linked(node: u16, volumes: &[Volume], new: &Node, first: u64, opening: &Node) -> bool
    requires { new.now ≡ fresh node }
    ensures { IsTrue result ↔ IsLinked node volumes.now first opening.now }
{
    if first == 0 && !opening.same(new) {
        return false;
    }
    for volume in volumes {
        if !goes_on(node, volume, first, opening) {
            return false;
        }
    }
    true
}

/// Whether the opening is the volume's closing, if the volume is of the node and ends at the place.
fn goes_on(node: u16, volume: &Volume, place: u64, opening: &Node) -> bool
    ensures { IsTrue result ↔ (volume.now.opening.number ≡ node → end_of volume.now ≡ place
        → opening.now ≡ volume.now.closing) }
{
    volume.node() != node || volume.end() != place || opening.same(volume.closing())
}
