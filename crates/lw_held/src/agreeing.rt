//! Whether the transcripts of passes are a journal and the volumes that were cut off it, without memory.
//!
//! Three walks find the least place that fails: one over the parts of each pass, which asks whether each is the entry
//! at its place, and after the parts before it; one over the entries of the journal and of each volume, which asks
//! whether each entry's pass has a part for its place; and one over the volumes, which asks whether they are laid end
//! to end. Since a part's number is its place in its transcript, each question of an entry looks at one place. Each of
//! a part looks at one place in the journal, and in each volume from that of the part before until it is found.

ghost use Rattle.std.specs.Prelude.{◌≡◌, ◌↔◌, ◌<◌, ◌≤◌, ◌^◌, ℕ, length, Some, None, slice_get, IfNone, IfSome, IsTrue};
ghost use Rattle.lw_node.specs.Node.{fresh};
ghost use Rattle.lw_held.specs.Agree.{IsEntryAt, IsOf, IsFirstBreak, AreDistinct, IsFineIn};
ghost use Rattle.lw_held.specs.inner.Looks.{HasPart, IsThere, FitBelow, AllFitBelow, IsAfter, Looks, lesser_of, greater_of, HasBelow, IsTold, AllToldBelow};
ghost use Rattle.lw_held.specs.Transcript.{Transcript, IsNumbered};

use crate::entry::{Entry, Part};
use crate::held::Held;
use crate::laying::first_unlaid;
use crate::pass::Pass;
use crate::volume::Volume;
use lw_node::Node;

/// What is known after some parts: the least place of one that does not fit, and the greatest place.
#[derive(Clone, Copy)]
pub(crate) struct Look {
    least: Option<u64>,
    last: Option<u64>,
}

/// The least place that is not fine. The last argument is a new node of the number.
pub(crate) fn first_failing(
    node: u16,
    volumes: &[Volume],
    held: &Held,
    passes: &[Pass],
    new: &Node,
) -> Option<u64>
    requires distinct { AreDistinct passes.now }
    requires new { new.now ≡ fresh node }
    ensures { IsFirstBreak (IsFineIn node volumes.now held.now passes.now) result }
{
    let parts = lesser(
        first_stray_of_all(node, volumes, held, passes),
        first_untold_of_all(node, volumes, held, passes),
    );
    lesser(parts, first_unlaid(node, volumes, held, new))
}

/// The least place for the node at which a part of a pass does not fit.
fn first_stray_of_all(node: u16, volumes: &[Volume], held: &Held, passes: &[Pass]) -> Option<u64>
    ensures least { IsFirstBreak (AllFitBelow node volumes.now held.now passes.now (length passes.now)) result }
    ensures numbered { (i : ℕ) (pass : Transcript) → slice_get passes.now i ≡ Some pass → IsNumbered pass }
{
    let mut least = None;
    for pass in passes {
        pass.lawful();
        least = lesser(least, pass.first_stray(node, volumes, held));
    }
    least
}

/// The least place for the node at which a part does not fit.
pub(crate) fn first_stray(node: u16, volumes: &[Volume], held: &Held, parts: &[Part]) -> Option<u64>
    ensures { IsFirstBreak (FitBelow node volumes.now held.now parts.now (length parts.now)) result }
{
    let mut look = nothing_seen();
    let mut found = 0;
    for part in parts {
        look = looked_at(look, node, volumes, &mut found, held, part);
    }
    look.least
}

fn nothing_seen() -> Look
    ensures { result ≡ record { least = None; last = None } }
{
    Look {
        least: None,
        last: None,
    }
}

/// What is known after one part more. The number is that of the volume where a part was found last.
fn looked_at(
    old: Look,
    node: u16,
    volumes: &[Volume],
    found: &mut usize,
    held: &Held,
    part: &Part,
) -> Look
    ensures { Looks node volumes.now held.now part.now old result }
{
    if part.node != node {
        return old;
    }
    let last = greater(old.last, part.place);
    if is_there(node, volumes, found, held, part) && is_after(old.last, part.place) {
        Look {
            least: old.least,
            last,
        }
    } else {
        Look {
            least: lesser(old.least, Some(part.place)),
            last,
        }
    }
}

/// Whether the journal, or a volume of the node, has the part's entry at its place. The volume where a part was found
/// last is looked at first: so a transcript whose volumes are in the order in which they were cut takes one walk over
/// them.
fn is_there(node: u16, volumes: &[Volume], found: &mut usize, held: &Held, part: &Part) -> bool
    ensures { IsTrue result ↔ IsThere node volumes.now held.now part.now }
{
    if has_entry(held.first(), held.journal(), part) {
        return true;
    }
    match volume_of(node, volumes, part, (*found).min(volumes.len())) {
        Some(index) => {
            *found = index;
            true
        }
        None => false,
    }
}

/// A volume of the node that has the part's entry at its place: the first from this number on, or else the first.
fn volume_of(node: u16, volumes: &[Volume], part: &Part, start: usize) -> Option<usize>
    requires { start ≤ length volumes.now }
    ensures found { IfSome result (HasPart node volumes.now part.now) }
    ensures none { IfNone result ((i : ℕ) → ¬ HasPart node volumes.now part.now i) }
{
    match volume_within(node, volumes, part, start, volumes.len()) {
        Some(index) => Some(index),
        None => volume_within(node, volumes, part, 0, start),
    }
}

/// The first volume of the node, between these numbers, that has the part's entry at its place.
fn volume_within(
    node: u16,
    volumes: &[Volume],
    part: &Part,
    start: usize,
    end: usize,
) -> Option<usize>
    requires { end ≤ length volumes.now }
    ensures found { IfSome result (HasPart node volumes.now part.now) }
    ensures none { IfNone result ((i : ℕ) → start ≤ i → i < end → ¬ HasPart node volumes.now part.now i) }
{
    for index in start..end {
        if is_in(node, &volumes[index], part) {
            return Some(index);
        }
    }
    None
}

/// Whether the volume is of the node and has the part's entry at its place.
fn is_in(node: u16, volume: &Volume, part: &Part) -> bool
    ensures { IsTrue result ↔ ((volume.now.opening.number ≡ node)
        × IsEntryAt volume.now.first volume.now.entries part.now.place part.now.entry) }
{
    volume.node() == node && has_entry(volume.first(), volume.entries(), part)
}

/// Whether the part's entry stands at its place, where the first of the entries stands at this one.
fn has_entry(first: u64, entries: &[Entry], part: &Part) -> bool
    ensures { IsTrue result ↔ IsEntryAt first entries.now part.now.place part.now.entry }
{
    match part.place.checked_sub(first) {
        None => false,
        Some(index) => is_entry(entries, index, &part.entry),
    }
}

fn is_entry(entries: &[Entry], index: u64, wanted: &Entry) -> bool
    ensures { IsTrue result ↔ (slice_get entries.now index ≡ Some wanted.now) }
{
    match entries.get(index as usize) {
        Some(entry) => entry.same(wanted),
        None => false,
    }
}

fn is_after(last: Option<u64>, place: u64) -> bool
    ensures { IsTrue result ↔ IsAfter last place }
{
    match last {
        Some(before) => before < place,
        None => true,
    }
}

fn greater(last: Option<u64>, place: u64) -> Option<u64>
    ensures { result ≡ greater_of last place }
{
    match last {
        Some(before) => Some(before.max(place)),
        None => Some(place),
    }
}

pub(crate) fn lesser(left: Option<u64>, right: Option<u64>) -> Option<u64>
    ensures { result ≡ lesser_of left right }
{
    match (left, right) {
        (Some(p), Some(q)) => Some(p.min(q)),
        (None, right) => right,
        (left, None) => left,
    }
}

/// The least place of an entry, of the journal or of a volume of the node, for which its pass has no part.
fn first_untold_of_all(node: u16, volumes: &[Volume], held: &Held, passes: &[Pass]) -> Option<u64>
    ensures { IsFirstBreak (AllToldBelow node volumes.now held.now passes.now (length volumes.now)) result }
{
    let mut least = first_untold(node, held.first(), held.journal(), passes);
    for volume in volumes {
        least = lesser(least, first_untold_in(node, volume, passes));
    }
    least
}

/// The least place of an entry of the volume for which its pass has no part, if the volume is of the node.
fn first_untold_in(node: u16, volume: &Volume, passes: &[Pass]) -> Option<u64>
    ensures { IsFirstBreak (λ p. volume.now.opening.number ≡ node
        → IsTold node volume.now.first volume.now.entries passes.now p) result }
{
    if volume.node() != node {
        return None;
    }
    first_untold(node, volume.first(), volume.entries(), passes)
}

/// The least place of an entry for which its pass has no part, where the first of the entries stands at this place.
fn first_untold(node: u16, first: u64, entries: &[Entry], passes: &[Pass]) -> Option<u64>
    requires { (first < 2 ^ 63) × (length entries.now < 2 ^ 63) }
    ensures { IsFirstBreak (IsTold node first entries.now passes.now) result }
{
    for index in 0..entries.len() {
        let place = first + index as u64;
        if !is_told(node, place, &entries[index], passes) {
            return Some(place);
        }
    }
    None
}

fn is_told(node: u16, place: u64, entry: &Entry, passes: &[Pass]) -> bool
    ensures { IsTrue result ↔ HasBelow node place entry.now passes.now (length passes.now) }
{
    for pass in passes {
        if pass.has(node, place, entry) {
            return true;
        }
    }
    false
}

/// Whether the part is for that node and place.
pub(crate) fn is_of(node: u16, place: u64, part: &Part) -> bool
    ensures { IsTrue result ↔ IsOf node place part.now }
{
    part.node == node && part.place == place
}
