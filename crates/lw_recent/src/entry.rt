//! Entries in the order of their numbers, of which some may be without a place.

ghost use Rattle.std.specs.Prelude.{◌≡◌, ◌↔◌, ◌<◌, false, Some, IfSome, IfNone, OnOk, IsTrue, vec_len, vec_capacity, option_map, length};
ghost use Rattle.std.specs.List.Sorted.{IsNonDecreasingBy};
ghost use Rattle.lw_recent.specs.Entries.{pairs_in, number_of, places_in};
ghost use Rattle.lw_recent.specs.inner.Entries.{shown_at, with_hole, HasHole};
ghost use Rattle.lw_recent.specs.Recent.{IsUnder, Adds, Drops, AreSince, IsNextAbove};

use lw_stamp::NoMemory;

/// A number, and the place under it; without one it is a hole.
#[derive(Drop)]
pub(crate) struct Entry {
    pub(crate) number: u64,
    pub(crate) place: Option<u32>,
}

impl Entry {
    ghost use Rattle.lw_recent.specs.Entries.{shown};

    // Whether the place is there, under the number.
    fn is(&self, number: u64, place: u32) -> bool
        ensures { IsTrue result ↔ (shown self.now ≡ Some (number, place)) }
    {
        match self.place {
            None => false,
            Some(own) => self.number == number && own == place,
        }
    }
}

/// Where the place stands under the number.
pub(crate) fn find(entries: &[Entry], number: u64, place: u32) -> Option<usize>
    requires { IsNonDecreasingBy number_of entries.now }
    ensures some { IfSome result (λ i. shown_at entries.now i ≡ Some (number, place)) }
    ensures within { IfSome result (λ i. i < length entries.now) }
    ensures none { IfNone result (IsUnder (pairs_in entries.now) number place → ⊥) }
{
    let start = entries.partition_point(|entry| entry.number < number);
    for index in start..entries.len() {
        let entry = &entries[index];
        if entry.number != number {
            return None;
        }
        if entry.is(number, place) {
            return Some(index);
        }
    }
    None
}

/// Leaves a hole there.
pub(crate) fn empty_at(entries: &mut Vec<Entry>, index: usize)
    requires { index < vec_len entries.old }
    ensures hole { entries.new.items ≡ with_hole entries.old.items index }
    ensures capacity { vec_capacity entries.new ≡ vec_capacity entries.old }
    ensures len { vec_len entries.new ≡ vec_len entries.old }
{
    entries[index].place = None;
}

/// Takes the place from under the number. Whether it stood there.
pub(crate) fn take_out(entries: &mut Vec<Entry>, number: u64, place: u32) -> bool
    requires { IsNonDecreasingBy number_of entries.old.items }
    ensures drops { Drops number place (pairs_in entries.old.items) (pairs_in entries.new.items) }
    ensures hole { IsTrue result → HasHole entries.new.items }
    ensures none { result ≡ false → IsUnder (pairs_in entries.old.items) number place → ⊥ }
    ensures capacity { vec_capacity entries.new ≡ vec_capacity entries.old }
    ensures rises { IsNonDecreasingBy number_of entries.new.items }
{
    let mut stood = false;
    while let Some(index) = find(entries, number, place) {
        empty_at(entries, index);
        stood = true;
    }
    stood
}

/// Closes the holes up.
pub(crate) fn close_up(entries: &mut Vec<Entry>)
    ensures pairs { pairs_in entries.new.items ≡ pairs_in entries.old.items }
    ensures capacity { vec_capacity entries.new ≡ vec_capacity entries.old }
    ensures rises { IsNonDecreasingBy number_of entries.old.items → IsNonDecreasingBy number_of entries.new.items }
    ensures shorter { HasHole entries.old.items → vec_len entries.new < vec_len entries.old }
{
    entries.retain(|entry| entry.place.is_some());
}

/// Puts a place under a number, where there is room.
pub(crate) fn put(entries: &mut Vec<Entry>, number: u64, place: u32)
    requires rises { IsNonDecreasingBy number_of entries.old.items }
    requires room { vec_len entries.old < vec_capacity entries.old }
    ensures adds { Adds number place (pairs_in entries.old.items) (pairs_in entries.new.items) }
    ensures rises { IsNonDecreasingBy number_of entries.new.items }
{
    let index = entries.partition_point(|entry| entry.number <= number);
    let entry = Entry {
        number,
        place: Some(place),
    };
    let Ok(()) = entries.insert(index, entry) else {
        unreachable!()
    };
}

/// Makes room for one entry more; where room is short, for half as many free ones as there are places.
pub(crate) fn make_room(entries: &mut Vec<Entry>, count: usize) -> Result<(), NoMemory>
    ensures pairs { pairs_in entries.new.items ≡ pairs_in entries.old.items }
    ensures rises { IsNonDecreasingBy number_of entries.old.items → IsNonDecreasingBy number_of entries.new.items }
    ensures room { OnOk result (vec_len entries.new < vec_capacity entries.new) }
{
    let wanted = count.saturating_add(count / 2).saturating_add(2);
    if entries.len() == entries.capacity() && wanted <= entries.capacity() {
        close_up(entries);
    }
    entries.reserve(wanted.saturating_sub(entries.len()).max(1))?;
    Ok(())
}

/// The entries whose numbers are above the given one, or all.
pub(crate) fn entries_above(entries: &[Entry], number: Option<u64>) -> &[Entry]
    requires { IsNonDecreasingBy number_of entries.now }
    ensures { AreSince number (pairs_in entries.now) (places_in result.now) }
{
    match number {
        None => entries,
        Some(number) => &entries[entries.partition_point(|entry| entry.number <= number)..],
    }
}

/// The first place under a number above the given one, and its number. Holes in between are passed over.
pub(crate) fn first_above(entries: &[Entry], number: u64) -> Option<(u64, u32)>
    requires { IsNonDecreasingBy number_of entries.now }
    ensures { IsNextAbove number (pairs_in entries.now) result }
{
    let start = entries.partition_point(|entry| entry.number <= number);
    for index in start..entries.len() {
        let entry = &entries[index];
        if let Some(place) = entry.place {
            return Some((entry.number, place));
        }
    }
    None
}
