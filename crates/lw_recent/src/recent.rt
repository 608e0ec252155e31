ghost use Rattle.std.specs.Prelude.{◌≡◌, [], OnOk, OnErr};
ghost use Rattle.lw_recent.specs.Recent.{IsUnder, Adds, Drops, Moves, AreSince, IsNextAbove};

use crate::entry::{Entry, close_up, entries_above, first_above, make_room, put, take_out};
use crate::since::Since;
use lw_stamp::NoMemory;
use std::alloc::Global;
use std::marker::Model;

/// Places under numbers, in the order of the numbers.
///
/// What moves or is dropped leaves a hole, and the holes are closed up where there is no other room: so a move takes
/// no memory. To file under the greatest number costs a search, and after many moves one walk over all places;
/// under another number it also shifts what is filed above.
#[derive(Drop)]
pub struct Recent {
    entries: Vec<Entry>,
    /// How many places there are, which room is made by.
    count: usize,
}

impl Model for Recent {
    ghost use Rattle.std.specs.Prelude.{ℕ, List};
    ghost use Rattle.std.specs.List.Sorted.{IsNonDecreasingBy};
    ghost use Rattle.lw_recent.specs.Entries.{pairs_in, number_of};

    ghost Value = { List (ℕ × ℕ) };

    ghost view = { λ r. pairs_in r.entries.items };

    ghost invariant = { λ r. IsNonDecreasingBy number_of r.entries.items };
}

impl Recent {
    /// None yet.
    pub fn new(alloc: Global) -> Recent
        ensures { result ≡ [] }
    {
        Recent {
            entries: Vec::new(alloc),
            count: 0,
        }
    }

    /// Files the place under the number.
    pub fn add(&mut self, number: u64, place: u32) -> Result<(), NoMemory>
        ensures added { OnOk result (Adds number place self.old self.new) }
        ensures unchanged { OnErr result (self.new ≡ self.old) }
    {
        make_room(&mut self.entries, self.count)?;
        put(&mut self.entries, number, place);
        self.count = self.count.saturating_add(1);
        Ok(())
    }

    /// Takes the place from under the number.
    pub fn drop_one(&mut self, number: u64, place: u32)
        ensures { Drops number place self.old self.new }
    {
        if take_out(&mut self.entries, number, place) {
            self.count = self.count.saturating_sub(1);
        }
    }

    /// Files the place, which stands under the first number, under the other. It takes no memory.
    pub fn move_to(&mut self, last: u64, number: u64, place: u32)
        requires { IsUnder self.old last place }
        ensures { Moves last number place self.old self.new }
    {
        if !take_out(&mut self.entries, last, place) {
            unreachable!()
        }
        if self.entries.len() == self.entries.capacity() {
            close_up(&mut self.entries);
        }
        put(&mut self.entries, number, place);
    }

    /// The places under the numbers above the given one, or under any.
    pub fn since(&self, number: Option<u64>) -> Since<'_>
        ensures { AreSince number self.now result }
    {
        Since {
            entries: entries_above(&self.entries, number),
        }
    }

    /// The place under the least number above the given one, and that number. Of several under it any may be given.
    pub fn next_above(&self, number: u64) -> Option<(u64, u32)>
        ensures { IsNextAbove number self.now result }
    {
        first_above(&self.entries, number)
    }
}
