ghost use Rattle.std.specs.Iterator.{YieldsFirst, item_count};

use crate::entry::Entry;
use std::marker::Model;

/// The places under the numbers above one, as `Recent::since` says.
#[derive(Drop)]
pub struct Since<'a> {
    pub(crate) entries: &'a [Entry],
}

impl<'a> Model for Since<'a> {
    ghost use Rattle.std.specs.Prelude.{ℕ, List};
    ghost use Rattle.lw_recent.specs.Entries.{places_in};

    ghost Value = { List ℕ };

    ghost view = { λ since. places_in since.entries.now };
}

impl<'a> Iterator for Since<'a> {
    type Item = u32;

    ghost next_gives = { YieldsFirst (λ since. since) };

    ghost remaining = { item_count (λ since. since) };

    fn next(&mut self) -> Option<u32> {
        while let Some((first, rest)) = self.entries.split_first() {
            self.entries = rest;
            if let Some(place) = first.place {
                return Some(place);
            }
        }
        None
    }
}
