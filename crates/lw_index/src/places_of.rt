ghost use Rattle.std.specs.Iterator.{YieldsFirst, item_count};

use std::collections::btree_set;
use std::marker::Model;

/// The places of a key, as `Places::of` says.
#[derive(Drop)]
pub struct PlacesOf<'a, K> {
    pub(crate) pairs: btree_set::Range<'a, (K, u32)>,
}

impl<'a, K> Model for PlacesOf<'a, K> {
    ghost use Rattle.std.specs.Prelude.{ℕ, List, map};

    ghost Value = { List ℕ };

    ghost view = { λ of. map (λ pair. pair.1) of.pairs };
}

impl<'a, K> Iterator for PlacesOf<'a, K> {
    type Item = u32;

    ghost next_gives = { YieldsFirst (λ of. of) };

    ghost remaining = { item_count (λ of. of) };

    fn next(&mut self) -> Option<u32> {
        match self.pairs.next() {
            Some(pair) => Some(pair.1),
            None => None,
        }
    }
}
