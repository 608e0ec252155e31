ghost use Rattle.std.specs.Prelude.{◌≡◌, ◌∷◌, [], map, string_bytes};
ghost use Rattle.std.specs.Cmp.Lexicographic.{slice_cmp};
ghost use Rattle.std.specs.Ordering.{nat_cmp};
ghost use Rattle.std.specs.List.Sorted.{IsStrictlySortedBy};
ghost use Rattle.std.specs.Iterator.{YieldsFirstRef, item_count};

use std::collections::{BTreeSet, btree_set};
use std::marker::Model;

/// The endpoints of a key, rising, as `Index::of` says.
#[derive(Drop)]
pub struct Endpoints<'a> {
    first: Option<&'a str>,
    rest: Option<btree_set::Iter<'a, String>>,
}

impl<'a> Model for Endpoints<'a> {
    ghost use Rattle.std.specs.Prelude.{ℕ, List, [], ◌∷◌, ◌++◌, map, string_bytes};
    ghost use Rattle.std.specs.Option.{option_map_or};

    ghost Value = { List (List ℕ) };

    ghost view = { λ e. option_map_or (λ text. text.now ∷ []) e.first []
        ++ option_map_or (map string_bytes) e.rest [] };
}

impl<'a> Endpoints<'a> {
    pub(crate) fn none() -> Endpoints<'a>
        ensures { result ≡ [] }
    {
        Endpoints {
            first: None,
            rest: None,
        }
    }

    pub(crate) fn one(endpoint: &'a str) -> Endpoints<'a>
        ensures { result ≡ endpoint.now ∷ [] }
    {
        Endpoints {
            first: Some(endpoint),
            rest: None,
        }
    }

    pub(crate) fn several(endpoints: &'a BTreeSet<String>) -> Endpoints<'a>
        ensures endpoints { result ≡ map string_bytes endpoints.now.keys }
        ensures rising { IsStrictlySortedBy (slice_cmp nat_cmp) result }
    {
        Endpoints {
            first: None,
            rest: Some(endpoints.iter()),
        }
    }
}

impl<'a> Iterator for Endpoints<'a> {
    type Item = &'a str;

    ghost next_gives = { YieldsFirstRef (λ e. e) };

    ghost remaining = { item_count (λ e. e) };

    fn next(&mut self) -> Option<&'a str> {
        if let Some(endpoint) = self.first.take() {
            return Some(endpoint);
        }
        match &mut self.rest {
            Some(rest) => match rest.next() {
                Some(endpoint) => Some(endpoint.as_str()),
                None => None,
            },
            None => None,
        }
    }
}
