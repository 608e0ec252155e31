ghost use Rattle.std.specs.Prelude.{◌≡◌, ◌↔◌, [], ◌∷◌, length, IsTrue, IsSome, IfOk, IfSome};
ghost use Rattle.lw_join.specs.Entries.{Rises};
ghost use Rattle.lw_join.specs.EntriesLaws.{Rises-prop};

use crate::copied::Copied;
use crate::entries::{entries_le, rises, value_of};
use crate::exact::Exact;
use crate::items::Items;
use crate::join::{Calm, Join};
use lw_stamp::NoMemory;
use std::alloc::Global;

/// A map whose values join key by key. An absent key is below every value.
#[derive(Drop)]
pub struct Parts<K: Ord, J> {
    entries: Items<(K, J)>,
    pub ghost rises: { Rises K.cmp entries } by { Rises-prop K.cmp entries },
}

impl<K: Exact, J: Drop> Parts<K, J> {
    ghost use Rattle.std.specs.Option.{option_copied};
    ghost use Rattle.lw_join.specs.Parts.{entries_of, value_at};

    /// The empty map.
    pub fn new(alloc: Global) -> Parts<K, J>
        ensures { entries_of result ≡ [] }
    {
        Parts {
            entries: Items::new(Vec::new(alloc)),
        }
    }

    /// The map of one entry.
    pub fn one(alloc: Global, key: K, value: J) -> Result<Parts<K, J>, NoMemory>
        ensures { IfOk result (λ parts. entries_of parts ≡ (key, value) ∷ []) }
    {
        let mut entries = Vec::new(alloc);
        entries.push((key, value))?;
        Ok(Parts {
            entries: Items::new(entries),
        })
    }

    /// The map of these entries, whose keys must rise.
    pub fn from_entries(entries: Vec<(K, J)>) -> Option<Parts<K, J>>
        ensures rise { IsSome result ↔ Rises K.cmp entries.items }
        ensures same { IfSome result (λ parts. entries_of parts ≡ entries.items) }
    {
        if !rises(&entries) {
            return None;
        }
        Some(Parts {
            entries: Items::new(entries),
        })
    }

    /// The entries, their keys rising.
    pub fn entries(&self) -> &[(K, J)]
        ensures entries { result.now ≡ entries_of self.now }
        ensures rise { Rises K.cmp result.now }
    {
        self.entries.as_slice()
    }

    /// The entries, their keys rising.
    pub fn into_entries(self) -> Vec<(K, J)>
        ensures entries { result.items ≡ entries_of self }
        ensures rise { Rises K.cmp result.items }
    {
        self.entries.into_vec()
    }

    /// How many entries there are.
    pub fn len(&self) -> usize
        ensures { result ≡ length (entries_of self.now) }
    {
        self.entries.as_slice().len()
    }

    /// Whether there is no entry.
    pub fn is_empty(&self) -> bool
        ensures { IsTrue result ↔ (entries_of self.now ≡ []) }
    {
        self.entries.as_slice().is_empty()
    }

    /// The value of the key.
    pub fn get(&self, key: &K) -> Option<&J>
        ensures { option_copied result ≡ value_at self.now key.now }
    {
        value_of(self.entries.as_slice(), key)
    }
}

impl<K: Exact, J: Calm> Parts<K, J> {
    ghost use Rattle.std.specs.Prelude.{IsOk, OnOk, OnErr};
    ghost use Rattle.lw_join.specs.Parts.{parts_join, parts_in_place};

    // Joins two maps at once: where there is no memory for one of them, neither changes.
    pub(crate) fn join_both<L: Exact, M: Calm>(
        &mut self,
        other: Parts<K, J>,
        right: &mut Parts<L, M>,
        other_right: Parts<L, M>,
    ) -> Result<(), NoMemory>
        ensures left { OnOk result (self.new ≡ parts_join J.join self.old other) }
        ensures right { OnOk result (right.new ≡ parts_join M.join right.old other_right) }
        ensures left_kept { OnErr result (self.new ≡ self.old) }
        ensures right_kept { OnErr result (right.new ≡ right.old) }
        ensures never_refused { parts_in_place self.old other → parts_in_place right.old other_right → IsOk result }
    {
        self.entries
            .join_both(other.entries, &mut right.entries, other_right.entries)
    }
}

impl<K: Exact + Copied, J: Copied> Parts<K, J> {
    pub(crate) fn copied(&self, alloc: Global) -> Result<Parts<K, J>, NoMemory>
        ensures { IfOk result (λ parts. parts ≡ self.now) }
    {
        Ok(Parts {
            entries: self.entries.copied(alloc)?,
        })
    }
}

impl<K: Exact, J: Calm> Join for Parts<K, J> {
    ghost use Rattle.lw_join.specs.Parts.{parts_below, parts_join, parts_in_place};
    ghost use Rattle.lw_join.specs.PartsLaws.{parts_laws};

    ghost below = { parts_below J.below };

    ghost join = { parts_join J.join };

    ghost in_place = { parts_in_place };

    ghost laws = { parts_laws (record { total = K.total; exact = K.exact }) J.laws };

    fn le(&self, other: &Parts<K, J>) -> bool {
        entries_le(self.entries.as_slice(), other.entries.as_slice())
    }

    /// Takes memory for the keys that are missing.
    fn join_with(&mut self, other: Parts<K, J>) -> Result<(), NoMemory> {
        self.entries.join_with(other.entries)
    }
}
