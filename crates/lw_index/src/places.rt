ghost use Rattle.std.specs.Prelude.{◌≡◌, ◌⊎◌, ◌↔◌, ℕ, [], Contains, OnOk, OnErr, IsOk};
ghost use Rattle.lw_index.specs.Places.{IsPlaceOf, IsPairOf};

use crate::places_of::PlacesOf;
use lw_join::Exact;
use lw_stamp::NoMemory;
use std::alloc::Global;
use std::collections::BTreeSet;
use std::marker::Model;

/// Keys, each with the places that have it: pairs, rising.
///
/// A call costs a descent of the tree of the pairs.
#[derive(Drop)]
pub struct Places<K: Exact> {
    pairs: BTreeSet<(K, u32)>,
}

impl<K: Exact> Model for Places<K> {
    ghost use Rattle.std.specs.Prelude.{ℕ, List};
    ghost use Rattle.lw_index.specs.Places.{AreShort};

    ghost Value = { List (K × ℕ) };

    ghost view = { λ p. p.pairs.keys };

    ghost invariant = { λ p. AreShort p.pairs.keys };
}

impl<K: Exact + Copy> Places<K> {
    /// No keys yet.
    pub fn new(alloc: Global) -> Places<K>
        ensures { result ≡ [] }
    {
        Places {
            pairs: BTreeSet::new(alloc),
        }
    }

    /// Files the place under the key. A pair that is there takes no memory.
    pub fn add(&mut self, key: K, place: u32) -> Result<(), NoMemory>
        ensures added { OnOk result ((k : K) (p : ℕ) → IsPlaceOf self.new k p
            ↔ (IsPlaceOf self.old k p ⊎ IsPairOf key place k p)) }
        ensures present { IsPlaceOf self.old key place → IsOk result × (self.new ≡ self.old) }
        ensures unchanged { OnErr result (self.new ≡ self.old) }
    {
        self.pairs.insert((key, place))?;
        Ok(())
    }

    /// Takes the place from the key.
    pub fn drop_one(&mut self, key: K, place: u32)
        ensures dropped { (k : K) (p : ℕ) → IsPlaceOf self.new k p
            ↔ (IsPlaceOf self.old k p × (IsPairOf key place k p → ⊥)) }
        ensures absent { (IsPlaceOf self.old key place → ⊥) → self.new ≡ self.old }
    {
        self.pairs.remove(&(key, place));
    }

    /// The places of the key. There are none where no place has it.
    pub fn of(&self, key: K) -> PlacesOf<'_, K>
        ensures { (p : ℕ) → Contains result p ↔ IsPlaceOf self.now key p }
    {
        PlacesOf {
            pairs: self.pairs.range((key, 0)..=(key, u32::MAX)),
        }
    }
}
