ghost use Rattle.std.specs.Prelude.{◌≡◌, ◌⊎◌, ◌↔◌, ℕ, List, [], ◌∷◌, IfOk, OnOk, OnErr, IsOk};
ghost use Rattle.std.specs.Cmp.Lexicographic.{slice_cmp};
ghost use Rattle.std.specs.Ordering.{nat_cmp};
ghost use Rattle.std.specs.List.Sorted.{IsStrictlySortedBy};
ghost use Rattle.lw_index.specs.Index.{endpoints_of, Has, IsIndex, IsPair};

use crate::endpoints::Endpoints;
use crate::texts::Texts;
use lw_stamp::NoMemory;
use std::alloc::Global;
use std::collections::BTreeMap;
use std::marker::Model;

/// A map from each key to the endpoints that have it, of which there is at least one.
///
/// Keys that compare equal are one key. A call costs a descent of the tree of the keys, a second one where a
/// key goes, one that compares no keys where `add` finds its key, and where a key has several endpoints a
/// descent of their tree, or two where one is added.
#[derive(Drop)]
pub struct Index<K: Ord> {
    alloc: Global,
    entries: BTreeMap<K, Texts>,
}

impl<K: Ord> Model for Index<K> {
    ghost use Rattle.std.specs.Prelude.{ℕ, List};
    ghost use Rattle.std.specs.BTreeMap.{IsOrdered};
    ghost use Rattle.lw_index.specs.Index.{EachHasEndpoints};

    ghost Value = { List (K × List (List ℕ)) };

    ghost view = { λ index. index.entries.entries };

    ghost invariant = { λ index. IsOrdered K.cmp index.entries × EachHasEndpoints index.entries.entries };
}

impl<K: Ord + Drop> Index<K> {
    /// An index without keys.
    pub fn new(alloc: Global) -> Index<K>
        ensures { result ≡ [] }
    {
        Index {
            alloc,
            entries: BTreeMap::new(alloc),
        }
    }

    /// Files the endpoint under the key. A pair that is there takes no memory.
    pub fn add(&mut self, key: K, endpoint: &str) -> Result<(), NoMemory>
        ensures added { OnOk result ((k : K) (e : List ℕ) → Has K.cmp self.new k e
            ↔ (Has K.cmp self.old k e ⊎ IsPair K.cmp key endpoint.now k e)) }
        ensures present { Has K.cmp self.old key endpoint.now → IsOk result × (self.new ≡ self.old) }
        ensures unchanged { OnErr result (self.new ≡ self.old) }
    {
        let alloc = self.alloc;
        let endpoints = self.entries.entry(key)?.or_try_insert_with(
            ||
                ensures { IfOk result (λ texts. texts ≡ endpoint.entry.now ∷ []) }
            { Texts::one(alloc, endpoint) },
        )?;
        endpoints.add(alloc, endpoint)
    }

    /// Takes the endpoint from the key. A key whose last endpoint goes is gone.
    pub fn drop_one(&mut self, key: &K, endpoint: &str)
        ensures dropped { (k : K) (e : List ℕ) → Has K.cmp self.new k e
            ↔ (Has K.cmp self.old k e × ((IsPair K.cmp key.now endpoint.now k e) → ⊥)) }
        ensures absent { (Has K.cmp self.old key.now endpoint.now → ⊥) → self.new ≡ self.old }
    {
        let Some(endpoints) = self.entries.get_mut(key) else {
            return;
        };
        if endpoints.is_only(endpoint) {
            self.entries.remove(key);
            return;
        }
        endpoints.remove(endpoint);
    }

    /// The endpoints of the key, rising by their bytes. There are none where the index lacks the key.
    pub fn of(&self, key: &K) -> Endpoints<'_>
        ensures endpoints { result ≡ endpoints_of K.cmp self.now key.now }
        ensures rising { IsStrictlySortedBy (slice_cmp nat_cmp) result }
        ensures is_index { IsIndex K.cmp self.now }
    {
        match self.entries.get(key) {
            Some(endpoints) => endpoints.iter(),
            None => Endpoints::none(),
        }
    }
}
