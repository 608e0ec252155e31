//! What follows for every join, each the contract of a function that does nothing.

ghost use Rattle.std.specs.Prelude.{◌≡◌, ◌↔◌, List, ◌∷◌};
ghost use Rattle.std.specs.List.{Contains};
ghost use Rattle.lw_join.specs.Join.{IsSemilattice};
ghost use Rattle.lw_join.specs.Least.{IsLeastAbove, joined_all};
ghost use Rattle.lw_join.specs.Parts.{JoinsKeyByKey};

use crate::exact::Exact;
use crate::join::{Calm, Join};
use crate::parts::Parts;

/// Every join is commutative, associative and idempotent.
pub fn joins_are_semilattices<J: Join>()
    ensures { IsSemilattice J.join }
{}

/// The join of a list is the least value above its members, so that neither their order nor a repeat
/// of one changes it.
pub fn joins_are_of_members<J: Join>()
    ensures least { (x : J) (xs : List J) → IsLeastAbove J.below (Contains (x ∷ xs)) (joined_all J.join x xs) }
    ensures members { (x y : J) (xs ys : List J) → ((z : J) → Contains (x ∷ xs) z ↔ Contains (y ∷ ys) z) → joined_all J.join x xs ≡ joined_all J.join y ys }
{}

/// At each key a join of maps has the join of their values.
pub fn maps_join_key_by_key<K: Exact, J: Calm>()
    ensures { JoinsKeyByKey ⟦<Parts<K, J> as Join>⟧.join J.join }
{}
