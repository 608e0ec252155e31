use crate::exact::Exact;
use crate::join::{Calm, Join};
use crate::parts::Parts;
use lw_stamp::NoMemory;

/// Two maps that join at once: where there is no memory for one of them, neither changes.
#[derive(Drop)]
pub struct Both<K: Ord, J, L: Ord, M> {
    pub left: Parts<K, J>,
    pub right: Parts<L, M>,
}

impl<K: Exact, J: Drop, L: Exact, M: Drop> Both<K, J, L, M> {
    ghost use Rattle.std.specs.Prelude.{◌≡◌, ◌↔◌, [], IsTrue};
    ghost use Rattle.lw_join.specs.Parts.{entries_of};

    /// Whether neither map has an entry.
    pub fn is_empty(&self) -> bool
        ensures { IsTrue result ↔ ((entries_of self.now.left ≡ []) × (entries_of self.now.right ≡ [])) }
    {
        self.left.is_empty() && self.right.is_empty()
    }
}

impl<K: Exact, J: Calm, L: Exact, M: Calm> Join for Both<K, J, L, M> {
    ghost use Rattle.lw_join.specs.Both.{both_below, both_join, both_in_place};
    ghost use Rattle.lw_join.specs.BothLaws.{both_laws};

    ghost below = { both_below J.below M.below };

    ghost join = { both_join J.join M.join };

    ghost in_place = { both_in_place };

    ghost laws = { both_laws (record { total = K.total; exact = K.exact }) (record { total = L.total; exact = L.exact }) J.laws M.laws };

    fn le(&self, other: &Both<K, J, L, M>) -> bool {
        self.left.le(&other.left) && self.right.le(&other.right)
    }

    /// Takes memory for the keys that are missing, of both maps before either changes.
    fn join_with(&mut self, other: Both<K, J, L, M>) -> Result<(), NoMemory> {
        let Both { left, right } = other;
        self.left.join_both(left, &mut self.right, right)
    }
}
