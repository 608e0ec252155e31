ghost use Rattle.std.specs.Prelude.{◌≡◌, ◌↔◌, IsTrue, IsOk, OnOk, OnErr};
ghost use Rattle.lw_join.specs.Join.{IsJoin};

use lw_stamp::NoMemory;

/// Values with an order in which any two have a least value above both: their join.
pub trait Join: Drop {
    /// The order.
    ghost below: { Self → Self → Type 0 };

    /// The join of two values.
    ghost join: { Self → Self → Self };

    /// Holds of two values where the second joins into the first without memory.
    ghost in_place: { Self → Self → Type 0 };

    /// Whether the other is above this, or the same.
    fn le(&self, other: &Self) -> bool
        ensures { IsTrue result ↔ below self.now other.now };

    /// Makes this the join of both. Where that is refused, nothing has changed.
    fn join_with(&mut self, other: Self) -> Result<(), NoMemory>
        ensures ok { OnOk result (self.new ≡ join self.old other) }
        ensures err { OnErr result (self.new ≡ self.old) }
        ensures never_refused { in_place self.old other → IsOk result };

    ghost laws: { IsJoin below join };
}

/// A type whose joins take no memory, whatever the two values.
pub trait Calm: Join {
    /// Makes this the join of both. It is never refused.
    fn join_calm(&mut self, other: Self)
        ensures { self.new ≡ Self.join self.old other };

    ghost is_calm: { (x y : Self) → Self.in_place x y };
}
