//! Laws of a replica, each the contract of a function that does nothing.

ghost use Rattle.lw_replica.specs.Lives.{ForgetsNothing};

/// A replica forgets nothing, whatever it was asked and whatever failed: what it knew, and so what it told, it knows ever
/// after, and its number stays its own.
pub fn forgets_nothing()
    ensures { ForgetsNothing }
{}
