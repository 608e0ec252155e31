use lw_stamp::NoMemory;
use thiserror::Error;

/// Why a path is not observed, or an observation not ended. Of several the first is given.
#[derive(Clone, Copy, Debug, PartialEq, Eq, Error)]
pub enum ObserveFault {
    /// No registration with the identifier is shown, or no watch with the token lives.
    #[error("no registration with the identifier is shown, or no observation with the token lives")]
    NotFound,
    /// No stamp is left.
    #[error("the clock of the node is at its end")]
    ClockEnd,
    /// A growth was refused.
    #[error("out of memory")]
    NoMemory,
}

impl From<NoMemory> for ObserveFault {
    ghost use Rattle.std.specs.Prelude.{◌≡◌};
    ghost use Rattle.lw_call.specs.declared.observe_fault.ObserveFault.TheVariants.{NoMemory as WantOfMemory};

    ghost from_gives = { λ _ fault. fault ≡ WantOfMemory };

    fn from(_error: NoMemory) -> ObserveFault {
        ObserveFault::NoMemory
    }
}
