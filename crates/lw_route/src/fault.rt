ghost use Rattle.std.specs.Prelude.{◌≡◌};

use crate::RouteError;
use lw_stamp::NoMemory;

/// Why a step of reading came to nothing.
#[derive(Clone, Copy)]
pub(crate) enum Fault {
    Route(RouteError),
    NoMemory,
}

impl From<NoMemory> for Fault {
    ghost use Rattle.lw_route.specs.declared.fault.Fault.TheVariants as fault;

    ghost from_gives = { λ _ f. f ≡ fault.NoMemory };

    fn from(_error: NoMemory) -> Fault {
        Fault::NoMemory
    }
}

impl From<RouteError> for Fault {
    ghost use Rattle.lw_route.specs.declared.fault.Fault.TheVariants as fault;

    ghost from_gives = { λ error f. f ≡ fault.Route error };

    fn from(error: RouteError) -> Fault {
        Fault::Route(error)
    }
}
