ghost use Rattle.std.specs.Prelude.{◌≡◌};
ghost use Rattle.lw_serve.specs.declared.fault.ServeFault.TheVariants.{NoMemory as WantOfMemory, Crew as OfCrew, Unsettled as NotSettled};

use lw_crew::CrewFault;
use lw_held::Unsettled;
use lw_stamp::NoMemory;
use std::alloc::{AllocError, AllocFailed};
use thiserror::Error;

/// What ends a run early.
#[derive(Clone, Copy, Debug, PartialEq, Eq, Error)]
pub enum ServeFault {
    /// The wire failed 1,000 times in a row while it was waited for.
    #[error("receive failed: the wire failed 1000 times in a row")]
    ReceiveFailed,
    /// The host's clock gave no moment.
    #[error("clock refused: the host's clock gave no moment in range")]
    ClockRefused,
    /// The workers' results are not one for each job.
    #[error(transparent)]
    Crew(CrewFault),
    /// The journal of the node is not what the transcripts say, first at the place.
    #[error("unsettled {node} {place}: the journal of the node is not what the transcripts say, first at the place")]
    Unsettled { node: u16, place: u64 },
    /// The writer did not take the whole line.
    #[error("write failed: the writer did not take the whole line")]
    WriteFailed,
    /// A growth of the run's own was refused.
    #[error("no memory: a growth of the run's own was refused")]
    NoMemory,
}

impl From<NoMemory> for ServeFault {
    ghost from_gives = { λ _ fault. fault ≡ WantOfMemory };

    fn from(_error: NoMemory) -> ServeFault {
        ServeFault::NoMemory
    }
}

impl From<AllocError> for ServeFault {
    ghost from_gives = { λ _ fault. fault ≡ WantOfMemory };

    fn from(_error: AllocError) -> ServeFault {
        ServeFault::NoMemory
    }
}

impl<T: Drop> From<AllocFailed<T>> for ServeFault {
    ghost from_gives = { λ _ fault. fault ≡ WantOfMemory };

    fn from(_error: AllocFailed<T>) -> ServeFault {
        ServeFault::NoMemory
    }
}

impl From<CrewFault> for ServeFault {
    ghost from_gives = { λ error fault. fault ≡ OfCrew error };

    fn from(error: CrewFault) -> ServeFault {
        ServeFault::Crew(error)
    }
}

impl From<Unsettled> for ServeFault {
    ghost from_gives = { λ error fault. fault ≡ NotSettled error.node error.place };

    fn from(error: Unsettled) -> ServeFault {
        ServeFault::Unsettled {
            node: error.node,
            place: error.place,
        }
    }
}
