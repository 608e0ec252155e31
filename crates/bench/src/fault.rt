use lw_coap::Fault;
use lw_delta::DeltaFault;
use lw_link::LinkFault;
use lw_node::MergeFault;
use lw_replica::ReplicaFault;
use lw_script::ScriptFault;
use lw_serve::ServeFault;
use lw_server::RunFault;
use lw_sqlite_log::OpenFault;
use lw_stamp::NoMemory;
use std::alloc::{AllocError, AllocFailed};
use std::io;

/// What ends the program early.
#[derive(Clone, Copy, Debug)]
pub(crate) enum BenchFault {
    /// An answer is not the one that was expected.
    Unexpected,
    /// A clock, a file, a socket or the output failed.
    Device,
    NoMemory,
    /// The first word is none of `full`, `serving` and `asking`, or no ports stand behind the last.
    UnknownWord,
    /// A run that served ended so.
    Served(ServeFault),
    /// A replica that answered did not begin, or its run ended so.
    Ran(RunFault),
    /// The folder of a replica was not opened.
    Unopened(OpenFault),
}

impl From<NoMemory> for BenchFault {
    fn from(_error: NoMemory) -> BenchFault {
        BenchFault::NoMemory
    }
}

impl From<AllocError> for BenchFault {
    fn from(_error: AllocError) -> BenchFault {
        BenchFault::NoMemory
    }
}

impl<T: Drop> From<AllocFailed<T>> for BenchFault {
    fn from(_error: AllocFailed<T>) -> BenchFault {
        BenchFault::NoMemory
    }
}

impl From<io::Error> for BenchFault {
    fn from(_error: io::Error) -> BenchFault {
        BenchFault::Device
    }
}

impl From<Fault> for BenchFault {
    fn from(_fault: Fault) -> BenchFault {
        BenchFault::Unexpected
    }
}

impl From<LinkFault> for BenchFault {
    fn from(_fault: LinkFault) -> BenchFault {
        BenchFault::Unexpected
    }
}

impl From<DeltaFault> for BenchFault {
    fn from(_fault: DeltaFault) -> BenchFault {
        BenchFault::Unexpected
    }
}

impl From<MergeFault> for BenchFault {
    fn from(_fault: MergeFault) -> BenchFault {
        BenchFault::Unexpected
    }
}

impl From<ScriptFault> for BenchFault {
    fn from(_fault: ScriptFault) -> BenchFault {
        BenchFault::Unexpected
    }
}

impl From<ServeFault> for BenchFault {
    fn from(fault: ServeFault) -> BenchFault {
        BenchFault::Served(fault)
    }
}

impl From<ReplicaFault> for BenchFault {
    fn from(fault: ReplicaFault) -> BenchFault {
        BenchFault::Ran(RunFault::from(fault))
    }
}

impl From<RunFault> for BenchFault {
    fn from(fault: RunFault) -> BenchFault {
        BenchFault::Ran(fault)
    }
}

impl From<OpenFault> for BenchFault {
    fn from(fault: OpenFault) -> BenchFault {
        BenchFault::Unopened(fault)
    }
}
