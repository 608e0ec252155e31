//! Jobs and what became of them.

ghost use Rattle.std.specs.Prelude.{◌≡◌};
ghost use Rattle.lw_crew.specs.Gather.{number_of};

use lw_held::Call;
use thiserror::Error;

/// A call that is to be made of a node. Its number is its place in the list of jobs, from 0.
#[derive(Drop)]
pub struct Job {
    pub node: u16,
    pub call: Call,
}

/// What became of a job.
#[derive(Clone, Copy, Debug, PartialEq, Eq)]
pub enum JobOutcome {
    /// The call was made, and is this part of the pass with this number.
    At { pass: u32, number: u64 },
    /// There was no memory to make the call.
    NoMemory,
    /// No shelf has the node.
    NoSuchNode,
}

/// What became of the job with the number.
#[derive(Clone, Copy, Debug, PartialEq, Eq)]
pub struct Done {
    pub job: u64,
    pub result: JobOutcome,
}

/// Why there is no list with one `Done` for each job.
#[derive(Clone, Copy, Debug, PartialEq, Eq, Error)]
pub enum CrewFault {
    /// The job is not among the results.
    #[error("crew fault 1: job {job} has no result")]
    Missing { job: u64 },
    /// A second result of the job came.
    #[error("crew fault 2: job {job} has a second result")]
    Double { job: u64 },
    /// There is no such job, or what is told of it is not so.
    #[error("crew fault 3: a result is of job {job}, which was not given, or says of it what is not so")]
    Stranger { job: u64 },
    /// Memory ran out.
    #[error("crew fault 4: out of memory")]
    NoMemory,
}

impl CrewFault {
    /// The number of the fault, from 1.
    pub fn number(self) -> u8
        ensures { result ≡ number_of self }
    {
        match self {
            CrewFault::Missing { .. } => 1,
            CrewFault::Double { .. } => 2,
            CrewFault::Stranger { .. } => 3,
            CrewFault::NoMemory => 4,
        }
    }
}
