use thiserror::Error;

/// Why a line was not read.
#[derive(Clone, Copy, Debug, PartialEq, Eq, Error)]
pub enum LineFault {
    /// It is no line of a script.
    #[error("it is no line of a script")]
    Refused,
    /// A growth was refused. The line is one of a script.
    #[error("out of memory")]
    NoMemory,
}
