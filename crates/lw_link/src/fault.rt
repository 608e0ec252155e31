ghost use Rattle.std.specs.Prelude.{◌≡◌};
ghost use Rattle.lw_link.specs.declared.fault.LinkFault.TheVariants.{NoMemory as WantOfMemory};

use lw_stamp::NoMemory;
use thiserror::Error;

/// Why bytes were not read as links.
#[derive(Clone, Copy, Debug, PartialEq, Eq, Error)]
pub enum LinkFault {
    /// The bytes are not UTF-8.
    #[error("the links are not UTF-8")]
    NotText,
    /// The text leaves the grammar behind this many bytes: the whole characters at its front that some list
    /// begins with.
    #[error("the links leave the grammar after {place} bytes")]
    Grammar { place: usize },
    /// More than 256 links, in the grammar.
    #[error("there are more than 256 links")]
    TooMany,
    /// A growth was refused. The bytes spell 1 to 256 links.
    #[error("out of memory")]
    NoMemory,
}

impl From<NoMemory> for LinkFault {
    ghost from_gives = { λ _ fault. fault ≡ WantOfMemory };

    fn from(_error: NoMemory) -> LinkFault {
        LinkFault::NoMemory
    }
}
