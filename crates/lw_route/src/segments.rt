//! What the last segment of a path names.

ghost use Rattle.lw_route.specs.Answers.{Reads};
ghost use Rattle.lw_route.specs.Targets.{IsId, IsAddress};
ghost use Rattle.lw_route.specs.inner.Faults.{IsAnswered};
ghost use Rattle.lw_route.specs.declared.error.RouteError.TheVariants as error;

use crate::RouteError;
use crate::decoding::decoded;
use crate::fault::Fault;
use lw_reg::Addr;
use lw_stamp::Stamp;
use std::alloc::Global;

/// The identifier of a registration, or the token of an observation.
pub(crate) fn id(alloc: Global, segment: &str, error: RouteError) -> Result<Stamp, Fault>
    ensures { IsAnswered (Reads IsId error segment.now) result }
{
    let name = decoded(alloc, segment, error)?;
    match Stamp::read_id(name.as_str().as_bytes()) {
        Some(id) => Ok(id),
        None => Err(Fault::Route(error)),
    }
}

/// The address of a client.
pub(crate) fn address(alloc: Global, segment: &str) -> Result<Addr, Fault>
    ensures { IsAnswered (Reads IsAddress error.Address segment.now) result }
{
    let name = decoded(alloc, segment, RouteError::Address)?;
    match Addr::read(name.as_str()) {
        Some(address) => Ok(address),
        None => Err(Fault::Route(RouteError::Address)),
    }
}
