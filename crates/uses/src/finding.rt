//! A device registers, and is found.

ghost use Rattle.std.specs.Prelude.{◌≡◌, ◌≢◌, ◌-◌, ◌^◌, IfOk};
ghost use Rattle.lw_stamp.specs.Moment.{ms_of};
ghost use Rattle.uses.specs.Finding.{Register, IsRegister, IsFound};

use lw_call::Taken;
use lw_node::Node;
use lw_reg::{Addr, Seen};
use lw_stamp::{Moment, NoMemory};
use std::alloc::Global;

// cut: register_and_find
/// Takes a datagram, and looks up at the same moment what is shown of an endpoint. Where memory runs out, the
/// datagram may have been taken.
pub fn register_and_find(
    alloc: Global,
    node: &mut Node,
    now: Moment,
    from: Addr,
    datagram: &[u8],
    endpoint: &str,
) -> Result<(Taken, Option<Seen>), NoMemory>
    // Where it is a Register of the endpoint, and a stamp is left, the reply is 2.01 with an identifier, and the
    // registration with that is shown as it was written.
    ensures { (r : Register) → IsRegister datagram.now endpoint.now r → node.old.clock ≢ 2 ^ 48 - 1
        → IfOk result (λ x. IsFound r (ms_of now) from endpoint.now x.0.reply x.1) }
{
    // No stamp that the node knows of is above its clock.
    let _clock = node.clock();
    let taken = node.take(now, from, datagram)?;
    match node.by_endpoint(now, endpoint) {
        Some(shown) => Ok((taken, Some(shown.to_seen(alloc)?))),
        None => Ok((taken, None)),
    }
}
// end: register_and_find
