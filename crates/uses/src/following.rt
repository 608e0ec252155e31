//! An observation, and what the device then tells of it.

ghost use Rattle.std.specs.Prelude.{IfOk, OnOk};
ghost use Rattle.lw_stamp.specs.Moment.{ms_of};
ghost use Rattle.uses.specs.Following.{Follows, Keeps, TakesAll};

use lw_call::{Notice, ObserveFault, Outgoing};
use lw_node::Node;
use lw_reg::{Addr, Path};
use lw_stamp::{Moment, NoMemory, Stamp};
use std::alloc::Global;

/// A datagram, when it came and from where.
#[derive(Drop)]
pub struct Datagram {
    pub now: Moment,
    pub from: Addr,
    pub bytes: Vec<u8>,
}

// cut: follow
/// Observes a path of a registration, takes the datagrams that come, and keeps what the device tells of the
/// observation: the request that is to be sent, and the notices in order. Where memory runs out, some datagrams may
/// have been taken.
pub fn follow(
    alloc: Global,
    node: &mut Node,
    now: Moment,
    id: Stamp,
    path: Path,
    datagrams: &[Datagram],
) -> Result<(Outgoing, Vec<Notice>), ObserveFault>
    // The notices that were kept are exactly those with the token of the observation.
    ensures { IfOk result (λ x. Follows node.old (ms_of now) id path datagrams.now x.0 x.1.items node.new) }
{
    let request = node.observe(now, id, path, None, 1)?;
    let notices = notices_of(alloc, node, request.token, datagrams)?;
    Ok((request, notices))
}

fn notices_of(
    alloc: Global,
    node: &mut Node,
    token: Stamp,
    datagrams: &[Datagram],
) -> Result<Vec<Notice>, NoMemory>
    ensures { IfOk result (λ notices. TakesAll token node.old datagrams.now notices.items node.new) }
{
    let mut notices = Vec::new(alloc);
    for datagram in datagrams {
        let taken = node.take(datagram.now, datagram.from, &datagram.bytes)?;
        keep(&mut notices, token, taken.notice)?;
    }
    Ok(notices)
}

/// Keeps the notice, if there is one with the token.
fn keep(notices: &mut Vec<Notice>, token: Stamp, notice: Option<Notice>) -> Result<(), NoMemory>
    ensures { OnOk result (Keeps notices.old.items token notice notices.new.items) }
{
    let Some(notice) = notice else {
        return Ok(());
    };
    if notice.token == token {
        notices.push(notice)?;
    }
    Ok(())
}
// end: follow
