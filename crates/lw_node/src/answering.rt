//! The replies of a node, and their bytes.

ghost use Rattle.std.specs.Prelude.{◌≡◌, ◌≤◌, ◌<◌, ◌⊎◌, IfOk, Ok, Some, None, option_map, length};
ghost use Rattle.lw_request.specs.Reply.{reset_of, ack_of};
ghost use Rattle.lw_node.specs.Calls.{IsReply};
ghost use Rattle.lw_node.specs.inner.Calls.{RepliesMalformed};
ghost use Rattle.lw_node.specs.Effects.{answers, rejected, acknowledged, unwanted, HasNoConfirmable};

use lw_coap::{Kind, LentMessage, peek_header};
use lw_request::{ack, answer, reset};
use lw_stamp::{NoMemory, Stamp};
use std::alloc::Global;

/// The answer to a request.
pub(crate) fn answered(
    alloc: Global,
    request: &LentMessage<'_>,
    code: u8,
    location: Option<Stamp>,
) -> Result<Option<Vec<u8>>, NoMemory>
    requires kind { (request.now.kind ≡ Kind.Con) ⊎ (request.now.kind ≡ Kind.Non) }
    requires token { length request.now.token ≤ 8 }
    requires code { 0 < code }
    ensures { IfOk result (λ r.
        IsReply (option_map (λ bytes. bytes.items) r) (Some (answers request.now code location))) }
{
    let bytes = answer(
        alloc,
        request.kind,
        request.mid,
        request.token,
        code,
        location,
    )?;
    Ok(Some(bytes))
}

pub(crate) fn reset_to(alloc: Global, mid: u16) -> Result<Option<Vec<u8>>, NoMemory>
    ensures { IfOk result (λ r. IsReply (option_map (λ bytes. bytes.items) r) (Some (reset_of mid))) }
{
    Ok(Some(Vec::from_slice(alloc, &reset(mid))?))
}

fn ack_to(alloc: Global, mid: u16) -> Result<Option<Vec<u8>>, NoMemory>
    ensures { IfOk result (λ r. IsReply (option_map (λ bytes. bytes.items) r) (Some (ack_of mid))) }
{
    Ok(Some(Vec::from_slice(alloc, &ack(mid))?))
}

/// A confirmable message that is rejected is reset.
pub(crate) fn rejected(alloc: Global, kind: Kind, mid: u16) -> Result<Option<Vec<u8>>, NoMemory>
    ensures { IfOk result (λ r. IsReply (option_map (λ bytes. bytes.items) r) (rejected kind mid)) }
{
    match kind {
        Kind::Con => reset_to(alloc, mid),
        Kind::Non | Kind::Ack | Kind::Rst => Ok(None),
    }
}

/// A confirmable notification is acknowledged.
pub(crate) fn acknowledged(alloc: Global, kind: Kind, mid: u16) -> Result<Option<Vec<u8>>, NoMemory>
    ensures { IfOk result (λ r. IsReply (option_map (λ bytes. bytes.items) r) (acknowledged kind mid)) }
{
    match kind {
        Kind::Con => ack_to(alloc, mid),
        Kind::Non | Kind::Ack | Kind::Rst => Ok(None),
    }
}

/// A notification that nobody waits for is reset, save in an acknowledgement.
pub(crate) fn unwanted(alloc: Global, kind: Kind, mid: u16) -> Result<Option<Vec<u8>>, NoMemory>
    ensures { IfOk result (λ r. IsReply (option_map (λ bytes. bytes.items) r) (unwanted kind mid)) }
{
    match kind {
        Kind::Con | Kind::Non => reset_to(alloc, mid),
        Kind::Ack | Kind::Rst => Ok(None),
    }
}

/// The reply to bytes that spell no message.
pub(crate) fn malformed(alloc: Global, bytes: &[u8]) -> Result<Option<Vec<u8>>, NoMemory>
    ensures reply { IfOk result (λ r. RepliesMalformed bytes.now (option_map (λ bytes. bytes.items) r)) }
    ensures silent { HasNoConfirmable bytes.now → result ≡ Ok None }
{
    match peek_header(bytes) {
        Some((Kind::Con, _, mid)) => reset_to(alloc, mid),
        _ => Ok(None),
    }
}
