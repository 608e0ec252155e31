//! What a datagram is to do.

ghost use Rattle.std.specs.Prelude.{◌≡◌, ◌≤◌, ◌<◌, ◌⊎◌, ℕ, IfOk, IfSome, None, Ok, Some, length};
ghost use Rattle.lw_stamp.specs.Moment.{ms_of};
ghost use Rattle.lw_reg.specs.Endpoint.{IsEndpoint};
ghost use Rattle.lw_node.specs.Calls.{issuer_at, IsReply, IsSilent};
ghost use Rattle.lw_node.specs.inner.Calls.{Decided, Decides, silence};
ghost use Rattle.lw_node.specs.Effects.{DatagramMeans, MessageMeans, Issues, IsAbout, IsNamed, NamedChanges, answers, answered, created};
ghost use Rattle.lw_node.specs.Node.{Known, IsKnown, marks_in};

use crate::answering::{answered, malformed, rejected, reset_to};
use crate::decision::Decision;
use crate::node::Node;
use lw_coap::codes::{CHANGED, CREATED, DELETED, NOT_FOUND, SERVICE_UNAVAILABLE};
use lw_coap::{Fault, Kind, LentMessage, decode_lent};
use lw_reg::{Addr, Endpoint, Op, View, What};
use lw_request::{Asked, understand_lent};
use lw_stamp::{Moment, NoMemory, Stamp};
use std::alloc::Global;

impl Node {
    /// What a datagram that came at this moment from this address is to do.
    pub(crate) fn decide(&self, now: Moment, from: Addr, bytes: &[u8]) -> Result<Decision, NoMemory>
        ensures meaning { IfOk result (Decided self.now.table.state (λ M.
            DatagramMeans (issuer_at self.now (ms_of now)) M from bytes.now)) }
        ensures silent { IsSilent bytes.now → result ≡ Ok silence }
    {
        match decode_lent(self.alloc, bytes) {
            Ok(message) => self.decide_message(now, from, &message.lend()),
            Err(fault) => match fault {
                Fault::NoMemory => Err(NoMemory),
                _ => Ok(Decision::reply(malformed(self.alloc, bytes)?)),
            },
        }
    }

    fn decide_message(
        &self,
        now: Moment,
        from: Addr,
        message: &LentMessage<'_>,
    ) -> Result<Decision, NoMemory>
        requires { length message.now.token ≤ 8 }
        ensures { IfOk result (Decided self.now.table.state (λ M.
            MessageMeans (issuer_at self.now (ms_of now)) M from message.now)) }
    {
        let alloc = self.alloc;
        match understand_lent(alloc, message)? {
            Asked::Register {
                endpoint,
                version,
                queue,
                settings,
            } => {
                let what = What::Register {
                    version,
                    queue,
                    address: from,
                    seen: now,
                    settings,
                };
                self.decide_register(message, endpoint, what)
            }
            Asked::Update { id, settings } => {
                let what = What::Update {
                    address: from,
                    seen: now,
                    settings,
                };
                self.decide_named(now, message, id, what, CHANGED)
            }
            Asked::Deregister { id } => self.decide_named(now, message, id, What::Remove, DELETED),
            Asked::Report(report) => self.decide_report(now, report),
            Asked::Ping => Ok(Decision::reply(reset_to(alloc, message.mid)?)),
            Asked::Refuse(refusal) => refused(alloc, message, refusal.code()),
            Asked::Reject => Ok(Decision::reply(rejected(alloc, message.kind, message.mid)?)),
            Asked::Ignore => Ok(Decision::reply(None)),
        }
    }

    /// A Register is answered with its location.
    fn decide_register(
        &self,
        request: &LentMessage<'_>,
        endpoint: Endpoint,
        what: What,
    ) -> Result<Decision, NoMemory>
        requires kind { (request.now.kind ≡ Kind.Con) ⊎ (request.now.kind ≡ Kind.Non) }
        requires token { length request.now.token ≤ 8 }
        ensures { (now : ℕ) → IfOk result (Decides (Issues (issuer_at self.now now) request.now (λ op.
            (op.endpoint ≡ endpoint) × (op.reg ≡ op.stamp) × (op.what ≡ what)) (created request.now))) }
    {
        let Some(stamp) = self.next_stamp() else {
            return refused(self.alloc, request, SERVICE_UNAVAILABLE);
        };
        let operation = Op {
            stamp,
            endpoint,
            reg: stamp,
            what,
        };
        operates(self.alloc, request, CREATED, Some(stamp), operation)
    }

    /// A request on a registration is answered with the code, where the registration is shown.
    fn decide_named(
        &self,
        now: Moment,
        request: &LentMessage<'_>,
        id: Option<Stamp>,
        what: What,
        code: u8,
    ) -> Result<Decision, NoMemory>
        requires kind { (request.now.kind ≡ Kind.Con) ⊎ (request.now.kind ≡ Kind.Non) }
        requires token { length request.now.token ≤ 8 }
        requires code { 0 < code }
        ensures { IfOk result (Decided self.now.table.state (λ M.
            NamedChanges (issuer_at self.now (ms_of now)) M request.now id (λ w. w ≡ what) code)) }
    {
        let Some(view) = self.named(now, id) else {
            return refused(self.alloc, request, NOT_FOUND);
        };
        self.decide_about(&view, request, what, code)
    }

    /// A request on a registration that is shown is answered with the code.
    fn decide_about(
        &self,
        view: &View<'_>,
        request: &LentMessage<'_>,
        what: What,
        code: u8,
    ) -> Result<Decision, NoMemory>
        requires endpoint { IsEndpoint view.now.endpoint }
        requires kind { (request.now.kind ≡ Kind.Con) ⊎ (request.now.kind ≡ Kind.Non) }
        requires token { length request.now.token ≤ 8 }
        requires code { 0 < code }
        ensures { (now : ℕ) → IfOk result (Decides (Issues (issuer_at self.now now) request.now (λ op.
            IsAbout view.now op × (op.what ≡ what)) (answered request.now code))) }
    {
        let Some(stamp) = self.next_stamp() else {
            return refused(self.alloc, request, SERVICE_UNAVAILABLE);
        };
        let operation = Op {
            stamp,
            endpoint: Endpoint::copy_of(self.alloc, view.endpoint)?,
            reg: view.id,
            what,
        };
        operates(self.alloc, request, code, None, operation)
    }

    /// The shown registration that a request names, if it names one.
    fn named(&self, now: Moment, id: Option<Stamp>) -> Option<View<'_>>
        ensures found { (known : Known) → IsKnown self.now.table.state known
            → IsNamed (marks_in self.now.table.state known) (ms_of now) id result }
        ensures endpoint { IfSome result (λ r. IsEndpoint r.endpoint) }
    {
        self.table.by_id(now, id?)
    }
}

/// A request that changes nothing is answered with the code.
fn refused(alloc: Global, request: &LentMessage<'_>, code: u8) -> Result<Decision, NoMemory>
    requires kind { (request.now.kind ≡ Kind.Con) ⊎ (request.now.kind ≡ Kind.Non) }
    requires token { length request.now.token ≤ 8 }
    requires code { 0 < code }
    ensures { IfOk result (λ d. IsReply d.reply (Some (answers request.now code None))
        × (d ≡ record { reply = d.reply; notice = None; operation = None })) }
{
    Ok(Decision::reply(answered(alloc, request, code, None)?))
}

/// A request that is an operation is answered with the code.
fn operates(
    alloc: Global,
    request: &LentMessage<'_>,
    code: u8,
    location: Option<Stamp>,
    operation: Op,
) -> Result<Decision, NoMemory>
    requires kind { (request.now.kind ≡ Kind.Con) ⊎ (request.now.kind ≡ Kind.Non) }
    requires token { length request.now.token ≤ 8 }
    requires code { 0 < code }
    ensures { IfOk result (λ d. IsReply d.reply (Some (answers request.now code location))
        × (d ≡ record { reply = d.reply; notice = None; operation = Some operation })) }
{
    let reply = answered(alloc, request, code, location)?;
    Ok(Decision {
        reply,
        notice: None,
        operation: Some(operation),
    })
}
