//! What a report of an observation is to do.

ghost use Rattle.std.specs.Prelude.{◌≡◌, ◌↔◌, ℕ, IfOk, IfSome, IfNone, IsTrue, Some};
ghost use Rattle.lw_stamp.specs.declared.stamp.Stamp.{Stamp as Stamps};
ghost use Rattle.lw_stamp.specs.Stamp.{stamp_bytes};
ghost use Rattle.lw_stamp.specs.Moment.{ms_of};
ghost use Rattle.lw_reg.specs.Endpoint.{IsEndpoint};
ghost use Rattle.lw_reg.specs.Registration.{Registration};
ghost use Rattle.lw_reg.specs.declared.watch.Watch.{Watch as Watches};
ghost use Rattle.lw_node.specs.Calls.{issuer_at};
ghost use Rattle.lw_node.specs.inner.Calls.{Decided, Decides};
ghost use Rattle.lw_node.specs.Effects.{ReportMeans, EndsWatch, GoesOn, IsWatched, notice_of};
ghost use Rattle.lw_node.specs.Node.{Known, IsKnown, marks_in};

use crate::answering::{acknowledged, rejected, unwanted};
use crate::decision::Decision;
use crate::node::Node;
use lw_call::Notice;
use lw_reg::{Endpoint, Op, Text, View, Watch, What};
use lw_request::Report;
use lw_stamp::{Moment, NoMemory, Stamp};
use std::alloc::Global;

/// The class of a success (RFC 7252, section 5.9.1).
const SUCCESS: u8 = 2;

/// Whether the observation goes on: a success with a number of its own (RFC 7641, section 4.2).
fn goes_on(report: &Report) -> bool
    ensures { IsTrue result ↔ GoesOn report.now }
{
    report.code / 32 == SUCCESS && report.observe.is_some()
}

/// The stamp whose bytes the token is.
fn stamp_in(token: &[u8]) -> Option<Stamp>
    ensures { (s : Stamps) → (result ≡ Some s) ↔ (token.now ≡ stamp_bytes s) }
{
    let &[a, b, c, d, e, f, g, h] = token else {
        return None;
    };
    Stamp::from_bytes([a, b, c, d, e, f, g, h])
}

/// What the report tells of the watch.
fn notice_of(
    alloc: Global,
    report: Report,
    view: &View<'_>,
    watch: Watch,
    ended: bool,
) -> Result<Notice, NoMemory>
    ensures { IfOk result (λ n. n ≡ notice_of report (view.now, watch) ended) }
{
    let endpoint = Text::copy_of(alloc, view.endpoint)?;
    let Report {
        code,
        observe,
        format,
        payload,
        ..
    } = report;
    Ok(Notice {
        token: watch.token,
        id: view.id,
        endpoint,
        path: watch.path,
        code,
        observe,
        format,
        ended,
        payload,
    })
}

impl Node {
    pub(crate) fn decide_report(&self, now: Moment, report: Report) -> Result<Decision, NoMemory>
        ensures { IfOk result (Decided self.now.table.state (λ M.
            ReportMeans (issuer_at self.now (ms_of now)) M report)) }
    {
        let Some((view, watch)) = self.watched(now, &report.token) else {
            let reply = unwanted(self.alloc, report.kind, report.mid)?;
            return Ok(Decision::reply(reply));
        };
        if !goes_on(&report) {
            return self.decide_end(report, &view, watch);
        }
        let reply = acknowledged(self.alloc, report.kind, report.mid)?;
        Ok(Decision {
            reply,
            notice: Some(notice_of(self.alloc, report, &view, watch, false)?),
            operation: None,
        })
    }

    /// The report ends the watch.
    fn decide_end(
        &self,
        report: Report,
        view: &View<'_>,
        watch: Watch,
    ) -> Result<Decision, NoMemory>
        requires { IsEndpoint view.now.endpoint }
        ensures { (now : ℕ) → IfOk result (Decides (EndsWatch (issuer_at self.now now) report (view.now, watch))) }
    {
        let Some(stamp) = self.next_stamp() else {
            let reply = rejected(self.alloc, report.kind, report.mid)?;
            return Ok(Decision::reply(reply));
        };
        let reply = acknowledged(self.alloc, report.kind, report.mid)?;
        let endpoint = Endpoint::copy_of(self.alloc, view.endpoint)?;
        Ok(Decision {
            reply,
            notice: Some(notice_of(self.alloc, report, view, watch, true)?),
            operation: Some(Op {
                stamp,
                endpoint,
                reg: view.id,
                what: What::Cancel {
                    path: watch.path,
                    token: watch.token,
                },
            }),
        })
    }

    /// The live watch with the token, if it is that of a stamp, and its registration.
    fn watched(&self, now: Moment, token: &[u8]) -> Option<(View<'_>, Watch)>
        ensures some { IfSome result (λ x. (known : Known) → IsKnown self.now.table.state known
            → IsWatched (marks_in self.now.table.state known) (ms_of now) token.now x) }
        ensures none { IfNone result ((known : Known) → IsKnown self.now.table.state known
            → (x : Registration × Watches)
            → ¬ IsWatched (marks_in self.now.table.state known) (ms_of now) token.now x) }
        ensures endpoint { IfSome result (λ x. IsEndpoint x.0.endpoint) }
    {
        self.table.by_token(now, stamp_in(token)?)
    }
}
