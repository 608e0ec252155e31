//! The API of a server: what it tells over HTTP.

ghost use Rattle.std.specs.Prelude.{◌≡◌, ◌↔◌, IfOk, IfSome, IsNone, false};
ghost use Rattle.lw_api.specs.Answers.{IsJson, IsNoContent};
ghost use Rattle.lw_route.specs.declared.api.Status.TheVariants as statuses;
ghost use Rattle.lw_server.specs.Commands.{noting, reason_of as reason_in, TellsDone, TellsObserved, TellsOutcome};
ghost use Rattle.lw_server.specs.Api.{about_of, health_status, serves, version, IsHealth, AreMeasures};
ghost use Rattle.lw_server.specs.Api.{AreRequestMeasures};
ghost use Rattle.lw_server.specs.Api.{IsMeasuredBy, TellsHealth, TellsMetrics, TellsNotifications, TellsOfNode};
ghost use Rattle.lw_server.specs.Api.{TellsPage};

use crate::counter::nears_end;
use crate::{Clocks, Done, Server, TurnFault};
use lw_api::{
    About, answer, created, error_response, no_content, not_found, notifications, numbers_of,
};
use lw_json::health_text;
use lw_log::DeltaLog;
use lw_metrics::{Measures, NodeMeasures, RequestMeasures, metrics_text};
use lw_node::Node;
use lw_route::{Api, ApiQuery, ApiResponse, Command, Media, Status};
use lw_stamp::{NoMemory, Stamp};

/// The version of the program.
const VERSION: &str = "0.1.0";

/// What is told while the server is unavailable.
const AWAY: &str = r#"{"error":"away"}"#;

/// What is told where there is no memory to do what was asked for.
const NO_MEMORY: &str = r#"{"error":"no memory"}"#;

impl<G: DeltaLog, C: Clocks> Api for Server<G, C> {
    ghost use Rattle.lw_server.specs.Commands.{IsCarriedOut};
    ghost use Rattle.lw_server.specs.Api.{TellsOf};

    ghost may_answer = { λ server api_query answer. TellsOf server api_query answer };

    ghost may_do = { λ old command answer new. IsCarriedOut old command answer new };

    fn answer(&self, api_query: &ApiQuery) -> Result<ApiResponse, NoMemory> {
        match api_query {
            ApiQuery::Page => self.page(),
            ApiQuery::Health => self.health(),
            ApiQuery::Metrics => self.metrics(),
            ApiQuery::Notifications { from, start, limit } => {
                self.notifications(*from, *start, *limit)
            }
            _ => self.of_node(api_query),
        }
    }

    fn carry_out(&mut self, command: &Command) -> Option<ApiResponse> {
        let outcome = self.execute(command);
        self.note_fault(outcome);
        self.tell_outcome(outcome).ok()
    }

    fn wants_to_send(&self) -> bool {
        self.fault.is_some() || !self.log_unavailable && self.devices.requests.is_due(self.steady)
    }
}

impl<G: DeltaLog, C: Clocks> Server<G, C> {
    fn page(&self) -> Result<ApiResponse, NoMemory>
        ensures { IfOk result (TellsPage self.now.page) }
    {
        match &self.page {
            Some(page) => Ok(ApiResponse {
                status: Status::Ok,
                media: Media::Html,
                body: String::from_str(self.alloc, page.as_str())?,
            }),
            None => not_found(self.alloc),
        }
    }

    fn health(&self) -> Result<ApiResponse, NoMemory>
        ensures { IfOk result (TellsHealth self.now) }
    {
        match self.node() {
            Some(node) => self.tell_health(true, nears_end(node.clock())),
            None => self.tell_health(false, false),
        }
    }

    fn tell_health(&self, serves: bool, nears_end: bool) -> Result<ApiResponse, NoMemory>
        ensures { IfOk result (IsHealth self.now serves nears_end) }
    {
        Ok(ApiResponse {
            status: status_of(serves),
            media: Media::Json,
            body: health_text(self.alloc, self.latest, serves, nears_end, VERSION)?,
        })
    }

    /// The node, while the server serves.
    pub(crate) fn node(&self) -> Option<&Node>
        ensures node { IfSome result (λ node. node.now ≡ self.now.replica.node) }
        ensures none { IsNone result ↔ (serves self.now ≡ false) }
    {
        if self.log_unavailable {
            return None;
        }
        self.replica.node()
    }

    fn notifications(
        &self,
        from: u64,
        start: Option<u64>,
        limit: usize,
    ) -> Result<ApiResponse, NoMemory>
        ensures { IfOk result (TellsNotifications (serves self.now) self.now from start limit) }
    {
        if self.node().is_none() {
            return self.unavailable(AWAY);
        }
        notifications(
            self.alloc,
            &self.notifications.buffer,
            self.about(),
            from,
            start,
            limit,
        )
    }

    /// Notes what a command failed by, if it did.
    fn note_fault(&mut self, outcome: Result<Done, TurnFault>)
        ensures { self.new ≡ noting outcome self.old }
    {
        if let Err(fault) = outcome {
            self.fault = Some(fault);
        }
    }

    /// What is told of a command, of which this has come.
    fn tell_outcome(&self, outcome: Result<Done, TurnFault>) -> Result<ApiResponse, NoMemory>
        ensures { IfOk result (TellsOutcome self.now outcome) }
    {
        match outcome {
            Ok(done) => self.tell_done(done),
            Err(fault) => self.unavailable(reason_of(fault)),
        }
    }

    fn tell_done(&self, done: Done) -> Result<ApiResponse, NoMemory>
        ensures { IfOk result (TellsDone self.now done) }
    {
        match done {
            Done::Observed(token) => self.observed(token),
            Done::Ended => self.ended(),
            Done::NotFound => not_found(self.alloc),
            Done::TooMany => self.unavailable(r#"{"error":"too many requests wait"}"#),
            Done::ClockEnd => self.unavailable(r#"{"error":"end of the clock"}"#),
            Done::NoMemory => self.unavailable(NO_MEMORY),
            Done::Unavailable => self.unavailable(AWAY),
        }
    }

    fn ended(&self) -> Result<ApiResponse, NoMemory>
        ensures { IfOk result IsNoContent }
    {
        Ok(no_content(self.alloc))
    }

    /// That an observation was made.
    fn observed(&self, token: Stamp) -> Result<ApiResponse, NoMemory>
        ensures { IfOk result (TellsObserved self.now.replica.durable self.now token) }
    {
        match self.replica.node() {
            Some(node) => created(self.alloc, node, self.latest, token),
            None => self.unavailable(AWAY),
        }
    }

    fn unavailable(&self, text: &str) -> Result<ApiResponse, NoMemory>
        ensures { IfOk result (IsJson statuses.ServiceUnavailable text.now) }
    {
        error_response(self.alloc, Status::ServiceUnavailable, text)
    }

    fn metrics(&self) -> Result<ApiResponse, NoMemory>
        ensures { IfOk result (TellsMetrics self.now) }
    {
        Ok(ApiResponse {
            status: Status::Ok,
            media: Media::Metrics,
            body: metrics_text(self.alloc, &self.measures())?,
        })
    }

    fn measures(&self) -> Measures
        ensures { AreMeasures self.now result }
    {
        let node = self.node_measures();
        let size = self.replica.log_size();
        Measures {
            version: VERSION,
            started: self.started,
            log_unavailable: node.is_none(),
            node,
            tally: self.tally,
            passed_over: self.passed_over,
            log_bytes: size.snapshot.saturating_add(size.behind),
            log_whole_bytes: size.snapshot,
            io_counters: self.io_counters,
            duplicates: self.duplicates,
            blocks: self.blocks,
            bodies: self.bodies.count() as u64,
            requests: self.request_measures(),
        }
    }

    fn request_measures(&self) -> RequestMeasures
        ensures { AreRequestMeasures self.now result }
    {
        let counts = self.devices.counts;
        RequestMeasures {
            requests_sent: counts.sent,
            requests_sent_again: counts.sent_again,
            requests_reset: counts.reset,
            requests_unanswered: counts.unanswered,
            requests_waiting: self.devices.requests.count() as u64,
            notifications_stale: self.notifications.stale,
            notification_blocks: counts.blocks,
            fetches: self.devices.fetches.count() as u64,
            without_message_id: self.without_message_id,
        }
    }

    fn node_measures(&self) -> Option<NodeMeasures>
        ensures { IsMeasuredBy (serves self.now) self.now.replica.node result }
    {
        let numbers = numbers_of(self.node()?, self.about());
        Some(NodeMeasures {
            registrations: numbers.registrations,
            counter: numbers.counter,
            change: numbers.change,
            number: self.replica.start().number,
        })
    }

    fn about(&self) -> About
        ensures { result ≡ about_of self.now.replica }
    {
        let start = self.replica.start();
        About {
            number: self.replica.is_claimed().then_some(start.number),
            tag: start.tag,
        }
    }

    fn of_node(&self, api_query: &ApiQuery) -> Result<ApiResponse, NoMemory>
        ensures { IfOk result (TellsOfNode (serves self.now) self.now api_query.now) }
    {
        match self.node() {
            Some(node) => answer(self.alloc, node, self.about(), self.latest, api_query),
            None => self.unavailable(AWAY),
        }
    }
}

/// Why a command was not carried out.
fn reason_of(fault: TurnFault) -> &'static str
    ensures { result.now ≡ reason_in fault }
{
    match fault {
        TurnFault::NoMemory => NO_MEMORY,
        TurnFault::ClockRefused => r#"{"error":"clock refused"}"#,
        TurnFault::Unavailable | TurnFault::Lost | TurnFault::Replica(_) => AWAY,
    }
}

fn status_of(serves: bool) -> Status
    ensures { result ≡ health_status serves }
{
    if serves {
        Status::Ok
    } else {
        Status::ServiceUnavailable
    }
}
