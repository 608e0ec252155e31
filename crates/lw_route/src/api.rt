//! Who is asked, and what is told.

use crate::{ApiQuery, Command};
use lw_stamp::NoMemory;

/// How a response begins (RFC 9110, section 15).
#[derive(Clone, Copy, Debug, PartialEq, Eq)]
pub enum Status {
    Ok,
    Created,
    NoContent,
    BadRequest,
    NotFound,
    Gone,
    ServiceUnavailable,
}

/// The media type of a body.
#[derive(Clone, Copy, Debug, PartialEq, Eq)]
pub enum Media {
    /// JSON (RFC 8259).
    Json,
    /// The page for people (HTML, the living standard).
    Html,
    /// Measures, in the text format that Prometheus reads.
    Metrics,
    /// There is no body, and it has no type.
    Nothing,
}

/// What is told to a request that is for something.
#[derive(Drop)]
pub struct ApiResponse {
    pub status: Status,
    pub media: Media,
    pub body: String,
}

/// Who answers queries, and carries out commands. A query changes nothing.
pub trait Api {
    ghost use Rattle.std.specs.Prelude.{Option};
    ghost use Rattle.lw_route.specs.declared.api_query.ApiQuery.{ApiQuery as Query};
    ghost use Rattle.lw_route.specs.declared.command.Command.{Command as Order};
    ghost use Rattle.lw_route.specs.declared.api.ApiResponse.{ApiResponse as Content};

    /// What may be told to what is asked.
    ghost may_answer: { Self → Query → Content → Type 0 };

    /// What may come of a command: the API before it, what is told where there is memory to tell it, and the API after
    /// it.
    ghost may_do: { Self → Order → Option Content → Self → Type 0 };

    ghost use Rattle.std.specs.Prelude.{IfOk};

    fn answer(&self, api_query: &ApiQuery) -> Result<ApiResponse, NoMemory>
        ensures { IfOk result (may_answer self.now api_query.now) };

    /// Carries the command out, and tells what came of it, where there is memory for that.
    fn carry_out(&mut self, command: &Command) -> Option<ApiResponse>
        ensures { may_do self.old command.now result self.new };

    /// Whether it has something to send.
    fn wants_to_send(&self) -> bool;
}
