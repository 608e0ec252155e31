//! What is told to what is asked.

ghost use Rattle.std.specs.Prelude.{◌≡◌, ℕ, List, Option, IfOk, option_map, string_bytes};
ghost use Rattle.lw_reg.specs.Showing.{ShownOf};
ghost use Rattle.lw_stamp.specs.Moment.{ms_of};
ghost use Rattle.lw_api.specs.Answers.{CountsRegistrations, IsAnswer, IsFound, IsJson, IsNotFound, Tells, TellsNode, TellsPage};
ghost use Rattle.lw_route.specs.declared.api.Status.TheVariants as statuses;

use crate::changes::changes_answer;
use crate::{by_address, by_id, by_token, observations, registration, registrations};
use lw_json::{NodeNumbers, node_text};
use lw_node::Node;
use lw_route::{ApiQuery, ApiResponse, Media, Status};
use lw_stamp::{Moment, NoMemory, Text};
use std::alloc::Global;

/// What a server knows of its start.
#[derive(Clone, Copy, Debug, PartialEq, Eq)]
pub struct About {
    /// The number that it makes stamps with, once it does.
    pub number: Option<u16>,
    /// Its tag.
    pub tag: u64,
}

/// The answer of a node to what is asked of it.
pub fn answer(
    alloc: Global,
    node: &Node,
    about: About,
    now: Moment,
    api_query: &ApiQuery,
) -> Result<ApiResponse, NoMemory>
    ensures { IfOk result (IsAnswer node.now about (ms_of now) api_query.now) }
{
    match api_query {
        ApiQuery::Registrations { after, limit } => page(alloc, node, now, after, *limit),
        ApiQuery::Registration { endpoint } => one(alloc, node, now, endpoint),
        ApiQuery::Observations {
            endpoint,
            after,
            limit,
        } => found(
            alloc,
            observations(alloc, node, now, endpoint.as_str(), *after, *limit)?,
        ),
        ApiQuery::ById { id } => found(alloc, by_id(alloc, node, now, *id)?),
        ApiQuery::ByAddress { address } => found(alloc, by_address(alloc, node, now, *address)?),
        ApiQuery::ByToken { token } => found(alloc, by_token(alloc, node, now, *token)?),
        ApiQuery::Node => numbers(alloc, node, about),
        ApiQuery::Changes {
            since,
            start,
            limit,
        } => changes_answer(alloc, node, about, now, *since, *start, *limit),
        ApiQuery::Page | ApiQuery::Health | ApiQuery::Metrics | ApiQuery::Notifications { .. } => {
            not_found(alloc)
        }
    }
}

fn page(
    alloc: Global,
    node: &Node,
    now: Moment,
    after: &Option<Text>,
    limit: usize,
) -> Result<ApiResponse, NoMemory>
    ensures { IfOk result (λ answer. (text : List ℕ)
        × TellsPage node.now.table.state (ms_of now) after.now limit text × IsJson statuses.Ok text answer) }
{
    Ok(ok(registrations(alloc, node, now, text_of(after), limit)?))
}

fn text_of(text: &Option<Text>) -> Option<&str>
    ensures { option_map (λ t. t.now) result ≡ text.now }
{
    match text {
        Some(text) => Some(text.as_str()),
        None => None,
    }
}

fn one(alloc: Global, node: &Node, now: Moment, endpoint: &Text) -> Result<ApiResponse, NoMemory>
    ensures { IfOk result (λ answer. (text : Option (List ℕ))
        × Tells node.now.table.state (λ M. ShownOf M (ms_of now) endpoint.now) text × IsFound text answer) }
{
    found(alloc, registration(alloc, node, now, endpoint.as_str())?)
}

fn found(alloc: Global, text: Option<String>) -> Result<ApiResponse, NoMemory>
    ensures { IfOk result (IsFound (option_map string_bytes text)) }
{
    match text {
        Some(text) => Ok(ok(text)),
        None => not_found(alloc),
    }
}

/// The answer that has the text as its JSON.
pub(crate) fn ok(body: String) -> ApiResponse
    ensures { IsJson statuses.Ok (string_bytes body) result }
{
    json(Status::Ok, body)
}

/// The answer that has the status, and the text as its JSON.
pub(crate) fn json(status: Status, body: String) -> ApiResponse
    ensures { IsJson status (string_bytes body) result }
{
    ApiResponse {
        status,
        media: Media::Json,
        body,
    }
}

/// That nothing was found.
pub fn not_found(alloc: Global) -> Result<ApiResponse, NoMemory>
    ensures { IfOk result IsNotFound }
{
    error_response(alloc, Status::NotFound, r#"{"error":"not found"}"#)
}

/// The response of an error: the status, and the text, which is the JSON of an error.
pub fn error_response(alloc: Global, status: Status, text: &str) -> Result<ApiResponse, NoMemory>
    ensures { IfOk result (IsJson status text.now) }
{
    Ok(json(status, String::from_str(alloc, text)?))
}

fn numbers(alloc: Global, node: &Node, about: About) -> Result<ApiResponse, NoMemory>
    ensures { IfOk result (λ answer. (text : List ℕ) × TellsNode node.now about text × IsJson statuses.Ok text answer) }
{
    let numbers = numbers_of(node, about);
    Ok(ok(node_text(alloc, &numbers)?))
}

/// A node in numbers.
pub fn numbers_of(node: &Node, about: About) -> NodeNumbers
    ensures change { result.change ≡ node.now.table.count.change }
    ensures counter { result.counter ≡ node.now.clock }
    ensures number { result.number ≡ about.number }
    ensures registrations { CountsRegistrations node.now.table.state result.registrations }
    ensures start { result.start ≡ about.tag }
{
    NodeNumbers {
        change: node.change(),
        counter: node.clock(),
        number: about.number,
        registrations: node.table().registrations() as u64,
        start: about.tag,
    }
}
