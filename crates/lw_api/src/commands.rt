//! What is told of a command.

ghost use Rattle.std.specs.Prelude.{ℕ, List, Option, IfOk, option_map, string_bytes};
ghost use Rattle.lw_stamp.specs.Moment.{ms_of};
ghost use Rattle.lw_table.specs.LookUps.{ByToken};
ghost use Rattle.lw_api.specs.Answers.{IsCreated, IsNoContent, TellsWatch};

use crate::answering::{json, not_found};
use crate::by_token;
use lw_node::Node;
use lw_route::{ApiResponse, Media, Status};
use lw_stamp::{Moment, NoMemory, Stamp};
use std::alloc::Global;

/// That the observation with the token was created.
pub fn created(
    alloc: Global,
    node: &Node,
    now: Moment,
    token: Stamp,
) -> Result<ApiResponse, NoMemory>
    ensures { IfOk result (λ answer. (text : Option (List ℕ))
        × TellsWatch node.now.table.state (λ M. ByToken M (ms_of now) token) text × IsCreated text answer) }
{
    created_as(alloc, by_token(alloc, node, now, token)?)
}

fn created_as(alloc: Global, text: Option<String>) -> Result<ApiResponse, NoMemory>
    ensures { IfOk result (IsCreated (option_map string_bytes text)) }
{
    match text {
        Some(text) => Ok(json(Status::Created, text)),
        None => not_found(alloc),
    }
}

/// That it was done, and that there is nothing to tell of it.
pub fn no_content(alloc: Global) -> ApiResponse
    ensures { IsNoContent result }
{
    ApiResponse {
        status: Status::NoContent,
        media: Media::Nothing,
        body: String::new(alloc),
    }
}
