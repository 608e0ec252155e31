//! What has changed since a number.

ghost use Rattle.std.specs.Prelude.{◌≡◌, ◌≢◌, ◌↔◌, ℕ, List, IfOk, map, codes, string_bytes};
ghost use Rattle.lw_stamp.specs.Moment.{ms_of};
ghost use Rattle.lw_table.specs.Changes.{IsChangePage, LAST, upto_of};
ghost use Rattle.lw_json.specs.Changes.{change_of};
ghost use Rattle.lw_api.specs.Answers.{IsChangesAnswer, IsJson, TellsChanges};
ghost use Rattle.lw_api.specs.inner.Changes.{moved_of, AreShown};
ghost use Rattle.lw_route.specs.declared.api.Status.TheVariants as statuses;

use crate::About;
use crate::answering::{error_response, ok};
use lw_json::{Change, ChangePage, changes_text};
use lw_node::Node;
use lw_route::{ApiResponse, Status};
use lw_stamp::{Moment, NoMemory};
use lw_table::Moved;
use std::alloc::Global;

/// Changes behind the number, to who follows this start, or begins.
pub(crate) fn changes_answer(
    alloc: Global,
    node: &Node,
    about: About,
    now: Moment,
    since: u64,
    start: Option<u64>,
    limit: usize,
) -> Result<ApiResponse, NoMemory>
    ensures { IfOk result (IsChangesAnswer node.now about (ms_of now) since start limit) }
{
    match start {
        None if since > 0 => error_response(alloc, Status::BadRequest, r#"{"error":"start"}"#),
        Some(tag) if tag != about.tag => error_response(alloc, Status::Gone, r#"{"error":"gone"}"#),
        _ => changes(alloc, node, about, now, since, limit),
    }
}

fn changes(
    alloc: Global,
    node: &Node,
    about: About,
    now: Moment,
    since: u64,
    limit: usize,
) -> Result<ApiResponse, NoMemory>
    ensures told { IfOk result (λ answer. node.now.table.count.change ≢ LAST
        → (text : List ℕ) × TellsChanges node.now about (ms_of now) since limit text × IsJson statuses.Ok text answer) }
    ensures ended { IfOk result (λ answer. node.now.table.count.change ≡ LAST
        → IsJson statuses.ServiceUnavailable (codes "{\"error\":\"no more changes\"}") answer) }
{
    match node.table().changes_after(since, limit)? {
        Some(moved) => Ok(ok(text(alloc, node, about, now, since, &moved)?)),
        None => error_response(
            alloc,
            Status::ServiceUnavailable,
            r#"{"error":"no more changes"}"#,
        ),
    }
}

/// The text of the changes.
fn text(
    alloc: Global,
    node: &Node,
    about: About,
    now: Moment,
    since: u64,
    moved: &[Moved<'_>],
) -> Result<String, NoMemory>
    ensures { (limit : ℕ) → IsChangePage node.now.table.state node.now.table.count since limit (map moved_of moved.now)
        → IfOk result (λ text. TellsChanges node.now about (ms_of now) since limit (string_bytes text)) }
{
    let next = upto(since, moved);
    let page = ChangePage {
        changes: shown(alloc, node, now, moved)?,
        more: next < node.change(),
        next,
        start: about.tag,
    };
    changes_text(alloc, &page)
}

/// The number of the last of the changes; where there are none, that behind which they were asked for.
fn upto(since: u64, moved: &[Moved<'_>]) -> u64
    ensures { result ≡ upto_of since (map moved_of moved.now) }
{
    let mut upto = since;
    for change in moved {
        upto = change.number;
    }
    upto
}

/// What is shown of the endpoints that have moved.
fn shown<'a>(
    alloc: Global,
    node: &'a Node,
    now: Moment,
    moved: &[Moved<'a>],
) -> Result<Vec<Change<'a>>, NoMemory>
    ensures { IfOk result (λ changes.
        AreShown node.now (ms_of now) (map moved_of moved.now) (map change_of changes.items)) }
{
    let mut changes = Vec::with_capacity(alloc, moved.len())?;
    for change in moved {
        changes.push(Change {
            number: change.number,
            endpoint: change.endpoint,
            registration: node.by_endpoint(now, change.endpoint),
        })?;
    }
    Ok(changes)
}
