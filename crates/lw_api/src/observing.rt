//! The observations of a registration, page by page.

ghost use Rattle.std.specs.Prelude.{◌≡◌, ◌≤◌, [], length, max, None, Some, IfOk, option_copied, option_map, string_bytes};
ghost use Rattle.lw_reg.specs.Showing.{ShownOf};
ghost use Rattle.lw_stamp.specs.Moment.{ms_of};
ghost use Rattle.lw_table.specs.LookUps.{WatchOfIdAfter};
ghost use Rattle.lw_api.specs.Answers.{AreWatchesAfter, GoesOnAt, last_path as path_behind, TellsObservations, TellsWatches};
ghost use Rattle.lw_api.specs.Known.{OfKnown};

use lw_json::observations_text;
use lw_node::Node;
use lw_reg::{Path, View, Watch};
use lw_stamp::{Moment, NoMemory, Stamp};
use std::alloc::Global;

/// A page of the observations of what the node shows of the endpoint, on paths above the given one: so many at most, or
/// one.
pub fn observations(
    alloc: Global,
    node: &Node,
    now: Moment,
    endpoint: &str,
    after: Option<Path>,
    limit: usize,
) -> Result<Option<String>, NoMemory>
    ensures { IfOk result (λ text. TellsObservations node.now.table.state (ms_of now) endpoint.now after limit
        (option_map string_bytes text)) }
{
    match node.by_endpoint(now, endpoint) {
        None => Ok(None),
        Some(shown) => Ok(Some(observed(alloc, node, now, shown.id, after, limit)?)),
    }
}

/// A page of the observations of the registration with the identifier.
fn observed(
    alloc: Global,
    node: &Node,
    now: Moment,
    id: Stamp,
    after: Option<Path>,
    limit: usize,
) -> Result<String, NoMemory>
    ensures { IfOk result (λ text. TellsWatches node.now.table.state (ms_of now) id after limit (string_bytes text)) }
{
    let page = page_of(alloc, node, now, id, after, limit)?;
    let next = next_of(node, now, id, after, &page);
    observations_text(alloc, &page, next)
}

fn page_of<'a>(
    alloc: Global,
    node: &'a Node,
    now: Moment,
    id: Stamp,
    after: Option<Path>,
    limit: usize,
) -> Result<Vec<(View<'a>, Watch)>, NoMemory>
    ensures watches { IfOk result (λ page. OfKnown node.now.table.state (λ M.
        AreWatchesAfter M (ms_of now) id after page.items)) }
    ensures within { IfOk result (λ page. length page.items ≤ max 1 limit) }
    ensures none { IfOk result (λ page. page.items ≡ [] → OfKnown node.now.table.state (λ M.
        WatchOfIdAfter M (ms_of now) id after None)) }
{
    let mut page = Vec::new(alloc);
    for _watch in 0..limit.max(1) {
        match node.watch_after(now, id, last_path(after, &page).as_ref()) {
            Some(watch) => page.push(watch)?,
            None => return Ok(page),
        }
    }
    Ok(page)
}

/// The path of the last observation; of none that behind which they begin.
fn last_path(after: Option<Path>, page: &[(View<'_>, Watch)]) -> Option<Path>
    ensures { result ≡ path_behind after page.now }
{
    match page.last() {
        Some(watch) => Some(watch.1.path),
        None => after,
    }
}

/// The path that the next page goes on from, if an observation follows.
fn next_of(
    node: &Node,
    now: Moment,
    id: Stamp,
    after: Option<Path>,
    page: &[(View<'_>, Watch)],
) -> Option<Path>
    requires { page.now ≡ [] → OfKnown node.now.table.state (λ M. WatchOfIdAfter M (ms_of now) id after None) }
    ensures { OfKnown node.now.table.state (λ M. GoesOnAt M (ms_of now) id (path_behind after page.now) result) }
{
    match last_path(after, page) {
        Some(last) => next_path(node, now, id, last),
        None => None,
    }
}

/// The path, if an observation follows behind it.
fn next_path(node: &Node, now: Moment, id: Stamp, last: Path) -> Option<Path>
    ensures { OfKnown node.now.table.state (λ M. GoesOnAt M (ms_of now) id (Some last) result) }
{
    match node.watch_after(now, id, Some(&last)) {
        Some(_) => Some(last),
        None => None,
    }
}
