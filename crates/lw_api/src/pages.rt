//! Registrations, page by page.

ghost use Rattle.std.specs.Prelude.{IfOk, string_bytes};
ghost use Rattle.lw_stamp.specs.Moment.{ms_of};
ghost use Rattle.lw_table.specs.Answers.{after_text};
ghost use Rattle.lw_api.specs.Answers.{TellsPage};

use lw_json::page_text;
use lw_node::Node;
use lw_stamp::{Moment, NoMemory};
use std::alloc::Global;

/// The most names that a page looks at, whether or not they are shown: so a page takes as long before a million
/// registrations that have expired.
const NAMES: usize = 4096;

/// A page of the registrations that the node shows above the endpoint: so many at most, or one.
pub fn registrations(
    alloc: Global,
    node: &Node,
    now: Moment,
    after: Option<&str>,
    limit: usize,
) -> Result<String, NoMemory>
    ensures { IfOk result (λ text.
        TellsPage node.now.table.state (ms_of now) (after_text after.entry) limit (string_bytes text)) }
{
    let page = node.table().shown_after(now, after, limit, NAMES)?;
    page_text(alloc, &page.registrations, page.next)
}
