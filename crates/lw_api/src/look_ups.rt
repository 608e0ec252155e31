//! One registration, or one observation.

ghost use Rattle.std.specs.Prelude.{◌≡◌, IfOk, option_map, string_bytes};
ghost use Rattle.serde_json.specs.Written.{compact_text};
ghost use Rattle.lw_json.specs.Json.{registration_json, watch_json};
ghost use Rattle.lw_reg.specs.Showing.{ShownOf};
ghost use Rattle.lw_stamp.specs.Moment.{ms_of};
ghost use Rattle.lw_table.specs.LookUps.{ById, ByAddress, ByToken};
ghost use Rattle.lw_api.specs.Answers.{Tells, TellsWatch};

use lw_json::{registration_text, watch_text};
use lw_node::Node;
use lw_reg::{Addr, View, Watch};
use lw_stamp::{Moment, NoMemory, Stamp};
use std::alloc::Global;

/// What the node shows of the endpoint.
pub fn registration(
    alloc: Global,
    node: &Node,
    now: Moment,
    endpoint: &str,
) -> Result<Option<String>, NoMemory>
    ensures { IfOk result (λ text. Tells node.now.table.state (λ M. ShownOf M (ms_of now) endpoint.now)
        (option_map string_bytes text)) }
{
    told(alloc, node.by_endpoint(now, endpoint))
}

/// The registration with the identifier.
pub fn by_id(alloc: Global, node: &Node, now: Moment, id: Stamp) -> Result<Option<String>, NoMemory>
    ensures { IfOk result (λ text. Tells node.now.table.state (λ M. ById M (ms_of now) id)
        (option_map string_bytes text)) }
{
    told(alloc, node.by_id(now, id))
}

/// Of the registrations with the address the one that wrote it last.
pub fn by_address(
    alloc: Global,
    node: &Node,
    now: Moment,
    address: Addr,
) -> Result<Option<String>, NoMemory>
    ensures { IfOk result (λ text. Tells node.now.table.state (λ M. ByAddress M (ms_of now) address)
        (option_map string_bytes text)) }
{
    told(alloc, node.by_address(now, address))
}

/// The observation with the token.
pub fn by_token(
    alloc: Global,
    node: &Node,
    now: Moment,
    token: Stamp,
) -> Result<Option<String>, NoMemory>
    ensures { IfOk result (λ text. TellsWatch node.now.table.state (λ M. ByToken M (ms_of now) token)
        (option_map string_bytes text)) }
{
    watched(alloc, node.by_token(now, token))
}

fn told(alloc: Global, view: Option<View<'_>>) -> Result<Option<String>, NoMemory>
    ensures { IfOk result (λ text. option_map string_bytes text
        ≡ option_map (λ r. compact_text (registration_json r)) view.entry) }
{
    match view {
        None => Ok(None),
        Some(view) => Ok(Some(registration_text(alloc, &view)?)),
    }
}

fn watched(alloc: Global, found: Option<(View<'_>, Watch)>) -> Result<Option<String>, NoMemory>
    ensures { IfOk result (λ text. option_map string_bytes text
        ≡ option_map (λ x. compact_text (watch_json x.0 x.1)) found.entry) }
{
    match found {
        None => Ok(None),
        Some((view, watch)) => Ok(Some(watch_text(alloc, &view, &watch)?)),
    }
}
