ghost use Rattle.std.specs.Prelude.{◌≡◌, IfOk, string_bytes};
ghost use Rattle.serde_json.specs.Written.{compact_text};
ghost use Rattle.lw_json.specs.Json.{stale_json, watch_json};
ghost use Rattle.lw_json.specs.inner.Tokens.{Adds, data_tokens};

use crate::members::{put_id, put_path, put_short_or_null, put_text};
use crate::values::{Print, json_text};
use json::Writer;
use lw_reg::{View, Watch};
use lw_stamp::{NoMemory, Stamp};
use std::alloc::Global;

/// A watch, and its registration.
#[derive(Drop)]
pub(crate) struct Watched<'a, 'b> {
    pub(crate) shown: &'a View<'b>,
    pub(crate) watch: &'a Watch,
}

/// A registration that has expired: its endpoint and its identifier.
#[derive(Drop)]
pub(crate) struct Stale<'a> {
    pub(crate) endpoint: &'a str,
    pub(crate) id: Stamp,
}

/// The JSON object of a watch of the registration.
pub fn watch_text(alloc: Global, shown: &View<'_>, watch: &Watch) -> Result<String, NoMemory>
    ensures { IfOk result (λ text. string_bytes text ≡ compact_text (watch_json shown.now watch.now)) }
{
    json_text(alloc, &Watched { shown, watch })
}

impl Print for Watched<'_, '_> {
    ghost use Rattle.lw_json.specs.Json.{watch_json};

    ghost json = { λ watched. watch_json watched.shown.now watched.watch.now };

    fn put(&self, out: &mut Writer, alloc: Global) -> Result<(), NoMemory> {
        put_watch(out, alloc, self.shown, self.watch)
    }
}

/// Adds the JSON object of a watch of the registration.
pub(crate) fn put_watch(
    out: &mut Writer,
    alloc: Global,
    shown: &View<'_>,
    watch: &Watch,
) -> Result<(), NoMemory>
    ensures { Adds result out.old out.new (data_tokens (watch_json shown.now watch.now)) }
{
    out.begin_object()?;
    put_short_or_null(out, "accept", watch.accept)?;
    put_text(out, "endpoint", shown.endpoint)?;
    put_id(out, alloc, "id", shown.id)?;
    put_path(out, alloc, "path", &watch.path)?;
    put_id(out, alloc, "token", watch.token)?;
    Ok(out.end_object()?)
}

/// The JSON object of a registration that has expired, of the endpoint and with the identifier.
pub fn stale_text(alloc: Global, endpoint: &str, id: Stamp) -> Result<String, NoMemory>
    ensures { IfOk result (λ text. string_bytes text ≡ compact_text (stale_json endpoint.now id)) }
{
    json_text(alloc, &Stale { endpoint, id })
}

impl Print for Stale<'_> {
    ghost use Rattle.lw_json.specs.Json.{stale_json};

    ghost json = { λ stale. stale_json stale.endpoint.now stale.id };

    fn put(&self, out: &mut Writer, alloc: Global) -> Result<(), NoMemory> {
        put_stale(out, alloc, self.endpoint, self.id)
    }
}

fn put_stale(out: &mut Writer, alloc: Global, endpoint: &str, id: Stamp) -> Result<(), NoMemory>
    ensures { Adds result out.old out.new (data_tokens (stale_json endpoint.now id)) }
{
    out.begin_object()?;
    put_text(out, "endpoint", endpoint)?;
    put_id(out, alloc, "id", id)?;
    Ok(out.end_object()?)
}
