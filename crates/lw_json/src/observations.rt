//! Observations of a registration.

ghost use Rattle.std.specs.Prelude.{◌≡◌, ◌∷◌, IfOk, string_bytes};
ghost use Rattle.json.specs.Token.{key};
ghost use Rattle.serde_json.specs.Written.{compact_text};
ghost use Rattle.lw_json.specs.Json.{observations_json, path_or_null};
ghost use Rattle.lw_json.specs.inner.Tokens.{Adds, data_tokens};

use crate::members::{put_path, put_text_or_null};
use crate::values::{Print, json_text, put_all};
use crate::watch::put_watch;
use json::Writer;
use lw_reg::{Path, View, Watch};
use lw_stamp::NoMemory;
use std::alloc::Global;

/// Observations, and the path that the page behind goes on from.
#[derive(Drop)]
struct Observations<'a, 'b> {
    watches: &'a [(View<'b>, Watch)],
    next: Option<Path>,
}

/// The JSON object of observations, and of the path that the page behind goes on from, or null.
pub fn observations_text(
    alloc: Global,
    watches: &[(View<'_>, Watch)],
    next: Option<Path>,
) -> Result<String, NoMemory>
    ensures { IfOk result (λ text. string_bytes text ≡ compact_text (observations_json watches.now next)) }
{
    json_text(alloc, &Observations { watches, next })
}

impl Print for Observations<'_, '_> {
    ghost use Rattle.lw_json.specs.Json.{observations_json};

    ghost json = { λ page. observations_json page.watches.now page.next };

    fn put(&self, out: &mut Writer, alloc: Global) -> Result<(), NoMemory> {
        put_page(out, alloc, self.watches, self.next)
    }
}

impl Print for (View<'_>, Watch) {
    ghost use Rattle.lw_json.specs.Json.{observation_json};

    ghost json = { observation_json };

    fn put(&self, out: &mut Writer, alloc: Global) -> Result<(), NoMemory> {
        put_watch(out, alloc, &self.0, &self.1)
    }
}

fn put_page(
    out: &mut Writer,
    alloc: Global,
    watches: &[(View<'_>, Watch)],
    next: Option<Path>,
) -> Result<(), NoMemory>
    ensures { Adds result out.old out.new (data_tokens (observations_json watches.now next)) }
{
    out.begin_object()?;
    put_path_or_null(out, alloc, "next", next)?;
    put_all(out, alloc, "observations", watches)?;
    Ok(out.end_object()?)
}

/// Adds a member with the path, or with null where there is none.
fn put_path_or_null(
    out: &mut Writer,
    alloc: Global,
    name: &str,
    path: Option<Path>,
) -> Result<(), NoMemory>
    ensures { Adds result out.old out.new (key name.now ∷ data_tokens (path_or_null path)) }
{
    match path {
        Some(path) => put_path(out, alloc, name, &path),
        None => put_text_or_null(out, name, None),
    }
}
