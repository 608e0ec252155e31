//! What has changed.

ghost use Rattle.std.specs.Prelude.{◌≡◌, ◌∷◌, IfOk, codes, map as mapped, string_bytes};
ghost use Rattle.json.specs.Token.{key};
ghost use Rattle.serde_json.specs.Data.{array};
ghost use Rattle.serde_json.specs.View.{items_of};
ghost use Rattle.serde_json.specs.Written.{compact_text};
ghost use Rattle.lw_json.specs.Changes.{change_of, change_json, changes_json, registration_or_null};
ghost use Rattle.lw_json.specs.inner.Tokens.{Adds, data_tokens};

use crate::members::{put_number, put_tag, put_text, put_truth};
use crate::registration::put_registration;
use crate::values::{Print, json_text, put_all};
use json::Writer;
use lw_reg::View;
use lw_stamp::NoMemory;
use std::alloc::Global;

/// The last change of an endpoint, and what is shown of it.
#[derive(Drop)]
pub struct Change<'a> {
    pub number: u64,
    pub endpoint: &'a str,
    pub registration: Option<View<'a>>,
}

/// Changes, and how to go on from them.
#[derive(Drop)]
pub struct ChangePage<'a> {
    pub changes: Vec<Change<'a>>,
    /// Whether there are more behind the last.
    pub more: bool,
    /// The number that the page behind goes on from.
    pub next: u64,
    /// The tag of the start that the numbers are of.
    pub start: u64,
}

/// The JSON object of a page of changes.
pub fn changes_text(alloc: Global, page: &ChangePage<'_>) -> Result<String, NoMemory>
    ensures { IfOk result (λ text. string_bytes text
        ≡ compact_text (changes_json (mapped change_of page.now.changes.items) page.now.more page.now.next page.now.start)) }
{
    json_text(alloc, page)
}

impl Print for ChangePage<'_> {
    ghost use Rattle.std.specs.Prelude.{map as mapped};
    ghost use Rattle.lw_json.specs.Changes.{change_of, changes_json};

    ghost json = { λ page. changes_json (mapped change_of page.changes.items) page.more page.next page.start };

    fn put(&self, out: &mut Writer, alloc: Global) -> Result<(), NoMemory> {
        put_page(out, alloc, self)
    }
}

fn put_page(out: &mut Writer, alloc: Global, page: &ChangePage<'_>) -> Result<(), NoMemory>
    ensures { Adds result out.old out.new (data_tokens (changes_json (mapped change_of page.now.changes.items)
        page.now.more page.now.next page.now.start)) }
{
    out.begin_object()?;
    put_changes(out, alloc, page)?;
    put_truth(out, "more", page.more)?;
    put_number(out, "next", page.next)?;
    put_tag(out, alloc, "start", page.start)?;
    Ok(out.end_object()?)
}

/// Adds the member with the changes.
fn put_changes(out: &mut Writer, alloc: Global, page: &ChangePage<'_>) -> Result<(), NoMemory>
    ensures { Adds result out.old out.new (key (codes "changes")
        ∷ data_tokens (array (items_of (mapped change_json (mapped change_of page.now.changes.items))))) }
{
    put_all(out, alloc, "changes", &page.changes)
}

impl Print for Change<'_> {
    ghost use Rattle.lw_json.specs.Changes.{change_json, change_of};

    ghost json = { λ change. change_json (change_of change) };

    fn put(&self, out: &mut Writer, alloc: Global) -> Result<(), NoMemory> {
        put_change(out, alloc, self)
    }
}

fn put_change(out: &mut Writer, alloc: Global, change: &Change<'_>) -> Result<(), NoMemory>
    ensures { Adds result out.old out.new (data_tokens (change_json (change_of change.now))) }
{
    out.begin_object()?;
    put_number(out, "change", change.number)?;
    put_text(out, "endpoint", change.endpoint)?;
    put_shown(out, alloc, &change.registration)?;
    Ok(out.end_object()?)
}

/// Adds the member with the registration, or with null where none is shown.
fn put_shown(out: &mut Writer, alloc: Global, shown: &Option<View<'_>>) -> Result<(), NoMemory>
    ensures { Adds result out.old out.new
        (key (codes "registration") ∷ data_tokens (registration_or_null shown.now)) }
{
    out.key("registration")?;
    match shown {
        Some(shown) => put_registration(out, alloc, shown),
        None => Ok(out.null()?),
    }
}
