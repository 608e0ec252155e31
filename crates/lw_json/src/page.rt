//! A page of registrations.

ghost use Rattle.std.specs.Prelude.{◌≡◌, IfOk, option_map, string_bytes};
ghost use Rattle.serde_json.specs.Written.{compact_text};
ghost use Rattle.lw_json.specs.Json.{page_json};
ghost use Rattle.lw_json.specs.inner.Tokens.{Adds, data_tokens};

use crate::members::put_text_or_null;
use crate::values::{Print, json_text, put_all};
use json::Writer;
use lw_reg::View;
use lw_stamp::NoMemory;
use std::alloc::Global;

/// Registrations, and the endpoint that the page behind goes on from.
#[derive(Drop)]
struct Page<'a, 'b> {
    shown: &'a [View<'b>],
    next: Option<&'a str>,
}

/// The JSON object of a page: registrations, and the endpoint that the page behind goes on from, or null.
pub fn page_text(alloc: Global, shown: &[View<'_>], next: Option<&str>) -> Result<String, NoMemory>
    ensures { IfOk result (λ text. string_bytes text
        ≡ compact_text (page_json shown.now (option_map (λ t. t.now) next.entry))) }
{
    json_text(alloc, &Page { shown, next })
}

impl Print for Page<'_, '_> {
    ghost use Rattle.std.specs.Prelude.{option_map};
    ghost use Rattle.lw_json.specs.Json.{page_json};

    ghost json = { λ page. page_json page.shown.now (option_map (λ t. t.now) page.next) };

    fn put(&self, out: &mut Writer, alloc: Global) -> Result<(), NoMemory> {
        put_page(out, alloc, self.shown, self.next)
    }
}

fn put_page(
    out: &mut Writer,
    alloc: Global,
    shown: &[View<'_>],
    next: Option<&str>,
) -> Result<(), NoMemory>
    ensures { Adds result out.old out.new
        (data_tokens (page_json shown.now (option_map (λ t. t.now) next.entry))) }
{
    out.begin_object()?;
    put_text_or_null(out, "next", next)?;
    put_all(out, alloc, "registrations", shown)?;
    Ok(out.end_object()?)
}
