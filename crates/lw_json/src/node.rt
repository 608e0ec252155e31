//! What a node knows, in numbers, and whether a server serves.

ghost use Rattle.std.specs.Prelude.{◌≡◌, IfOk, string_bytes};
ghost use Rattle.serde_json.specs.Written.{compact_text};
ghost use Rattle.lw_json.specs.Json.{away_json, counter_text, health_json, node_json, serving_json};
ghost use Rattle.lw_json.specs.inner.Tokens.{Adds, data_tokens};

use crate::members::{put_number, put_short_or_null, put_tag, put_text};
use crate::values::{Print, json_text};
use json::Writer;
use lw_stamp::{Moment, NoMemory};
use std::alloc::Global;

/// A node in numbers.
#[derive(Clone, Copy, Debug, PartialEq, Eq)]
pub struct NodeNumbers {
    /// How often what is known of an endpoint has changed.
    pub change: u64,
    /// Its clock.
    pub counter: u64,
    /// The number that it makes stamps with, once it does.
    pub number: Option<u16>,
    pub registrations: u64,
    /// The tag of its start.
    pub start: u64,
}

/// The JSON object of a node in numbers.
pub fn node_text(alloc: Global, numbers: &NodeNumbers) -> Result<String, NoMemory>
    ensures { IfOk result (λ text. string_bytes text ≡ compact_text (node_json numbers.now)) }
{
    json_text(alloc, numbers)
}

impl Print for NodeNumbers {
    ghost use Rattle.lw_json.specs.Json.{node_json};

    ghost json = { node_json };

    fn put(&self, out: &mut Writer, alloc: Global) -> Result<(), NoMemory> {
        put_node(out, alloc, self)
    }
}

fn put_node(out: &mut Writer, alloc: Global, numbers: &NodeNumbers) -> Result<(), NoMemory>
    ensures { Adds result out.old out.new (data_tokens (node_json numbers.now)) }
{
    out.begin_object()?;
    put_number(out, "change", numbers.change)?;
    put_number(out, "counter", numbers.counter)?;
    put_short_or_null(out, "number", numbers.number)?;
    put_number(out, "registrations", numbers.registrations)?;
    put_tag(out, alloc, "start", numbers.start)?;
    Ok(out.end_object()?)
}

/// Whether a server serves, at a moment, whether its counter nears its end, and its version.
#[derive(Drop)]
struct Health<'a> {
    now: Moment,
    serves: bool,
    nears_end: bool,
    version: &'a str,
}

/// The JSON object of whether a server serves, or its log is away. Where it serves, it tells of its counter.
pub fn health_text(
    alloc: Global,
    now: Moment,
    serves: bool,
    nears_end: bool,
    version: &str,
) -> Result<String, NoMemory>
    ensures { IfOk result (λ text. string_bytes text ≡ compact_text (health_json now serves nears_end version.now)) }
{
    let health = Health {
        now,
        serves,
        nears_end,
        version,
    };
    json_text(alloc, &health)
}

impl Print for Health<'_> {
    ghost use Rattle.lw_json.specs.Json.{health_json};

    ghost json = { λ health. health_json health.now health.serves health.nears_end health.version.now };

    fn put(&self, out: &mut Writer, _alloc: Global) -> Result<(), NoMemory> {
        if self.serves {
            put_serving(out, self.now, self.nears_end, self.version)
        } else {
            put_away(out, self.now, self.version)
        }
    }
}

fn put_serving(
    out: &mut Writer,
    now: Moment,
    nears_end: bool,
    version: &str,
) -> Result<(), NoMemory>
    ensures { Adds result out.old out.new (data_tokens (serving_json now nears_end version.now)) }
{
    out.begin_object()?;
    put_text(out, "counter", counter(nears_end))?;
    put_number(out, "now", now.ms())?;
    put_text(out, "status", "serving")?;
    put_text(out, "version", version)?;
    Ok(out.end_object()?)
}

fn put_away(out: &mut Writer, now: Moment, version: &str) -> Result<(), NoMemory>
    ensures { Adds result out.old out.new (data_tokens (away_json now version.now)) }
{
    out.begin_object()?;
    put_number(out, "now", now.ms())?;
    put_text(out, "status", "away")?;
    put_text(out, "version", version)?;
    Ok(out.end_object()?)
}

fn counter(nears_end: bool) -> &'static str
    ensures { result.now ≡ counter_text nears_end }
{
    if nears_end { "near its end" } else { "ok" }
}
