ghost use Rattle.std.specs.Prelude.{◌≡◌, IfOk, string_bytes};
ghost use Rattle.serde_json.specs.Written.{compact_text};
ghost use Rattle.lw_json.specs.Json.{notice_json};
ghost use Rattle.lw_json.specs.inner.Tokens.{Adds, data_tokens};

use crate::members::{
    put_id, put_number, put_number_or_null, put_path, put_short_or_null, put_text, put_truth,
};
use crate::values::{Print, json_text};
use json::Writer;
use lw_node::Notice;
use lw_stamp::NoMemory;
use std::alloc::Global;

/// The JSON object of what a device tells of an observation.
pub fn notice_text(alloc: Global, notice: &Notice) -> Result<String, NoMemory>
    ensures { IfOk result (λ text. string_bytes text ≡ compact_text (notice_json notice.now)) }
{
    json_text(alloc, notice)
}

impl Print for Notice {
    ghost use Rattle.lw_json.specs.Json.{notice_json};

    ghost json = { notice_json };

    fn put(&self, out: &mut Writer, alloc: Global) -> Result<(), NoMemory> {
        put_notice(out, alloc, self)
    }
}

/// Adds the JSON object of what a device tells of an observation.
pub(crate) fn put_notice(out: &mut Writer, alloc: Global, notice: &Notice) -> Result<(), NoMemory>
    ensures { Adds result out.old out.new (data_tokens (notice_json notice.now)) }
{
    let payload = hex::encode(alloc, notice.payload.as_slice())?;
    out.begin_object()?;
    put_number(out, "code", u64::from(notice.code))?;
    put_short_or_null(out, "content_format", notice.format)?;
    put_truth(out, "ended", notice.ended)?;
    put_text(out, "endpoint", notice.endpoint.as_str())?;
    put_id(out, alloc, "id", notice.id)?;
    put_number_or_null(out, "observe", notice.observe)?;
    put_path(out, alloc, "path", &notice.path)?;
    put_text(out, "payload", payload.as_str())?;
    put_id(out, alloc, "token", notice.token)?;
    Ok(out.end_object()?)
}
