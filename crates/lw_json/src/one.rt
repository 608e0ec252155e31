ghost use Rattle.std.specs.Prelude.{◌≡◌, IfOk, Some, option_map};
ghost use Rattle.lw_json.specs.Answer.{answer_text, reply_text, shown_lines};
ghost use Rattle.lw_json.specs.inner.Words.{Puts};

use crate::values::put_json;
use crate::words::{put_hex, put_word};
use lw_reg::View;
use lw_stamp::NoMemory;
use std::alloc::Global;

/// What is printed: the reply in lower-case hex, or `-` where there is none, and on the next line the
/// registration, if any. Each line ends with a line feed.
pub fn answer_text(
    alloc: Global,
    reply: Option<&[u8]>,
    shown: Option<&View<'_>>,
) -> Result<Vec<u8>, NoMemory>
    ensures { IfOk result (λ text.
        text.items ≡ answer_text (option_map (λ bytes. bytes.now) reply.entry) (option_map (λ s. s.now) shown.entry)) }
{
    let mut text = Vec::new(alloc);
    put_reply(&mut text, alloc, reply)?;
    put_word(&mut text, "\n")?;
    if let Some(shown) = shown {
        put_shown(&mut text, alloc, shown)?;
    }
    Ok(text)
}

/// Adds the line of the registration.
fn put_shown(text: &mut Vec<u8>, alloc: Global, shown: &View<'_>) -> Result<(), NoMemory>
    ensures { Puts result text.old.items text.new.items (shown_lines (Some shown.now)) }
{
    put_json(text, alloc, shown)?;
    put_word(text, "\n")
}

/// Adds the reply in lower-case hex, or a hyphen.
pub(crate) fn put_reply(
    line: &mut Vec<u8>,
    alloc: Global,
    reply: Option<&[u8]>,
) -> Result<(), NoMemory>
    ensures { Puts result line.old.items line.new.items (reply_text (option_map (λ bytes. bytes.now) reply.entry)) }
{
    match reply {
        Some(bytes) => put_hex(line, alloc, bytes),
        None => put_word(line, "-"),
    }
}
