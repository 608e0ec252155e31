//! Values of labels.

ghost use Rattle.std.specs.Prelude.{◌≡◌, ◌++◌, OnOk, encode_utf8, string_bytes};
ghost use Rattle.lw_metrics.specs.Exposition.{escaped};

use lw_stamp::NoMemory;

/// Puts the value of a label behind the text, escaped.
pub(crate) fn put_value(text: &mut String, value: &str) -> Result<(), NoMemory>
    ensures { OnOk result (string_bytes text.new ≡ string_bytes text.old ++ escaped value.now) }
{
    for character in value.chars() {
        put_character(text, character)?;
    }
    Ok(())
}

fn put_character(text: &mut String, character: char) -> Result<(), NoMemory>
    ensures { OnOk result (string_bytes text.new ≡ string_bytes text.old ++ escaped (encode_utf8 character)) }
{
    match character {
        '\\' => Ok(text.push_str("\\\\")?),
        '"' => Ok(text.push_str("\\\"")?),
        '\n' => Ok(text.push_str("\\n")?),
        _ => Ok(text.push(character)?),
    }
}
