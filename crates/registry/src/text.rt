ghost use Rattle.std.specs.Prelude.{◌≡◌, IfOk, string_bytes};
ghost use Rattle.registry.specs.Texts.{event_line};

use lw_stamp::NoMemory;
use std::alloc::Global;

/// A line with a JSON object of one member. The value is JSON.
pub fn event_line(alloc: Global, name: &str, value: &str) -> Result<String, NoMemory>
    ensures { IfOk result (λ text. string_bytes text ≡ event_line name.now value.now) }
{
    Ok(format!(in alloc; "{{\"{name}\":{value}}}\n")?)
}
