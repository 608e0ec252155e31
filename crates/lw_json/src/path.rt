ghost use Rattle.std.specs.Prelude.{◌≡◌, IfOk, string_bytes};
ghost use Rattle.lw_json.specs.PathText.{path_text};

use lw_reg::Path;
use lw_stamp::NoMemory;
use std::alloc::Global;
use std::fmt::Write;

/// A slash and a number, for each number of the path.
pub fn path_text(alloc: Global, path: &Path) -> Result<String, NoMemory>
    ensures { IfOk result (λ text. string_bytes text ≡ path_text path.now) }
{
    let mut text = String::new(alloc);
    for number in path.numbers() {
        write!(text, "/{number}")?;
    }
    Ok(text)
}
