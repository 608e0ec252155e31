//! The names of all devices.

ghost use Rattle.std.specs.Prelude.{◌≡◌, IfOk};
ghost use Rattle.lw_stamp.specs.Moment.{ms_of};
ghost use Rattle.lw_reg.specs.Reading.{shown_in};
ghost use Rattle.lw_table.specs.Answers.{after_text};
ghost use Rattle.uses.specs.Naming.{AreNames, last_of};

use lw_node::Node;
use lw_stamp::{Moment, NoMemory, Text};
use std::alloc::Global;

// cut: names
/// The endpoints that are shown at the moment, all of them and no other, rising by their bytes.
pub fn names(alloc: Global, node: &Node, now: Moment) -> Result<Vec<Text>, NoMemory>
    ensures { IfOk result (λ names. AreNames (shown_in node.now.table.state) (ms_of now) names.items) }
{
    let mut names = Vec::new(alloc);
    for _ in 0..u64::MAX {
        let Some(shown) = node.first_after(now, last(&names)) else {
            return Ok(names);
        };
        names.push(Text::copy_of(alloc, shown.endpoint)?)?;
    }
    // No memory has so many.
    Err(NoMemory)
}

fn last(names: &[Text]) -> Option<&str>
    ensures { after_text result ≡ last_of names.now }
{
    match names.last() {
        Some(name) => Some(name.as_str()),
        None => None,
    }
}
// end: names
