//! A number as an option's value (RFC 7252, section 3.2).

ghost use Rattle.std.specs.Prelude.{◌≡◌, ◌<◌, ◌^◌, IfOk};
ghost use Rattle.lw_messaging.specs.Blocks.{shortest_bytes as fewest_bytes};

use lw_stamp::NoMemory;
use std::alloc::Global;

/// The number in the fewest bytes, most significant first, and 0 in none.
pub(crate) fn shortest_bytes(alloc: Global, number: u32) -> Result<Vec<u8>, NoMemory>
    requires { number < 2 ^ 24 }
    ensures { IfOk result (λ bytes. bytes.items ≡ fewest_bytes number) }
{
    let [_, high, middle, low] = number.to_be_bytes();
    let bytes = if number == 0 {
        Vec::new(alloc)
    } else if number < 256 {
        Vec::from_slice(alloc, &[low])?
    } else if number < 65536 {
        Vec::from_slice(alloc, &[middle, low])?
    } else {
        Vec::from_slice(alloc, &[high, middle, low])?
    };
    Ok(bytes)
}
