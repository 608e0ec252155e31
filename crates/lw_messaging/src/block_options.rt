//! The options of a message that has a block (RFC 7959, sections 2.1 and 6).

ghost use Rattle.std.specs.Prelude.{◌≡◌, ◌<◌, ℕ, slice_get, option_copied, option_map};
ghost use Rattle.lw_messaging.specs.Blocks.{value_of, values_of, block_in, is_of_body, body_options as options_of_body};
ghost use Rattle.lw_messaging.specs.Blocks.{shortest_bytes};

use crate::block::Block;
use lw_coap::{CoapOption, Options};

/// The number of the option Block1.
pub(crate) const BLOCK1: u16 = 27;

/// The number of the option Size1.
pub(crate) const SIZE1: u16 = 60;

/// The value of the option of the number that has this many of that number before it.
pub(crate) fn value_at<'a>(options: &Options<'a>, number: u16, place: usize) -> Option<&'a [u8]>
    ensures { option_copied result ≡ slice_get (values_of number options.now) place }
{
    let mut left = place;
    let mut rest = options.walk();
    while let Some(option) = rest.next() {
        if option.number == number {
            if left == 0 {
                return Some(option.value);
            }
            left -= 1;
        }
    }
    None
}

/// The block of a message. There is none where no option is a Block1, or two are, or it has more than three bytes.
pub(crate) fn block_in(options: &Options<'_>) -> Option<Block>
    ensures { option_map value_of result ≡ block_in options.now }
{
    let value = value_at(options, BLOCK1, 0)?;
    if value_at(options, BLOCK1, 1).is_some() {
        return None;
    }
    Block::read(value)
}

fn is_of_body(option: &CoapOption) -> bool
    ensures { result ≡ is_of_body option.now }
{
    option.number != BLOCK1 && option.number != SIZE1
}

/// The options that are those of the body, whichever of its blocks comes.
pub(crate) fn body_options(mut options: Vec<CoapOption>) -> Vec<CoapOption>
    ensures { result.items ≡ options_of_body options.items }
{
    options.retain(|option| is_of_body(option));
    options
}
