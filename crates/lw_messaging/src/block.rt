ghost use Rattle.std.specs.Prelude.{◌≡◌, ◌<◌, ◌≤◌, ◌^◌, ◌*◌, ◌↔◌, length, IsNone, IfSome, IfOk};
ghost use Rattle.lw_coap.specs.Number.{number_of};

use crate::shortest::shortest_bytes;
use lw_stamp::NoMemory;
use std::alloc::Global;

/// An exponent that no block has (RFC 7959, section 2.2).
const RESERVED_EXPONENT: u32 = 7;

/// Which block of a body a message has: the value of its Block1 (RFC 7959, section 2.2).
#[derive(Clone, Copy, Debug, PartialEq, Eq)]
pub struct Block {
    value: u32,
    pub ghost in_range: { value < 2 ^ 24 },
}

impl Block {
    ghost use Rattle.lw_messaging.specs.Blocks.{value_of, block_number, has_more, size_exponent, block_size};
    ghost use Rattle.lw_messaging.specs.Blocks.{block_offset, is_block_of};
    ghost use Rattle.lw_messaging.specs.Blocks.{shortest_bytes as fewest_bytes};
    ghost use Rattle.lw_messaging.specs.FetchMessages.{value_behind};

    /// The block that an option's value stands for. There is none of more than three bytes.
    pub fn read(bytes: &[u8]) -> Option<Block>
        ensures none { IsNone result ↔ (3 < length bytes.now) }
        ensures value { IfSome result (λ block. value_of block ≡ number_of bytes.now) }
    {
        let value = match bytes {
            [] => 0,
            [low] => u32::from(*low),
            [high, low] => 256 * u32::from(*high) + u32::from(*low),
            [high, middle, low] => {
                65536 * u32::from(*high) + 256 * u32::from(*middle) + u32::from(*low)
            }
            _ => return None,
        };
        Some(Block { value })
    }

    /// The number of the block, from 0.
    pub fn number(&self) -> u32
        ensures value { result ≡ block_number (value_of self.now) }
        ensures below { result < 2 ^ 20 }
    {
        self.value / 16
    }

    /// Whether more blocks follow.
    pub fn has_more(&self) -> bool
        ensures { result ≡ has_more (value_of self.now) }
    {
        self.value / 8 % 2 == 1
    }

    /// The exponent of the size, from 0 to 7.
    pub fn exponent(&self) -> u32
        ensures value { result ≡ size_exponent (value_of self.now) }
        ensures below { result < 8 }
    {
        self.value % 8
    }

    /// How many bytes a block has that others follow.
    pub(crate) fn size(&self) -> usize
        ensures value { result ≡ block_size (value_of self.now) }
        ensures above { 16 ≤ result }
        ensures below { result ≤ 2048 }
    {
        match self.exponent() {
            0 => 16,
            1 => 32,
            2 => 64,
            3 => 128,
            4 => 256,
            5 => 512,
            6 => 1024,
            _ => 2048,
        }
    }

    /// How many bytes of the body stand before the block.
    pub(crate) fn offset(&self) -> usize
        ensures { result ≡ block_offset (value_of self.now) }
    {
        self.number() as usize * self.size()
    }

    /// Whether the payload is as long as the block says.
    pub(crate) fn is_of(&self, payload: &[u8]) -> bool
        ensures { result ≡ is_block_of (value_of self.now) payload.now }
    {
        if self.exponent() == RESERVED_EXPONENT {
            return false;
        }
        if self.has_more() {
            payload.len() == self.size()
        } else {
            payload.len() <= self.size()
        }
    }

    /// The block that is asked for behind so many bytes, of the size of this one.
    pub(crate) fn behind(&self, count: usize) -> Block
        requires { count ≤ 8192 }
        ensures { value_of result ≡ value_behind (value_of self.now) count }
    {
        let number = (count / self.size()) as u32;
        Block {
            value: 16 * number + self.exponent(),
        }
    }

    /// The value in the fewest bytes.
    pub(crate) fn bytes(&self, alloc: Global) -> Result<Vec<u8>, NoMemory>
        ensures { IfOk result (λ bytes. bytes.items ≡ fewest_bytes (value_of self.now)) }
    {
        shortest_bytes(alloc, self.value)
    }
}
