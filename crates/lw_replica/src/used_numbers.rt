//! The numbers that starts have had.

ghost use Rattle.std.specs.Prelude.{◌≡◌, ◌↔◌, ◌⊎◌, ℕ, IsTrue, IfOk, IfSome, IsNone, length};
ghost use Rattle.lw_log.specs.Entries.{body_content};
ghost use Rattle.lw_replica.specs.Beginning.{IsFirstFree};
ghost use Rattle.lw_replica.specs.Reading.{HasBit, TellsOf, Meets};
ghost use Rattle.lw_replica.specs.inner.Numbering.{AreAllHad};

use lw_log::{Body, Entry, read_entry};
use lw_stamp::NoMemory;
use std::alloc::Global;

/// The numbers that starts of a log have had.
#[derive(Drop)]
pub(crate) struct UsedNumbers {
    /// A bit for each: eight numbers a byte, the least first. No start has 0.
    bytes: Box<[u8; 8192]>,
    ghost whole: { length bytes.value ≡ 8192 },
}

/// Whether the bytes have the bit of the number: eight numbers a byte, the least first.
pub(crate) fn has_bit(used_numbers: &[u8; 8192], number: u16) -> bool
    ensures { IsTrue result ↔ HasBit used_numbers.now number }
{
    let byte = used_numbers[usize::from(number / 8)];
    (byte >> (number % 8)) % 2 == 1
}

impl UsedNumbers {
    /// None.
    pub(crate) fn new(alloc: Global) -> Result<UsedNumbers, NoMemory>
        ensures { IfOk result (λ used_numbers. (n : ℕ) → ¬ HasBit used_numbers.bytes.value n) }
    {
        let bytes = Box::new(alloc, [0; 8192])?;
        Ok(UsedNumbers { bytes })
    }

    /// The bits, as a snapshot has them.
    pub(crate) fn as_bytes(&self) -> &[u8; 8192]
        ensures bytes { result.now ≡ self.now.bytes.value }
        ensures length { length result.now ≡ 8192 }
    {
        &self.bytes
    }

    /// Whether a start has had the number.
    fn has(&self, number: u16) -> bool
        ensures { IsTrue result ↔ HasBit self.now.bytes.value number }
    {
        has_bit(self.as_bytes(), number)
    }

    /// A start has had the number.
    fn note_number(&mut self, number: u16)
        ensures { (n : ℕ) → HasBit self.new.bytes.value n ↔ (HasBit self.old.bytes.value n ⊎ (number ≡ n)) }
    {
        self.bytes[usize::from(number / 8)] |= 1 << (number % 8);
    }

    /// Starts have had the numbers that have their bits.
    fn note_all(&mut self, used_numbers: &[u8; 8192])
        ensures { (n : ℕ) → HasBit self.new.bytes.value n
            ↔ (HasBit self.old.bytes.value n ⊎ HasBit used_numbers.now n) }
    {
        for i in 0..8192 {
            self.bytes[i] |= used_numbers[i];
        }
    }

    /// Notes the numbers that the entry tells of.
    pub(crate) fn note(&mut self, entry: &Entry<'_>)
        ensures { (n : ℕ) → HasBit self.new.bytes.value n ↔ (HasBit self.old.bytes.value n
            ⊎ ((entry.now.start.number ≡ n) ⊎ TellsOf n (body_content entry.now.body))) }
    {
        self.note_number(entry.start.number);
        if let Body::Snapshot { used_numbers, .. } = entry.body {
            self.note_all(used_numbers);
        }
    }

    /// Notes the numbers that the bytes tell of, if they are an entry.
    pub(crate) fn note_bytes(&mut self, bytes: &[u8])
        ensures { (n : ℕ) → HasBit self.new.bytes.value n
            ↔ (HasBit self.old.bytes.value n ⊎ Meets n bytes.now) }
    {
        if let Ok(entry) = read_entry(bytes) {
            self.note(&entry);
        }
    }

    /// The first number from that one on, round by 1, that no start has had.
    pub(crate) fn free_from(&self, first: u16) -> Option<u16>
        ensures found { IfSome result (IsFirstFree (HasBit self.now.bytes.value) first) }
        ensures none { IsNone result ↔ AreAllHad (HasBit self.now.bytes.value) }
    {
        let from = first.max(1);
        for number in from..=u16::MAX {
            if !self.has(number) {
                return Some(number);
            }
        }
        for number in 1..from {
            if !self.has(number) {
                return Some(number);
            }
        }
        None
    }
}
