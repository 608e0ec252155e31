//! The start that an entry is of.

ghost use Rattle.std.specs.Prelude.{◌≤◌, ◌<◌, ◌^◌};

/// A start of a server: the number that its node has, and a random tag, by which it knows its own entries.
#[derive(Clone, Copy, Debug, PartialEq, Eq)]
pub struct Start {
    pub number: u16,
    pub tag: u64,
    pub ghost in_range: { (1 ≤ number) × (number < 2 ^ 16) × (tag < 2 ^ 64) },
}
