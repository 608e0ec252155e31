//! How long a Redis is waited for.

ghost use Rattle.std.specs.Prelude.{◌≡◌, ◌+◌, ◌*◌, ◌/◌, ◌≤◌, max, min};

/// The first pause after a connection was lost, in milliseconds.
pub const SHORTEST_PAUSE: u64 = 100;

/// The longest pause, in milliseconds.
pub const LONGEST_PAUSE: u64 = 5_000;

/// How long nothing may come or go at least, in milliseconds.
const PATIENCE: u64 = 2_000;

/// How much longer that may last for each part of what is written, in milliseconds.
const PATIENCE_A_PART: u64 = 1_000;

/// How many bytes such a part has.
const PART: u64 = 10_000_000;

/// The pause after this one, in milliseconds.
pub fn longer_pause(pause: u64) -> u64
    ensures { result ≡ min (max (2 * pause) 100) 5000 }
{
    pause.saturating_mul(2).clamp(SHORTEST_PAUSE, LONGEST_PAUSE)
}

/// How long nothing may come or go where so many bytes are written, in milliseconds.
pub fn patience_for(length: usize) -> u64
    ensures { result ≡ 2000 + 1000 * (length / 10000000) }
{
    PATIENCE + length as u64 / PART * PATIENCE_A_PART
}
