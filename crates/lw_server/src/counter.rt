//! The counter of a node, and its end.

ghost use Rattle.std.specs.Prelude.{◌↔◌, IsTrue};
ghost use Rattle.lw_server.specs.Api.{NearsEnd};

/// From which counter on it is told that it nears its end, which is 2^48 - 1: what a start in 2100 would raise it to,
/// 64 for each of the milliseconds since 1970.
const NEAR_END: u64 = 64 * 4_102_444_800_000;

/// Whether the counter nears its end.
pub(crate) fn nears_end(counter: u64) -> bool
    ensures { IsTrue result ↔ NearsEnd counter }
{
    counter >= NEAR_END
}
