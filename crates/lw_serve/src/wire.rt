ghost use Rattle.std.specs.Prelude.{◌≤◌, length, IfOk, IfSome};

use lw_reg::Addr;
use lw_udp::WireFault;

/// What datagrams come and go over.
pub trait Wire {
    /// Waits for a datagram: how many of its bytes stand in the buffer, and where it comes from. Bytes for which the
    /// buffer has no room are lost.
    fn wait(&mut self, buffer: &mut [u8]) -> Result<(usize, Addr), WireFault>
        ensures { IfOk result (λ taken. taken.0 ≤ length buffer.new) };

    /// A datagram that is already there, without waiting. A wire that cannot tell gives none.
    fn more(&mut self, buffer: &mut [u8]) -> Result<Option<(usize, Addr)>, WireFault>
        ensures { IfOk result (λ there. IfSome there (λ taken. taken.0 ≤ length buffer.new)) };

    /// Sends a datagram. Nothing tells that it arrives.
    fn send(&mut self, to: Addr, bytes: &[u8]) -> Result<(), WireFault>;
}
