//! What the datagrams of a server come over.

ghost use Rattle.std.specs.Prelude.{◌≤◌, length, IfOk, IfSome};
ghost use Rattle.lw_server.specs.Transport.{IsWithin};

use lw_metrics::Responses;
use lw_reg::Addr;
use lw_route::Api;
use lw_udp::WireFault;
use std::time::Duration;

/// What comes next.
#[derive(Clone, Copy, Debug, PartialEq, Eq)]
pub enum Incoming {
    /// A datagram: how many of its bytes stand in the buffer, and where it comes from.
    Datagram(usize, Addr),
    /// The time is over, or the API has something to send.
    Nothing,
    /// Nothing will come any more.
    Closed,
}

/// What datagrams come and go over, and HTTP clients.
pub trait Transport {
    /// Waits so long for a datagram, and has the API answer HTTP clients meanwhile. As soon as they have left it
    /// something to send, it waits no more. Once the time is over it answers none any more, also where the process was
    /// stopped in between. It gives the API back. Bytes for which the buffer has no room are lost.
    fn poll<A: Api + Drop>(
        &mut self,
        api: A,
        buffer: &mut [u8],
        time: Duration,
    ) -> (A, Result<Incoming, WireFault>)
        ensures { IfOk result.1 (IsWithin (length buffer.new)) };

    /// A datagram that is already there, without waiting.
    fn more(&mut self, buffer: &mut [u8]) -> Result<Option<(usize, Addr)>, WireFault>
        ensures { IfOk result (λ there. IfSome there (λ taken. taken.0 ≤ length buffer.new)) };

    /// Sends a datagram. Nothing tells that it arrives.
    fn send(&mut self, to: Addr, bytes: &[u8]) -> Result<(), WireFault>;

    /// How HTTP clients were answered, since the transport is there.
    fn responses(&self) -> Responses;

    /// How many datagrams were dropped before they could be received, since the transport is there.
    fn drops(&self) -> u64;
}
