//! Datagrams of devices, before the store takes them: what answers a request of the server's own, and blocks of
//! notifications.

ghost use Rattle.std.specs.Prelude.{◌≡◌, IfOk, OnErr};
ghost use Rattle.lw_server.specs.Hearing.{IsHeard, IsHeardFrom, IsWatchAt, IsWatchIn, IsWatchOf};
ghost use Rattle.lw_server.specs.inner.Reports.{is_report as is_report_in};

use crate::{Clocks, Server};
use lw_log::DeltaLog;
use lw_messaging::{is_request, token_in_blocks};
use lw_node::Node;
use lw_reg::{Addr, Watch};
use lw_stamp::{Moment, NoMemory, Stamp};
use lw_udp::Datagram;

/// What becomes of a datagram before the store takes it.
#[derive(Drop)]
pub enum Passage {
    /// It goes on to the store.
    Through,
    /// This goes on to the store in its place.
    Whole(Vec<u8>),
    /// It does not go on, and this answers it, if it is owed an answer.
    Held(Option<Vec<u8>>),
}

impl<G: DeltaLog, C: Clocks> Server<G, C> {
    /// Hears a datagram before the store takes it, at the moment that the clocks told last.
    pub fn hear(&mut self, datagram: &Datagram) -> Result<Passage, NoMemory>
        ensures heard { IfOk result (λ passage. IsHeard datagram.now self.old passage self.new) }
        ensures unchanged { OnErr result (self.new ≡ self.old) }
    {
        if is_request(&datagram.bytes) {
            return Ok(Passage::Through);
        }
        self.hear_from(datagram.from, &datagram.bytes)
    }

    /// Hears a datagram that is no request.
    fn hear_from(&mut self, from: Addr, bytes: &[u8]) -> Result<Passage, NoMemory>
        ensures heard { IfOk result (λ passage. IsHeardFrom from bytes.now self.old passage self.new) }
        ensures unchanged { OnErr result (self.new ≡ self.old) }
    {
        let watch = self.watch_in(bytes)?;
        self.devices.hear(self.steady, from, watch, bytes)
    }

    /// The watch that a notification in blocks is of, if that lives.
    fn watch_in(&self, bytes: &[u8]) -> Result<Option<Watch>, NoMemory>
        ensures { IfOk result (λ watch. IsWatchIn self.now bytes.now watch) }
    {
        let token = token_in_blocks(self.alloc, bytes)?;
        Ok(self.watch_of(token))
    }

    /// The watch of the token, if that lives and the server serves.
    fn watch_of(&self, token: Option<Stamp>) -> Option<Watch>
        ensures { IsWatchOf self.now token result }
    {
        match (token, self.node()) {
            (Some(token), Some(node)) => watch_at(node, self.latest, token),
            _ => None,
        }
    }
}

/// The live watch with the token.
fn watch_at(node: &Node, now: Moment, token: Stamp) -> Option<Watch>
    ensures { IsWatchAt node.now now token result }
{
    let (_shown, watch) = node.by_token(now, token)?;
    Some(watch)
}

/// Whether a datagram has the code of a response, from 2.00 to 5.31 (RFC 7252, section 3).
pub(crate) fn is_report(bytes: &[u8]) -> bool
    ensures { result ≡ is_report_in bytes.now }
{
    matches!(bytes, [_, 64..=191, _, _, ..])
}
