//! Turns of a server that is asked behind each of them.

use super::stage::CHANCE;
use super::*;
use lw_route::{Api, ApiQuery};
use std::process::Abort;

/// A datagram that comes so many times at once, and what is counted and told behind that.
#[derive(Drop)]
pub(super) struct Turn {
    /// The datagram in hex, and how many letters `a` stand behind that.
    pub(super) datagram: &'static str,
    pub(super) letters: usize,
    pub(super) times: u32,
    /// Each reply, in hex.
    pub(super) sent: &'static [&'static str],
    pub(super) duplicates: u64,
    pub(super) blocks: u64,
    /// A text of the measures.
    pub(super) bodies: &'static str,
    /// A text of the page of those that are registered.
    pub(super) links: &'static str,
}

/// Nothing is counted, kept and registered.
pub(super) const TURN: Turn = Turn {
    datagram: "",
    letters: 0,
    times: 1,
    sent: &[],
    duplicates: 0,
    blocks: 0,
    bodies: "fleet_bodies 0",
    links: "[]",
};

/// All that are registered.
const EVERYONE: ApiQuery = ApiQuery::Registrations {
    after: None,
    limit: 10,
};

/// Fails where a new server, whose turns are at a second, takes the turns in another way.
pub(super) fn takes(rt: &impl Abort, alloc: Global, turns: &[Turn]) {
    let mut server = new_server(rt, alloc);
    assert_eq!(rt; server.duplicates(), 0);
    for turn in turns {
        turn.sends(rt, alloc, &mut server);
        turn.counts(rt, &server);
        turn.tells(rt, &server, &ApiQuery::Metrics, turn.bodies);
        turn.tells(rt, &server, &EVERYONE, turn.links);
    }
}

/// A server of a new replica over a log in memory, whose turns are at a second.
fn new_server(rt: &impl Abort, alloc: Global) -> Server<MemoryLog, Ticks> {
    let log = MemoryLog::new(alloc);
    let replica = Replica::begin(alloc, log, &CHANCE, Moment::START).expect(rt, "a replica");
    let clock = Ticks::new(&[1_000], Offset::NONE);
    Server::new(alloc, replica, clock, 0, Moment::START, None)
}

impl Turn {
    fn sends(&self, rt: &impl Abort, alloc: Global, server: &mut Server<MemoryLog, Ticks>) {
        server.read_clock().expect(rt, self.datagram);
        let sends = server.take(self.batch(rt, alloc)).expect(rt, self.datagram);
        assert_eq!(rt; sends.len(), self.sent.len(), "{}", self.datagram);
        for (send, want) in sends.iter().zip(self.sent) {
            let bytes = hex::encode(alloc, &send.1).expect(rt, "memory");
            assert_eq!(rt; bytes.as_str(), *want, "{}", self.datagram);
        }
    }

    /// The datagram, so many times.
    fn batch(&self, rt: &impl Abort, alloc: Global) -> Vec<Datagram> {
        let address = [127, 0, 0, 1];
        let from = Addr::V4 {
            address,
            port: 5683,
        };
        let bytes = self.bytes(rt, alloc);
        let mut batch = Vec::new(alloc);
        for _time in 0..self.times {
            let datagram = Datagram::new(alloc, from, &bytes).expect(rt, "memory");
            batch.push(datagram).expect(rt, "memory");
        }
        batch
    }

    fn bytes(&self, rt: &impl Abort, alloc: Global) -> Vec<u8> {
        let mut bytes = hex::decode(alloc, self.datagram).expect(rt, "a datagram");
        for _letter in 0..self.letters {
            bytes.push(b'a').expect(rt, "memory");
        }
        bytes
    }

    fn counts(&self, rt: &impl Abort, server: &Server<MemoryLog, Ticks>) {
        assert_eq!(rt; server.duplicates(), self.duplicates, "{}", self.datagram);
        assert_eq!(rt; server.blocks(), self.blocks, "{}", self.datagram);
        assert_eq!(rt; server.unkept(), 0, "{}", self.datagram);
    }

    /// Fails where what is told does not have the text.
    fn tells(
        &self,
        rt: &impl Abort,
        server: &Server<MemoryLog, Ticks>,
        api_query: &ApiQuery,
        text: &str,
    ) {
        let answer = server.answer(api_query).expect(rt, self.datagram);
        assert!(rt;
            answer.body.as_str().contains(text),
            "{}: {text}",
            self.datagram
        );
    }
}
