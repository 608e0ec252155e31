//! A run that is refused memory.

use super::*;
use lw_serve::CrewFault;
use std::test::Fail;

/// A Register at node 1, a ping in the next round, in which node 2 merges what node 1 has sent, and then an Update of
/// the registration at node 2.
static ARRIVALS: [Arrival<'static>; 3] = [
    (56832, REGISTER, Alone),
    (56832, PING, Alone),
    (56833, UPDATE, Alone),
];

/// Whether a reply of this kind was sent to the port.
fn is_sent_to(sent: &[(u16, Vec<u8>)], to: u16, front: [u8; 2]) -> bool {
    for (port, reply) in sent {
        if *port == to && reply.starts_with(&front) {
            return true;
        }
    }
    false
}

/// Serves the three datagrams in a round each, at two nodes by one worker. Where the run ends well, and the Register is
/// replied to by 2.01, the Update is not replied to by 4.04.
fn is_updated<R: Threads + Wait + Sync + Abort>(rt: &R, alloc: Global) -> Result<(), NoMemory> {
    let mut wire = MemoryWire::new(alloc, &ARRIVALS);
    let (mut clock, mut written) = (Ticks::new(&[0]), Vec::new(alloc));
    let plan = Plan::new(3, 2, 1, None).expect(rt, "a plan");
    let ended = serve_on(
        rt,
        alloc,
        &mut wire,
        &mut clock,
        &Discard,
        &plan,
        &mut written,
    );
    match ended {
        Ok(()) => {
            let is_created = is_sent_to(&wire.sent, 56832, [0x60, 0x41]);
            let is_unknown = is_sent_to(&wire.sent, 56833, [0x60, 0x84]);
            assert!(rt; !(is_created && is_unknown), "an update of what is known");
            Ok(())
        }
        // What is written is kept in memory.
        Err(
            ServeFault::NoMemory | ServeFault::WriteFailed | ServeFault::Crew(CrewFault::NoMemory),
        ) => Err(NoMemory),
        Err(fault) => panic!(rt; "{fault:?}"),
    }
}

/// Tries: serve_on
#[test]
fn a_refused_merge_is_made_in_the_next_round(rt: HostRuntime) -> Result<(), Fail> {
    Ok(is_updated(&rt, rt.alloc())?)
}
