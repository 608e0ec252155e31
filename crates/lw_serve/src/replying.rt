use crate::outcomes::{part_of, reply_in};
use crate::wire::Wire;
use log::{Log, warn};
use lw_crew::Done;
use lw_held::Pass;
use lw_reg::Addr;

/// Sends the replies to the datagrams among the jobs, in job order.
pub(crate) fn send_replies<W: Wire, L: Log>(
    wire: &mut W,
    log: &L,
    passes: &[Pass],
    dones: &[Done],
) {
    for done in dones {
        if let Some((to, bytes)) = part_of(passes, done.result).and_then(reply_in) {
            send(wire, log, to, bytes);
        }
    }
}

/// Sends a datagram. A fault is passed over.
fn send<W: Wire, L: Log>(wire: &mut W, log: &L, to: Addr, bytes: &[u8]) {
    if wire.send(to, bytes).is_err() {
        warn!(log; "send passed over");
    }
}
