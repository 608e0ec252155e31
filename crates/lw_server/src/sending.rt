//! What a turn sends.

ghost use Rattle.std.specs.Prelude.{◌≡◌, ◌+◌, ◌≤◌, ◌++◌, map, vec_capacity, vec_len, option_map};
ghost use Rattle.lw_server.specs.Turns.{send_of as send_in, sends_of, sent};

use crate::blocks::Handled;
use lw_reg::Addr;

/// Puts the replies, each with where its datagram came from, behind what is to be sent. There is room for all.
pub(crate) fn put_sends(handled: Vec<Handled>, sends: &mut Vec<(Addr, Vec<u8>)>)
    requires { vec_len sends.old + vec_len handled ≤ vec_capacity sends.old }
    ensures { map sent sends.new.items ≡ map sent sends.old.items ++ sends_of handled.items }
{
    for datagram in handled {
        if let Some(send) = send_of(datagram) {
            sends.push_reserved(send);
        }
    }
}

/// Where the reply goes, and its bytes, if there is one.
fn send_of(handled: Handled) -> Option<(Addr, Vec<u8>)>
    ensures { option_map sent result ≡ send_in handled }
{
    Some((handled.from, handled.reply?))
}
