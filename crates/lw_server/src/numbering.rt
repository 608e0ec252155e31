//! Message IDs of the server's own, for what answers non-confirmable requests.

ghost use Rattle.std.specs.Prelude.{◌≡◌, option_map};
ghost use Rattle.std.specs.List.{count_by};
ghost use Rattle.lw_server.specs.Numbering.{has_reply, is_non_confirmable as is_non_confirmable_in, counters_behind, numbered_reply, counts_without_message_id, AreNumbered};

use crate::blocks::Handled;
use lw_messaging::{MessageIds, put_message_id};
use lw_reg::Addr;
use lw_stamp::Moment;

/// The type of a non-confirmable message.
const NON_CONFIRMABLE: u8 = 1;

/// Puts message IDs of the server's own into the replies that are not confirmable. Where none is free there is no
/// reply: how many replies were not sent so, counted on.
pub(crate) fn number_replies(
    ids: &mut MessageIds,
    without_message_id: u64,
    now: Moment,
    handled: &mut [Handled],
) -> u64
    ensures numbered { AreNumbered now ids.old handled.old handled.new ids.new }
    ensures count { result ≡ counts_without_message_id without_message_id handled.old handled.new }
{
    let count = count_of_replies(handled);
    number_each(ids, now, handled);
    let lost = count.saturating_sub(count_of_replies(handled));
    without_message_id.saturating_add(lost as u64)
}

/// Puts message IDs of the server's own into the replies that are not confirmable, one after another.
fn number_each(ids: &mut MessageIds, now: Moment, handled: &mut [Handled])
    ensures { AreNumbered now ids.old handled.old handled.new ids.new }
{
    for datagram in handled.iter_mut() {
        let reply = datagram.reply.take();
        datagram.reply = numbered(ids, now, datagram.from, reply);
    }
}

/// The reply under a message ID of the server's own, where it is not confirmable.
fn numbered(ids: &mut MessageIds, now: Moment, to: Addr, reply: Option<Vec<u8>>) -> Option<Vec<u8>>
    ensures reply { option_map (λ r. r.items) result
        ≡ numbered_reply now ids.old to (option_map (λ r. r.items) reply) }
    ensures ids { ids.new ≡ counters_behind now ids.old to (option_map (λ r. r.items) reply) }
{
    let mut message = reply?;
    if !is_non_confirmable(&message) {
        return Some(message);
    }
    let id = ids.next(now, to)?;
    put_message_id(&mut message, id);
    Some(message)
}

/// Whether a message is non-confirmable.
fn is_non_confirmable(bytes: &[u8]) -> bool
    ensures { result ≡ is_non_confirmable_in bytes.now }
{
    let [first, ..] = bytes else {
        return false;
    };
    first / 16 % 4 == NON_CONFIRMABLE
}

/// How many of the datagrams have a reply.
fn count_of_replies(handled: &[Handled]) -> usize
    ensures { result ≡ count_by has_reply handled.now }
{
    handled
        .iter()
        .filter(|handled| handled.reply.is_some())
        .count()
}
