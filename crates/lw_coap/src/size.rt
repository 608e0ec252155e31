//! How many bytes the parts of a message take.

ghost use Rattle.std.specs.Prelude.{◌≡◌, ◌+◌, ◌<◌, ◌≤◌, length, IfSome, IfNone};
ghost use Rattle.lw_coap.specs.Fits.{AreRising, extension_length, options_length, payload_length, printed_length};

use crate::limits::{HEADER_LENGTH, MAX_LENGTH};
use crate::message::{CoapOption, LentMessage, Message};

/// How many bytes extend the nibble of a number (RFC 7252, section 3.1).
fn bytes_of_extension(number: usize) -> usize
    ensures value { result ≡ extension_length number }
    ensures below { result ≤ 2 }
{
    if number < 13 {
        0
    } else if number < 269 {
        1
    } else {
        2
    }
}

/// How many bytes of an option stand before its value.
fn bytes_before_value(delta: usize, size: usize) -> usize
    ensures value { result ≡ 1 + extension_length delta + extension_length size }
    ensures below { result ≤ 5 }
{
    1 + bytes_of_extension(delta) + bytes_of_extension(size)
}

/// How many bytes the options take. There is no answer where their numbers fall, or past 8,192 bytes.
fn bytes_of_options(options: &[CoapOption]) -> Option<usize>
    ensures rising { IfSome result (λ len. AreRising 0 options.now) }
    ensures value { IfSome result (λ len. len ≡ options_length 0 options.now) }
    ensures within { IfSome result (λ len. len ≤ 8192) }
    ensures none { IfNone result (AreRising 0 options.now → 8192 < options_length 0 options.now) }
{
    let mut before = 0;
    let mut len = 0;
    for option in options {
        let size = option.value.len();
        if option.number < before || size > MAX_LENGTH {
            return None;
        }
        let delta = (option.number - before) as usize;
        len += bytes_before_value(delta, size) + size;
        if len > MAX_LENGTH {
            return None;
        }
        before = option.number;
    }
    Some(len)
}

/// How many bytes a payload takes, its marker counted.
fn bytes_of_payload(payload: &[u8]) -> usize
    requires { length payload.now ≤ 8192 }
    ensures { result ≡ payload_length payload.now }
{
    match payload {
        [] => 0,
        _ => 1 + payload.len(),
    }
}

/// How many bytes a message takes. There is no answer where option numbers fall, or past 8,192 bytes.
pub(crate) fn bytes_of_message(message: &Message) -> Option<usize>
    ensures rising { IfSome result (λ len. AreRising 0 message.now.options) }
    ensures value { IfSome result (λ len. len ≡ printed_length message.now) }
    ensures within { IfSome result (λ len. len ≤ 8192) }
    ensures none { IfNone result (AreRising 0 message.now.options → 8192 < printed_length message.now) }
{
    if message.payload.len() > MAX_LENGTH {
        return None;
    }
    let options = bytes_of_options(&message.options)?;
    let payload = bytes_of_payload(&message.payload);
    let len = HEADER_LENGTH + message.token.len() + options + payload;
    (len <= MAX_LENGTH).then_some(len)
}

/// Room for a message. It serves to make it once, and promises nothing.
pub(crate) fn room_of(message: &LentMessage<'_>) -> usize {
    let mut before = 0;
    let mut room = HEADER_LENGTH + usize::from(!message.payload.is_empty());
    let mut rest = message.options.walk();
    while let Some(option) = rest.next() {
        let delta = usize::from(option.number.saturating_sub(before));
        let size = option.value.len();
        room = room
            .saturating_add(bytes_before_value(delta, size))
            .saturating_add(size);
        before = option.number;
    }
    room.saturating_add(message.token.len())
        .saturating_add(message.payload.len())
}
