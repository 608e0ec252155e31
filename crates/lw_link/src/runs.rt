//! Characters that leave a state as it is, passed at once.

ghost use Rattle.std.specs.Prelude.{◌≡◌, ◌≤◌, IfSome, length, take};
ghost use Rattle.lw_link.specs.Characters.{Each};
ghost use Rattle.lw_link.specs.inner.Runs.{keeps, HasLink};

use crate::characters::{is_name_char, is_plain_char, is_quoted_char, is_target_char};
use crate::state::State;

/// Whether the character is of one byte and leaves the state as it is. Spaces behind `,` and `;` do not count.
#[inline(always)]
fn is_kept(state: State, c: char) -> bool
    ensures { result ≡ keeps state c }
{
    match state {
        State::Target => is_target_char(c),
        State::Name => is_name_char(c),
        State::Word => is_plain_char(c),
        State::Quotation => c <= '~' && is_quoted_char(c),
        _ => false,
    }
}

/// How many bytes at the front leave the state as it is.
pub(crate) fn run_in(state: State, bytes: &[u8]) -> usize
    ensures within { result ≤ length bytes.now }
    ensures kept { Each (keeps state) (take result bytes.now) }
{
    let mut count = 0;
    while count < bytes.len() && is_kept(state, bytes[count] as char) {
        count += 1;
    }
    count
}

/// How many bytes `,` and a link without attributes take at the front.
pub(crate) fn link_in(bytes: &[u8]) -> Option<usize>
    ensures { IfSome result (HasLink bytes.now) }
{
    if bytes.len() < 3 || bytes[0] != b',' || bytes[1] != b'<' {
        return None;
    }
    let rest = &bytes[2..];
    let count = run_in(State::Target, rest);
    if count < rest.len() && rest[count] == b'>' {
        Some(count + 3)
    } else {
        None
    }
}
