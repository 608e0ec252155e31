ghost use Rattle.std.specs.Prelude.{◌≡◌};
ghost use Rattle.lw_link.specs.inner.Machine as machine;

use crate::characters::{
    is_escaped_char, is_name_char, is_plain_char, is_quoted_char, is_space, is_target_char,
};
use crate::style::Style;

/// What was read last, on the way through a list.
#[derive(Clone, Copy, PartialEq, Eq)]
pub(crate) enum State {
    /// Nothing yet.
    Start,
    /// `<`, or a character of a target.
    Target,
    /// The `>` of a target, or the last `"` of a quoted value.
    Closed,
    /// `,`, or a space behind it.
    Comma,
    /// `;`, or a space behind it.
    Semicolon,
    /// A character of a name.
    Name,
    /// The `=` behind a name.
    Equals,
    /// A character of a plain value.
    Word,
    /// The first `"` of a quoted value, or one of its items.
    Quotation,
    /// A backslash in a quoted value.
    Backslash,
    /// Something outside the grammar.
    Stop,
}

/// The state behind what may end an attribute or a link.
fn separated(c: char) -> State
    ensures { result ≡ machine.separated c }
{
    match c {
        ';' => State::Semicolon,
        ',' => State::Comma,
        _ => State::Stop,
    }
}

impl State {
    /// The state behind the next character.
    #[inline(always)]
    pub(crate) fn next(self, style: Style, c: char) -> State
        ensures { result ≡ machine.next_state style self c }
    {
        match self {
            State::Start if c == '<' => State::Target,
            State::Target if is_target_char(c) => State::Target,
            State::Target if c == '>' => State::Closed,
            State::Comma if c == '<' => State::Target,
            State::Comma if is_space(style, c) => State::Comma,
            State::Semicolon if is_name_char(c) => State::Name,
            State::Semicolon if is_space(style, c) => State::Semicolon,
            State::Name if is_name_char(c) => State::Name,
            State::Name if c == '=' => State::Equals,
            State::Equals if is_plain_char(c) => State::Word,
            State::Equals if c == '"' => State::Quotation,
            State::Word if is_plain_char(c) => State::Word,
            State::Quotation if is_quoted_char(c) => State::Quotation,
            State::Quotation if c == '"' => State::Closed,
            State::Quotation if c == '\\' => State::Backslash,
            State::Backslash if is_escaped_char(style, c) => State::Quotation,
            State::Closed | State::Name | State::Word => separated(c),
            _ => State::Stop,
        }
    }

    /// Whether a list may end here.
    pub(crate) fn is_end(self) -> bool
        ensures { result ≡ machine.is_end self }
    {
        matches!(self, State::Closed | State::Name | State::Word)
    }

    /// Whether the character opens a link.
    pub(crate) fn opens_link(self, c: char) -> bool
        ensures { result ≡ machine.opens_link self c }
    {
        matches!(self, State::Start | State::Comma) && c == '<'
    }
}
