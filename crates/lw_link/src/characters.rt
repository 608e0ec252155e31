//! The characters of each place in a list of links.

ghost use Rattle.std.specs.Prelude.{◌≡◌};
ghost use Rattle.lw_link.specs.Characters as characters;

use crate::style::Style;

pub(crate) fn is_target_char(c: char) -> bool
    ensures { result ≡ characters.is_target_char c }
{
    matches!(c, '!'..='~') && c != '<' && c != '>'
}

pub(crate) fn is_name_char(c: char) -> bool
    ensures { result ≡ characters.is_name_char c }
{
    matches!(c, 'A'..='Z' | 'a'..='z' | '0'..='9' | '-' | '.' | '_' | '*')
}

pub(crate) fn is_plain_char(c: char) -> bool
    ensures { result ≡ characters.is_plain_char c }
{
    matches!(c, '!'..='~') && c != '"' && c != ',' && c != ';' && c != '\\'
}

/// Whether a quoted value may hold the character.
pub(crate) fn is_shown(c: char) -> bool
    ensures { result ≡ characters.is_shown c }
{
    c >= ' ' && c != '\u{7f}'
}

/// Whether the character stands for itself between quotes.
pub(crate) fn is_quoted_char(c: char) -> bool
    ensures { result ≡ characters.is_quoted_char c }
{
    is_shown(c) && c != '"' && c != '\\'
}

/// Whether a backslash may stand before the character.
pub(crate) fn is_escaped_char(style: Style, c: char) -> bool
    ensures { result ≡ characters.is_escaped_char style c }
{
    match style {
        Style::Any => is_shown(c),
        Style::Printed => c == '"' || c == '\\',
    }
}

/// Whether the character is a space that may stand behind `,` or `;`.
pub(crate) fn is_space(style: Style, c: char) -> bool
    ensures { result ≡ characters.is_space style c }
{
    match style {
        Style::Any => c == ' ',
        Style::Printed => false,
    }
}
