//! Walking a text through the grammar, with no memory.

ghost use Rattle.std.specs.Prelude.{◌≡◌, ◌≤◌, ◌↔◌, true, length, IfOk, IfErr, IfSome, IfNone, IsTrue, IsUtf8, chars};
ghost use Rattle.lw_link.specs.declared.style.Style.TheVariants.{Any};
ghost use Rattle.lw_link.specs.declared.state.State.TheVariants.{Start};
ghost use Rattle.lw_link.specs.inner.Machine.{read_on, Leaves};
ghost use Rattle.lw_link.specs.Faults.{IsFault};
ghost use Rattle.lw_link.specs.WellFormed.{IsPrinting};

use crate::fault::LinkFault;
use crate::limits::MAX_LINKS;
use crate::scanner::Scanner;
use crate::state::State;
use crate::style::Style;

/// The number of links, or the place where the text leaves the grammar.
fn scan(text: &str, style: Style) -> Result<usize, usize>
    ensures whole { IfOk result (λ _. (read_on style Start (chars text.now)).whole ≡ true) }
    ensures links { IfOk result (λ links. links ≡ length (read_on style Start (chars text.now)).links) }
    ensures place { IfErr result (Leaves style (chars text.now)) }
{
    let mut scanner = Scanner::new(text);
    let mut state = State::Start;
    let mut links = 0;
    let mut place = 0;
    while let Some(c) = scanner.take() {
        let next = state.next(style, c);
        if let State::Stop = next {
            return Err(place);
        }
        if state.opens_link(c) {
            links += 1;
        }
        let behind = place + c.len_utf8();
        state = next;
        place = behind + scanner.pass(state);
        while let Some(count) = scanner.pass_link(state) {
            links += 1;
            place += count;
        }
    }
    if state.is_end() {
        Ok(links)
    } else {
        Err(place)
    }
}

/// The text, if it is a list of 1 to 256 links.
pub(crate) fn check(bytes: &[u8]) -> Result<&str, LinkFault>
    ensures text { IfOk result (λ text. (text.now ≡ bytes.now) × IsUtf8 bytes.now) }
    ensures whole { IfOk result (λ _. (read_on Any Start (chars bytes.now)).whole ≡ true) }
    ensures links { IfOk result (λ _. length (read_on Any Start (chars bytes.now)).links ≤ 256) }
    ensures fault { IfErr result (IsFault bytes.now) }
{
    let Ok(text) = str::from_utf8(bytes) else {
        return Err(LinkFault::NotText);
    };
    match scan(text, Style::Any) {
        Ok(links) if links <= MAX_LINKS => Ok(text),
        Ok(_) => Err(LinkFault::TooMany),
        Err(place) => Err(LinkFault::Grammar { place }),
    }
}

/// The text, if it is the printing of 1 to 256 links.
pub(crate) fn printed_text(bytes: &[u8]) -> Option<&str>
    ensures some { IfSome result (λ text. (text.now ≡ bytes.now) × IsPrinting bytes.now) }
    ensures none { IfNone result (¬ IsPrinting bytes.now) }
{
    let Ok(text) = str::from_utf8(bytes) else {
        return None;
    };
    match scan(text, Style::Printed) {
        Ok(links) if links <= MAX_LINKS => Some(text),
        Ok(_) => None,
        Err(_) => None,
    }
}

/// Whether the bytes are the printing of 1 to 256 links.
pub fn is_printing(bytes: &[u8]) -> bool
    ensures { IsTrue result ↔ IsPrinting bytes.now }
{
    printed_text(bytes).is_some()
}
