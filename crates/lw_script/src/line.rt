ghost use Rattle.std.specs.Prelude.{◌≡◌, ◌≢◌, IfSome, IfNone};
ghost use Rattle.std.specs.List.{before_first, after_first};
ghost use Rattle.lw_script.specs.Fields.{HasSpace, is_space};
ghost use Rattle.lw_script.specs.Lines.{ReadsAs, IsFields, IsLine};
ghost use Rattle.lw_script.specs.Words.{word_text};
ghost use Rattle.lw_script.specs.declared.word.Word.{Word as Words};

use crate::word::Word;
use crate::{LineFault, kinds};
use lw_world::Event;
use std::alloc::Global;

/// The event of a line. A line of a script may find no memory, and every other line is refused.
pub fn read_line(alloc: Global, line: &str) -> Result<Event, LineFault>
    ensures { ReadsAs (λ event. IsLine event line.now) result }
{
    match parts(line) {
        Some((word, fields)) => event(alloc, word, fields),
        None => Err(LineFault::Refused),
    }
}

/// The word before the first space, and the fields behind it.
fn parts(line: &str) -> Option<(Word, &str)>
    ensures found { IfSome result (λ x. HasSpace line.now × (before_first is_space line.now ≡ word_text x.0)
        × (x.1.now ≡ after_first is_space line.now)) }
    ensures only { IfSome result (λ x. (word : Words) → before_first is_space line.now ≡ word_text word → word ≡ x.0) }
    ensures none { IfNone result ((word : Words) → HasSpace line.now
        → before_first is_space line.now ≢ word_text word) }
{
    let (word, fields) = line.split_once(' ')?;
    Some((Word::read(word)?, fields))
}

fn event(alloc: Global, word: Word, fields: &str) -> Result<Event, LineFault>
    ensures { ReadsAs (λ event. IsFields word event fields.now) result }
{
    match word {
        Word::Take => kinds::take(alloc, fields),
        Word::Endpoint => kinds::endpoint(alloc, fields),
        Word::Next => kinds::next(alloc, fields),
        Word::Expired => kinds::expired(alloc, fields),
        Word::Observe => kinds::observe(fields).ok_or(LineFault::Refused),
        Word::Cancel => kinds::cancel(fields).ok_or(LineFault::Refused),
        Word::Sweep => kinds::sweep(fields).ok_or(LineFault::Refused),
        Word::Send => kinds::send(fields).ok_or(LineFault::Refused),
        Word::Deliver => kinds::deliver(fields).ok_or(LineFault::Refused),
        Word::Id => kinds::id(fields).ok_or(LineFault::Refused),
        Word::Address => kinds::address(fields).ok_or(LineFault::Refused),
        Word::Token => kinds::token(fields).ok_or(LineFault::Refused),
        Word::Watch => kinds::watch(fields).ok_or(LineFault::Refused),
        Word::Change => kinds::change(fields).ok_or(LineFault::Refused),
    }
}
