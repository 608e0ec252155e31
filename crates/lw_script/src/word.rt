ghost use Rattle.std.specs.Prelude.{◌≡◌, ◌↔◌, Some};
ghost use Rattle.lw_script.specs.Words.{word_text};

/// The word that begins a line of an event.
#[derive(Clone, Copy)]
pub(crate) enum Word {
    Take,
    Observe,
    Cancel,
    Sweep,
    Send,
    Deliver,
    Id,
    Endpoint,
    Address,
    Token,
    Watch,
    Next,
    Expired,
    Change,
}

impl Word {
    ghost use Rattle.lw_script.specs.declared.word.Word.{Word as Words};

    pub(crate) fn read(text: &str) -> Option<Word>
        ensures { (word : Words) → (result ≡ Some word) ↔ (text.now ≡ word_text word) }
    {
        match text {
            "take" => Some(Word::Take),
            "observe" => Some(Word::Observe),
            "cancel" => Some(Word::Cancel),
            "sweep" => Some(Word::Sweep),
            "send" => Some(Word::Send),
            "deliver" => Some(Word::Deliver),
            "id" => Some(Word::Id),
            "endpoint" => Some(Word::Endpoint),
            "address" => Some(Word::Address),
            "token" => Some(Word::Token),
            "watch" => Some(Word::Watch),
            "next" => Some(Word::Next),
            "expired" => Some(Word::Expired),
            "change" => Some(Word::Change),
            _ => None,
        }
    }
}
