//! Laws of what a message means, each the contract of a function that does nothing.

ghost use Rattle.std.specs.Prelude.{◌≡◌};
ghost use Rattle.lw_coap.specs.Message.{MessageContent};
ghost use Rattle.lw_request.specs.declared.asked.Asked.{Asked};
ghost use Rattle.lw_request.specs.Meaning.{Means};

/// Each message has a meaning, and no other.
pub fn messages_have_one_meaning()
    ensures some { (message : MessageContent) → (asked : Asked) × Means message asked }
    ensures one { (message : MessageContent) (a b : Asked) → Means message a → Means message b → a ≡ b }
{}
