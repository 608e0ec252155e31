//! Laws of replies and of bodies, each the contract of a function that does nothing.

ghost use Rattle.std.specs.Prelude.{◌≡◌, ◌+◌, ◌<◌, ℕ, List, ◌∷◌, Option, false};
ghost use Rattle.lw_stamp.specs.Moment.{ms_of};
ghost use Rattle.lw_stamp.specs.declared.moment.Moment.{Moment};
ghost use Rattle.lw_reg.specs.declared.addr.Addr.{Addr};
ghost use Rattle.lw_messaging.specs.declared.exchange.Exchange.{Exchange};
ghost use Rattle.lw_messaging.specs.MessageIds.{IsGivenTwice};
ghost use Rattle.lw_messaging.specs.Repeats.{IsRepeatOf};
ghost use Rattle.lw_messaging.specs.Replies.{replied};
ghost use Rattle.lw_coap.specs.Message.{MessageContent};
ghost use Rattle.lw_messaging.specs.Bodies.{outcome, Makes, body_of};
ghost use Rattle.lw_messaging.specs.Spelled.{Came, kept_after, IsSpelled, AreSpelled};

/// What is sent again was replied to a request that the datagram repeats, and to each such one its reply is sent again.
pub fn a_reply_is_sent_again_to_the_same_request()
    ensures only { (now : Moment) (from : Addr) (bytes : List ℕ) (exchanges : List Exchange) (reply : Option (List ℕ))
        → replied now from bytes exchanges ≡ Some reply
        → (x : Exchange) × (IsRepeatOf now from bytes exchanges x × (x.reply ≡ reply)) }
    ensures each { (now : Moment) (from : Addr) (bytes : List ℕ) (exchanges : List Exchange) (x : Exchange)
        → IsRepeatOf now from bytes exchanges x → replied now from bytes exchanges ≡ Some x.reply }
{}

/// Whatever came: each body that is kept, and each message that is made whole, is what blocks among it spell.
pub fn bodies_are_spelled()
    ensures kept { (came : List Came) → AreSpelled came (kept_after came) }
    ensures whole { (earlier : List Came) (came : Came) (whole : MessageContent) (value : ℕ)
        → outcome (kept_after earlier) came.now came.from came.message ≡ Makes whole value
        → IsSpelled false (came ∷ earlier) (body_of came.now came.from whole) }
{}

/// Whatever was asked for, at moments that never fall: where an address is given a message ID twice, that is more than
/// 247 s apart (RFC 7252, sections 4.4 and 4.8.2).
pub fn message_ids_are_apart()
    ensures { (start : Moment) (to : Addr) (id : ℕ) (first last : Moment)
        → IsGivenTwice start to id first last → ms_of first + 247000 < ms_of last }
{}
