ghost use Rattle.std.specs.Prelude.{◌≡◌, ◌≤◌, ◌↔◌, IsSome, IfSome, IfOk, length};

use crate::Text;
use lw_stamp::NoMemory;
use std::alloc::Global;
use std::marker::Model;

/// The number that a client takes SMS at: a text of at most 251 bytes. Contracts see its bytes, and
/// by these it is ordered.
#[derive(PartialEq, Eq, PartialOrd, Ord, Drop)]
pub struct SmsNumber {
    text: Text,
}

impl Model for SmsNumber {
    ghost use Rattle.std.specs.Prelude.{ℕ, List, ◌≤◌, length};

    ghost Value = { List ℕ };

    ghost view = { λ s. s.text };

    ghost invariant = { λ s. length s.text ≤ 251 };

    ghost inverse = { λ text. record { text = text } };
}

impl SmsNumber {
    /// The most bytes: what a Uri-Query of 255 bytes holds behind `sms=`.
    pub const MAX_LENGTH: usize = 251;

    /// There is none for a text of more than 251 bytes.
    pub fn new(text: Text) -> Option<SmsNumber>
        ensures accepted { IsSome result ↔ (length text ≤ 251) }
        ensures value { IfSome result (λ s. s ≡ text) }
    {
        if text.as_str().len() > SmsNumber::MAX_LENGTH {
            return None;
        }
        Some(SmsNumber { text })
    }

    /// The number of that text, which is copied.
    pub fn copy_of(alloc: Global, text: &str) -> Result<SmsNumber, NoMemory>
        requires { length text.now ≤ 251 }
        ensures { IfOk result (λ s. s ≡ text.now) }
    {
        match SmsNumber::new(Text::copy_of(alloc, text)?) {
            Some(number) => Ok(number),
            None => unreachable!(),
        }
    }

    /// Its text, of at most 251 bytes.
    pub fn as_str(&self) -> &str
        ensures value { result.now ≡ self.now }
        ensures within { length result.now ≤ 251 }
    {
        self.text.as_str()
    }
}
