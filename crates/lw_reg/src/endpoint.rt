ghost use Rattle.std.specs.Prelude.{◌≡◌, ◌↔◌, IsSome, IfSome, IfOk};
ghost use Rattle.lw_reg.specs.Endpoint.{IsEndpoint};

use crate::Text;
use lw_stamp::NoMemory;
use std::alloc::Global;
use std::marker::Model;

/// The name of a client: a text of 1 to 252 bytes. Contracts see its bytes, and by these it is ordered.
#[derive(PartialEq, Eq, PartialOrd, Ord, Drop)]
pub struct Endpoint {
    text: Text,
}

impl Model for Endpoint {
    ghost use Rattle.std.specs.Prelude.{ℕ, List};
    ghost use Rattle.lw_reg.specs.Endpoint.{IsEndpoint};

    ghost Value = { List ℕ };

    ghost view = { λ e. e.text };

    ghost invariant = { λ e. IsEndpoint e.text };

    ghost inverse = { λ text. record { text = text } };
}

impl Endpoint {
    /// The most bytes: what a Uri-Query of 255 bytes holds behind `ep=`.
    pub const MAX_LENGTH: usize = 252;

    /// There is none for an empty text, or for one of more than 252 bytes.
    pub fn new(text: Text) -> Option<Endpoint>
        ensures accepted { IsSome result ↔ IsEndpoint text }
        ensures value { IfSome result (λ e. e ≡ text) }
    {
        let length = text.as_str().len();
        if length == 0 || length > Endpoint::MAX_LENGTH {
            return None;
        }
        Some(Endpoint { text })
    }

    /// The endpoint of that name, which is copied.
    pub fn copy_of(alloc: Global, name: &str) -> Result<Endpoint, NoMemory>
        requires { IsEndpoint name.now }
        ensures { IfOk result (λ e. e ≡ name.now) }
    {
        match Endpoint::new(Text::copy_of(alloc, name)?) {
            Some(endpoint) => Ok(endpoint),
            None => unreachable!(),
        }
    }

    /// Its name, of 1 to 252 bytes.
    pub fn as_str(&self) -> &str
        ensures value { result.now ≡ self.now }
        ensures within { IsEndpoint result.now }
    {
        self.text.as_str()
    }

    /// The name as a text, which is moved.
    pub fn into_text(self) -> Text
        ensures value { result ≡ self }
        ensures within { IsEndpoint result }
    {
        let Endpoint { text } = self;
        text
    }
}
