ghost use Rattle.std.specs.Prelude.{◌≡◌, [], ◌∷◌, IfSome, IfNone};

use crate::message::{CoapOption, LentOption};
use std::marker::Model;

/// The options of a message in their order, wherever they lie: such as a message owns, and behind them such as are
/// lent. Contracts see the list.
#[derive(Drop)]
pub struct Options<'a> {
    owned: &'a [CoapOption],
    lent: &'a [LentOption<'a>],
}

impl<'a> Model for Options<'a> {
    ghost use Rattle.std.specs.Prelude.{List, ◌++◌};
    ghost use Rattle.lw_coap.specs.Message.{OptionContent};

    ghost Value = { List OptionContent };

    ghost view = { λ o. o.owned.now ++ o.lent.now };
}

impl<'a> Options<'a> {
    /// The options that a message owns.
    pub fn owned(options: &'a [CoapOption]) -> Options<'a>
        ensures { result ≡ options.now }
    {
        Options {
            owned: options,
            lent: &[],
        }
    }

    /// Options that are lent.
    pub fn lent(options: &'a [LentOption<'a>]) -> Options<'a>
        ensures { result ≡ options.now }
    {
        Options {
            owned: &[],
            lent: options,
        }
    }

    /// The same options, to be walked.
    pub fn walk(&self) -> Options<'a>
        ensures { result ≡ self.now }
    {
        Options {
            owned: self.owned,
            lent: self.lent,
        }
    }

    /// Takes the first option off.
    pub fn next(&mut self) -> Option<LentOption<'a>>
        ensures some { IfSome result (λ option. self.old ≡ option ∷ self.new) }
        ensures none { IfNone result (self.old ≡ []) }
    {
        if let [option, rest @ ..] = self.owned {
            self.owned = rest;
            return Some(LentOption {
                number: option.number,
                value: option.value.as_slice(),
            });
        }
        let [option, rest @ ..] = self.lent else {
            return None;
        };
        self.lent = rest;
        Some(LentOption {
            number: option.number,
            value: option.value,
        })
    }
}
