ghost use Rattle.std.specs.Prelude.{◌≡◌, ℕ, List, [], ◌∷◌, MatchOption, MatchBool, chars};
ghost use Rattle.lw_link.specs.inner.Runs.{Passes, PassesLink};

use crate::runs::{link_in, run_in};
use crate::state::State;
use std::marker::Model;
use std::str::Chars;

/// A text that is taken character by character. Contracts see the characters that are left.
#[derive(Drop)]
pub(crate) struct Scanner<'a> {
    left: Chars<'a>,
}

impl<'a> Model for Scanner<'a> {
    ghost use Rattle.std.specs.Prelude.{ℕ, List, IsUtf8, chars};
    ghost use Rattle.std.specs.Str.Iter.{chars_rest};

    ghost Value = { List ℕ };

    ghost view = { λ s. chars (chars_rest s.left) };

    ghost invariant = { λ s. IsUtf8 (chars_rest s.left) };
}

impl<'a> Scanner<'a> {
    pub(crate) fn new(text: &'a str) -> Scanner<'a>
        ensures { result ≡ chars text.now }
    {
        Scanner { left: text.chars() }
    }

    /// Takes the next character.
    pub(crate) fn take(&mut self) -> Option<char>
        ensures { MatchOption result ((self.old ≡ []) × (self.new ≡ [])) (λ c. self.old ≡ c ∷ self.new) }
    {
        self.left.next()
    }

    /// Passes characters of one byte that leave the state as it is, and tells how many.
    pub(crate) fn pass(&mut self, state: State) -> usize
        ensures { Passes state self.old self.new result }
    {
        let text = self.left.as_str();
        let count = run_in(state, text.as_bytes());
        self.left = text[count..].chars();
        count
    }

    /// Passes `,` and a link without attributes behind the end of one, and tells how many characters of one byte.
    pub(crate) fn pass_link(&mut self, state: State) -> Option<usize>
        ensures { MatchOption result (self.new ≡ self.old) (PassesLink state self.old self.new) }
    {
        let State::Closed = state else {
            return None;
        };
        let text = self.left.as_str();
        let Some(count) = link_in(text.as_bytes()) else {
            return None;
        };
        self.left = text[count..].chars();
        Some(count)
    }

    /// The next character, which is left where it is.
    pub(crate) fn peek(&self) -> Option<char>
        ensures { MatchOption result (self.now ≡ []) (λ c. (rest : List ℕ) × (self.now ≡ c ∷ rest)) }
    {
        self.left.as_str().chars().next()
    }

    /// Takes the character if it comes next.
    pub(crate) fn take_if(&mut self, c: char) -> bool
        ensures { MatchBool result (self.old ≡ c ∷ self.new) ((self.new ≡ self.old)
            × ((rest : List ℕ) → self.old ≡ c ∷ rest → ⊥)) }
    {
        let Some(next) = self.peek() else {
            return false;
        };
        if next != c {
            return false;
        }
        let _ = self.take();
        true
    }
}
