//! Texts where they stand in the bytes of a delta.

ghost use Rattle.std.specs.Prelude.{◌≡◌};

use lw_stamp::Stamp;
use std::marker::Model;

/// An SMS number: at most 251 bytes. Contracts see its bytes.
#[derive(Drop)]
pub(crate) struct LentNumber<'a> {
    pub text: &'a str,
}

impl<'a> Model for LentNumber<'a> {
    ghost use Rattle.std.specs.Prelude.{ℕ, List, ◌≤◌, length};

    ghost Value = { List ℕ };

    ghost view = { λ n. n.text.now };

    ghost invariant = { λ n. length n.text.now ≤ 251 };
}

/// An object list: a printing of 1 to 256 links, of at most 8192 bytes. Contracts see its bytes.
#[derive(Drop)]
pub(crate) struct LentObjects<'a> {
    pub bytes: &'a [u8],
}

impl<'a> Model for LentObjects<'a> {
    ghost use Rattle.std.specs.Prelude.{ℕ, List, ◌≤◌, length};
    ghost use Rattle.lw_link.specs.WellFormed.{IsPrinting};

    ghost Value = { List ℕ };

    ghost view = { λ o. o.bytes.now };

    ghost invariant = { λ o. IsPrinting o.bytes.now × (length o.bytes.now ≤ 8192) };
}

/// The last write of an attribute. Contracts see its name, and the write of its value.
#[derive(Drop)]
pub(crate) struct LentAttribute<'a> {
    pub name: &'a str,
    pub stamp: Stamp,
    pub value: &'a str,
}

impl<'a> Model for LentAttribute<'a> {
    ghost use Rattle.std.specs.Prelude.{ℕ, List};
    ghost use Rattle.lw_join.specs.declared.last.Last.{Last};

    ghost Value = { List ℕ × Last (List ℕ) };

    ghost view = { λ a. (a.name.now, record { write = (a.stamp, a.value.now) }) };
}

impl<'a> LentAttribute<'a> {
    pub(crate) fn name(&self) -> &'a str
        ensures { result.now ≡ self.now.0 }
    {
        self.name
    }
}
