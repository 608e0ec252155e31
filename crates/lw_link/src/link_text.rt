ghost use Rattle.std.specs.Prelude.{◌≡◌, ◌≢◌, ◌≤◌, ◌↔◌, List, length, IfOk, IfErr, MatchResult, Err};

use crate::fault::LinkFault;
use crate::printing::print;
use crate::reading::read;
use crate::scan::printed_text;
use lw_stamp::{NoMemory, Text};
use std::alloc::Global;
use std::marker::Model;

/// A text of at most 8,192 bytes that is the printing of 1 to 256 links. Contracts see its bytes, and by
/// these it is ordered.
#[derive(PartialEq, Eq, PartialOrd, Ord, Drop)]
pub struct LinkText {
    text: Text,
}

impl Model for LinkText {
    ghost use Rattle.std.specs.Prelude.{ℕ, List, ◌≤◌, length};
    ghost use Rattle.lw_link.specs.WellFormed.{IsPrinting};

    ghost Value = { List ℕ };

    ghost view = { λ t. t.text };

    ghost invariant = { λ t. IsPrinting t.text × (length t.text ≤ 8192) };

    ghost inverse = { λ text. record { text = text } };
}

impl LinkText {
    ghost use Rattle.lw_link.specs.declared.fault.LinkFault.{LinkFault};
    ghost use Rattle.lw_link.specs.Link.{LinkContent};
    ghost use Rattle.lw_link.specs.Spelling.{Spells};
    ghost use Rattle.lw_link.specs.Faults.{IsFault};
    ghost use Rattle.lw_link.specs.inner.Faults.{IsRefused};
    ghost use Rattle.lw_link.specs.Printing.{printing};
    ghost use Rattle.lw_link.specs.WellFormed.{IsPrinting};

    /// The bytes as they are, which are known to be a printing.
    pub fn of_printing(alloc: Global, bytes: &[u8]) -> Result<LinkText, NoMemory>
        requires printing { IsPrinting bytes.now }
        requires within { length bytes.now ≤ 8192 }
        ensures { IfOk result (λ text. text ≡ bytes.now) }
    {
        let Ok(text) = str::from_utf8(bytes) else {
            unreachable!()
        };
        LinkText::of_text(alloc, text)
    }

    fn of_text(alloc: Global, text: &str) -> Result<LinkText, NoMemory>
        requires printing { IsPrinting text.now }
        requires within { length text.now ≤ 8192 }
        ensures { IfOk result (λ copy. copy ≡ text.now) }
    {
        Ok(LinkText {
            text: Text::copy_of(alloc, text)?,
        })
    }

    /// The printing of the links that the bytes spell. Each fault but `NoMemory` is found before any memory
    /// is taken.
    pub fn read(alloc: Global, bytes: &[u8]) -> Result<LinkText, LinkFault>
        requires { length bytes.now ≤ 8192 }
        // What is read is the printing of what is spelled.
        ensures found { IfOk result (λ text. (links : List LinkContent) × Spells bytes.now links
            × (length links ≤ 256) × (text ≡ printing links)) }
        // What is spelled is read, unless a growth is refused.
        ensures only { (links : List LinkContent) → Spells bytes.now links → length links ≤ 256
            → MatchResult result (λ text. text ≡ printing links) (λ fault. fault ≡ LinkFault.NoMemory) }
        // Each other fault is answered exactly where it is that of the bytes.
        ensures faults { (fault : LinkFault) → fault ≢ LinkFault.NoMemory
            → ((result ≡ Err fault) ↔ IsFault bytes.now fault) }
        // Want of memory comes only in place of a text.
        ensures memory { result ≡ Err LinkFault.NoMemory → (links : List LinkContent) × Spells bytes.now links
            × (length links ≤ 256) }
    {
        LinkText::read_checked(alloc, bytes)
    }

    fn read_checked(alloc: Global, bytes: &[u8]) -> Result<LinkText, LinkFault>
        requires { length bytes.now ≤ 8192 }
        ensures found { IfOk result (λ text. (links : List LinkContent) × Spells bytes.now links
            × (length links ≤ 256) × (text ≡ printing links)) }
        ensures refused { IfErr result (IsRefused bytes.now) }
    {
        if let Some(text) = printed_text(bytes) {
            return Ok(LinkText::of_text(alloc, text)?);
        }
        let links = read(alloc, bytes)?;
        let text = print(alloc, &links)?;
        Ok(LinkText {
            text: Text::from(text),
        })
    }

    /// The printing, of at most 8,192 bytes.
    pub fn as_str(&self) -> &str
        ensures value { result.now ≡ self.now }
        ensures printing { IsPrinting result.now }
        ensures within { length result.now ≤ 8192 }
    {
        self.text.as_str()
    }

    /// A copy of the same text.
    pub fn copy_of(&self, alloc: Global) -> Result<LinkText, NoMemory>
        ensures { IfOk result (λ copy. copy ≡ self.now) }
    {
        LinkText::of_text(alloc, self.text.as_str())
    }
}
