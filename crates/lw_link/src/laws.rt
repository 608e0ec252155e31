//! Laws of the link format, each the contract of a function that does nothing.

ghost use Rattle.std.specs.Prelude.{◌≡◌, ℕ, ◌≤◌, ◌⊎◌, List, length};
ghost use Rattle.lw_link.specs.declared.fault.LinkFault.{LinkFault};
ghost use Rattle.lw_link.specs.Faults.{IsFault, IsRead};
ghost use Rattle.lw_link.specs.Link.{LinkContent};
ghost use Rattle.lw_link.specs.Spelling.{Spells};
ghost use Rattle.lw_link.specs.Printing.{printing};
ghost use Rattle.lw_link.specs.WellFormed.{AreWellFormed, IsPrinting};

/// A printing spells its links, and what is spelled can be printed.
pub fn printings_spell_their_links()
    ensures spelled { (links : List LinkContent) → AreWellFormed links → Spells (printing links) links }
    ensures well_formed { (bytes : List ℕ) (links : List LinkContent) → Spells bytes links → length links ≤ 256
        → AreWellFormed links }
{}

/// A printing of at most 256 links reads as itself: it spells its list, and no other.
pub fn printings_read_as_themselves()
    ensures { (bytes : List ℕ) → IsPrinting bytes → (links : List LinkContent) × Spells bytes links
        × (length links ≤ 256) × (printing links ≡ bytes)
        × ((others : List LinkContent) → Spells bytes others → others ≡ links) }
{}

/// Bytes spell a list or have a fault, one and never both: a fault is that they are no text, that they leave
/// the grammar at one place, or that the links are too many.
pub fn bytes_spell_a_list_or_have_a_fault()
    ensures some { (bytes : List ℕ) → IsRead bytes ⊎ ((fault : LinkFault) × IsFault bytes fault) }
    ensures apart { (bytes : List ℕ) (fault : LinkFault) → IsRead bytes → IsFault bytes fault → ⊥ }
    ensures one { (bytes : List ℕ) (a b : LinkFault) → IsFault bytes a → IsFault bytes b → a ≡ b }
{}

/// Bytes spell one list.
pub fn bytes_spell_one_list()
    ensures { (bytes : List ℕ) (a b : List LinkContent) → Spells bytes a → Spells bytes b → a ≡ b }
{}

/// A printing is never longer than what was read.
pub fn printings_are_shortest()
    ensures { (bytes : List ℕ) (links : List LinkContent) → Spells bytes links
        → length (printing links) ≤ length bytes }
{}
