//! The attributes of a registration (LwM2M 1.1 Core, section 6.2.1).

ghost use Rattle.std.specs.Prelude.{◌≡◌, ◌↔◌, ℕ, List, [], ◌==◌, length, IsTrue, IsSome, IfSome, IfOk, slice_get, option_map, bytes_eq};
ghost use Rattle.std.specs.List.{list_any, AllByRecursion};
ghost use Rattle.lw_stamp.specs.TextOrder.{text_cmp};
ghost use Rattle.lw_join.specs.Entries.{Rises};
ghost use Rattle.lw_join.specs.declared.last.Last.{Last as Lasts};
ghost use Rattle.lw_reg.specs.Attribute.{parameter_names, is_attribute_name, IsAttribute, AreAttributes, values_of};

use crate::Text;
use lw_join::{Last, Parts};
use lw_stamp::NoMemory;
use std::alloc::Global;
use std::marker::Model;

/// The most bytes of a name: those of a Uri-Query.
const MAX_NAME_LENGTH: usize = 255;

/// The most bytes of a name and a value together, which stand on the two sides of `=` in a Uri-Query.
const MAX_PAIR_LENGTH: usize = 254;

/// Whether a query of that name gives an attribute: it has a name, and no parameter has that one.
pub fn is_attribute_name(name: &str) -> bool
    ensures { result ≡ is_attribute_name name.now }
{
    !name.is_empty() && !has_equals_sign(name) && !is_parameter_name(name)
}

fn has_equals_sign(name: &str) -> bool
    ensures { result ≡ list_any (λ c. c == 61) name.now }
{
    name.as_bytes().iter().any(|byte| *byte == b'=')
}

fn is_parameter_name(name: &str) -> bool
    ensures { result ≡ list_any (bytes_eq name.now) parameter_names }
{
    matches!(name, "ep" | "lt" | "lwm2m" | "b" | "Q" | "sms")
}

fn is_attribute(name: &str, value: &str) -> bool
    ensures { IsTrue result ↔ IsAttribute name.now value.now }
{
    is_attribute_name(name)
        && name.len() <= MAX_NAME_LENGTH
        && value.len() <= MAX_PAIR_LENGTH.saturating_sub(name.len())
}

fn are_attributes(pairs: &[(Text, Text)]) -> bool
    ensures { IsTrue result ↔ AllByRecursion (λ (a : List ℕ × List ℕ). IsAttribute a.0 a.1) pairs.now }
{
    for (name, value) in pairs {
        if !is_attribute(name.as_str(), value.as_str()) {
            return false;
        }
    }
    true
}

/// Attributes, each with its name and its value. Contracts see these pairs, names rising.
#[derive(Drop)]
pub struct Attributes {
    pairs: Parts<Text, Text>,
}

impl Model for Attributes {
    ghost use Rattle.std.specs.Prelude.{ℕ, List};
    ghost use Rattle.lw_join.specs.Parts.{entries_of};
    ghost use Rattle.lw_reg.specs.Attribute.{AreAttributes};

    ghost Value = { List (List ℕ × List ℕ) };

    ghost view = { λ a. entries_of a.pairs };

    ghost invariant = { λ a. AreAttributes (entries_of a.pairs) };
}

impl Attributes {
    /// No attributes.
    pub fn new(alloc: Global) -> Attributes
        ensures { result ≡ [] }
    {
        Attributes {
            pairs: Parts::new(alloc),
        }
    }

    /// The attributes of these names and values, if they are some and the names rise.
    pub fn from_pairs(pairs: Vec<(Text, Text)>) -> Option<Attributes>
        ensures accepted { IsSome result ↔ AreAttributes pairs.items }
        ensures value { IfSome result (λ attributes. attributes ≡ pairs.items) }
    {
        if !are_attributes(&pairs) {
            return None;
        }
        Some(Attributes {
            pairs: Parts::from_entries(pairs)?,
        })
    }

    /// The names and values, names rising.
    pub fn as_slice(&self) -> &[(Text, Text)]
        ensures value { result.now ≡ self.now }
        ensures attributes { AreAttributes result.now }
    {
        self.pairs.entries()
    }

    /// The names and values, names rising.
    pub fn into_pairs(self) -> Vec<(Text, Text)>
        ensures value { result.items ≡ self }
        ensures attributes { AreAttributes result.items }
    {
        self.pairs.into_entries()
    }

    /// The same pairs, lent.
    pub fn as_view(&self) -> AttributesView<'_>
        ensures { result ≡ self.now }
    {
        AttributesView {
            lent: Lent::Listed(self.as_slice()),
        }
    }

    /// Whether both are the same attributes, with the same values.
    pub fn same(&self, other: &Attributes) -> bool
        ensures { IsTrue result ↔ (self.now ≡ other.now) }
    {
        self.as_slice() == other.as_slice()
    }
}

/// Attributes, lent. Contracts see the pairs of name and value, names rising.
#[derive(Drop)]
pub struct AttributesView<'a> {
    lent: Lent<'a>,
}

#[derive(Drop)]
enum Lent<'a> {
    Written(&'a [(Text, Last<Text>)]),
    Listed(&'a [(Text, Text)]),
}

impl<'a> Model for AttributesView<'a> {
    ghost use Rattle.std.specs.Prelude.{ℕ, List};
    ghost use Rattle.lw_reg.specs.Attribute.{AreAttributes};
    ghost use Rattle.lw_reg.specs.Lent.{pairs_in};

    ghost Value = { List (List ℕ × List ℕ) };

    ghost view = { λ v. pairs_in v.lent };

    ghost invariant = { λ v. AreAttributes (pairs_in v.lent) };
}

impl<'a> AttributesView<'a> {
    /// The attributes that are written.
    pub fn of_writes(writes: &'a [(Text, Last<Text>)]) -> AttributesView<'a>
        requires rise { Rises text_cmp writes.now }
        requires each { AllByRecursion (λ (w : List ℕ × Lasts (List ℕ)). IsAttribute w.0 w.1.write.1) writes.now }
        ensures { result ≡ values_of writes.now }
    {
        AttributesView {
            lent: Lent::Written(writes),
        }
    }

    /// How many pairs there are.
    pub fn len(&self) -> usize
        ensures value { result ≡ length self.now }
        ensures attributes { AreAttributes self.now }
    {
        match self.lent {
            Lent::Written(writes) => writes.len(),
            Lent::Listed(pairs) => pairs.len(),
        }
    }

    /// The name and the value at the place.
    pub fn get(&self, place: usize) -> Option<(&'a str, &'a str)>
        ensures { option_map (λ pair. (pair.0.now, pair.1.now)) result ≡ slice_get self.now place }
    {
        match self.lent {
            Lent::Written(writes) => {
                let (name, last) = writes.get(place)?;
                Some((name.as_str(), last.write.1.as_str()))
            }
            Lent::Listed(pairs) => {
                let (name, value) = pairs.get(place)?;
                Some((name.as_str(), value.as_str()))
            }
        }
    }

    /// A copy that owns its texts.
    pub fn to_attributes(&self, alloc: Global) -> Result<Attributes, NoMemory>
        ensures { IfOk result (λ attributes. attributes ≡ self.now) }
    {
        match Attributes::from_pairs(self.copied_pairs(alloc)?) {
            Some(attributes) => Ok(attributes),
            None => unreachable!(),
        }
    }

    fn copied_pairs(&self, alloc: Global) -> Result<Vec<(Text, Text)>, NoMemory>
        ensures value { IfOk result (λ pairs. pairs.items ≡ self.now) }
        ensures attributes { AreAttributes self.now }
    {
        let mut pairs = Vec::with_capacity(alloc, self.len())?;
        while let Some((name, value)) = self.get(pairs.len()) {
            pairs.push((Text::copy_of(alloc, name)?, Text::copy_of(alloc, value)?))?;
        }
        Ok(pairs)
    }
}
