//! The attributes that the Uri-Queries of a request give: those whose names are no parameters'.

ghost use Rattle.std.specs.Prelude.{◌≡◌, ◌≢◌, ℕ, List, [], ◌∷◌, IsTrue, IfOk, OnOk, OnErr, IfSome, IfNone};
ghost use Rattle.lw_stamp.specs.TextOrder.{text_cmp};
ghost use Rattle.lw_join.specs.Entries.{Rises, get};
ghost use Rattle.lw_request.specs.Options.{values_of, has_unrecognised};
ghost use Rattle.lw_request.specs.Queries.{later_or, attribute_given, AreTexts, GiveAttributes};
ghost use Rattle.lw_request.specs.inner.Queries.{GivesAttribute};

use crate::queries::split_query;
use lw_coap::option_numbers::URI_QUERY;
use lw_coap::{LentOption, Options};
use lw_reg::{Attributes, Text, is_attribute_name};
use lw_stamp::NoMemory;
use std::alloc::Global;
use std::collections::BTreeMap;
use std::str;

/// The attributes that the queries give, which are UTF-8, in options that are recognised. Without any it takes no
/// memory.
pub(crate) fn attributes_of(alloc: Global, options: &Options<'_>) -> Result<Attributes, NoMemory>
    requires texts { AreTexts (values_of 15 options.now) }
    requires recognised { IsTrue (has_unrecognised options.now) → ⊥ }
    ensures ok { IfOk result (GiveAttributes (values_of 15 options.now)) }
    ensures err { OnErr result (GivesAttribute (values_of 15 options.now)) }
{
    let pairs = pairs_of(alloc, gather(alloc, options)?)?;
    match Attributes::from_pairs(pairs) {
        Some(attributes) => Ok(attributes),
        None => unreachable!(),
    }
}

/// Of each attribute the last value.
fn gather(alloc: Global, options: &Options<'_>) -> Result<BTreeMap<Text, Text>, NoMemory>
    requires { AreTexts (values_of 15 options.now) }
    ensures ok { IfOk result (λ gathered. GiveAttributes (values_of 15 options.now) gathered.entries) }
    ensures err { OnErr result (GivesAttribute (values_of 15 options.now)) }
{
    let mut gathered = BTreeMap::new(alloc);
    let mut rest = options.walk();
    while let Some(option) = rest.next() {
        if let Some(query) = query_in(&option) {
            put_query(alloc, &mut gathered, query)?;
        }
    }
    Ok(gathered)
}

/// The query that the option is, if it is one.
fn query_in<'a>(option: &LentOption<'a>) -> Option<&'a str>
    requires { AreTexts (values_of 15 (option.now ∷ [])) }
    ensures some { IfSome result (λ query. values_of 15 (option.now ∷ []) ≡ query.now ∷ []) }
    ensures none { IfNone result (values_of 15 (option.now ∷ []) ≡ []) }
{
    if option.number != URI_QUERY {
        return None;
    }
    match str::from_utf8(option.value) {
        Ok(query) => Some(query),
        Err(_) => unreachable!(),
    }
}

/// Puts what a query gives in place of what was gathered under its name.
fn put_query(
    alloc: Global,
    gathered: &mut BTreeMap<Text, Text>,
    query: &str,
) -> Result<(), NoMemory>
    requires { Rises text_cmp gathered.old.entries }
    ensures rise { OnOk result (Rises text_cmp gathered.new.entries) }
    ensures each { OnOk result ((name : List ℕ) → get text_cmp gathered.new.entries name
        ≡ later_or (attribute_given name (query.now ∷ [])) (get text_cmp gathered.old.entries name)) }
    ensures err { OnErr result (GivesAttribute (query.now ∷ [])) }
{
    let (name, value) = split_query(query);
    if !is_attribute_name(name) {
        return Ok(());
    }
    let key = Text::copy_of(alloc, name)?;
    let value = Text::copy_of(alloc, value)?;
    gathered.insert(key, value)?;
    Ok(())
}

/// The names and values, names rising.
fn pairs_of(alloc: Global, gathered: BTreeMap<Text, Text>) -> Result<Vec<(Text, Text)>, NoMemory>
    ensures ok { IfOk result (λ pairs. pairs.items ≡ gathered.entries) }
    ensures err { OnErr result (gathered.entries ≢ []) }
{
    let mut left = gathered;
    let mut pairs = Vec::with_capacity(alloc, left.len())?;
    while let Some(pair) = left.pop_first() {
        pairs.push(pair)?;
    }
    Ok(pairs)
}
