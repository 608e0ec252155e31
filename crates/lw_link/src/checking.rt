//! Whether the grammar allows a list of links.

ghost use Rattle.std.specs.Prelude.{◌↔◌, chars, IsTrue};
ghost use Rattle.std.specs.List.{AllByRecursion};
ghost use Rattle.lw_link.specs.Characters.{Each, is_target_char, is_name_char, is_plain_char, is_shown};
ghost use Rattle.lw_link.specs.WellFormed.{IsGoodValue, IsGoodAttr, IsGoodLink, AreWellFormed};

use crate::characters;
use crate::limits::MAX_LINKS;
use crate::link::{Attr, AttrValue, Link};
use crate::scanner::Scanner;

fn is_target(text: &str) -> bool
    ensures { IsTrue result ↔ Each is_target_char (chars text.now) }
{
    let mut scanner = Scanner::new(text);
    while let Some(c) = scanner.take() {
        if !characters::is_target_char(c) {
            return false;
        }
    }
    true
}

fn is_name(text: &str) -> bool
    ensures { IsTrue result ↔ Each is_name_char (chars text.now) }
{
    let mut scanner = Scanner::new(text);
    while let Some(c) = scanner.take() {
        if !characters::is_name_char(c) {
            return false;
        }
    }
    true
}

fn is_plain(text: &str) -> bool
    ensures { IsTrue result ↔ Each is_plain_char (chars text.now) }
{
    let mut scanner = Scanner::new(text);
    while let Some(c) = scanner.take() {
        if !characters::is_plain_char(c) {
            return false;
        }
    }
    true
}

fn is_shown_text(text: &str) -> bool
    ensures { IsTrue result ↔ Each is_shown (chars text.now) }
{
    let mut scanner = Scanner::new(text);
    while let Some(c) = scanner.take() {
        if !characters::is_shown(c) {
            return false;
        }
    }
    true
}

fn is_good_value(value: &AttrValue) -> bool
    ensures { IsTrue result ↔ IsGoodValue value.now }
{
    match value {
        AttrValue::Absent => true,
        AttrValue::Plain(text) => {
            let text = text.as_str();
            !text.is_empty() && is_plain(text)
        }
        AttrValue::Quoted(text) => is_shown_text(text.as_str()),
    }
}

fn is_good_attr(attr: &Attr) -> bool
    ensures { IsTrue result ↔ IsGoodAttr attr.now }
{
    let name = attr.name.as_str();
    !name.is_empty() && is_name(name) && is_good_value(&attr.value)
}

fn are_good_attrs(attrs: &[Attr]) -> bool
    ensures { IsTrue result ↔ AllByRecursion IsGoodAttr attrs.now }
{
    for attr in attrs {
        if !is_good_attr(attr) {
            return false;
        }
    }
    true
}

fn is_good_link(link: &Link) -> bool
    ensures { IsTrue result ↔ IsGoodLink link.now }
{
    is_target(link.target.as_str()) && are_good_attrs(&link.attrs)
}

fn are_good_links(links: &[Link]) -> bool
    ensures { IsTrue result ↔ AllByRecursion IsGoodLink links.now }
{
    for link in links {
        if !is_good_link(link) {
            return false;
        }
    }
    true
}

/// Whether these are 1 to 256 links that the grammar allows: the condition of `print`.
pub fn well_formed(links: &[Link]) -> bool
    ensures { IsTrue result ↔ AreWellFormed links.now }
{
    !links.is_empty() && links.len() <= MAX_LINKS && are_good_links(links)
}
