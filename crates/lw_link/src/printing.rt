//! Printing a list of links.

ghost use Rattle.std.specs.Prelude.{◌≡◌, ◌++◌, IfOk, OnOk, chars, string_bytes};
ghost use Rattle.lw_link.specs.Printing.{escaped_all, value_text, attrs_text, link_text, more_text, printing};
ghost use Rattle.lw_link.specs.WellFormed.{AreWellFormed};

use crate::link::{Attr, AttrValue, Link};
use crate::scanner::Scanner;
use lw_stamp::NoMemory;
use std::alloc::Global;

/// A text between quotes.
fn put_escaped(out: &mut String, text: &str) -> Result<(), NoMemory>
    ensures { OnOk result (string_bytes out.new ≡ string_bytes out.old ++ escaped_all (chars text.now)) }
{
    let mut scanner = Scanner::new(text);
    while let Some(c) = scanner.take() {
        if c == '"' || c == '\\' {
            out.push('\\')?;
        }
        out.push(c)?;
    }
    Ok(())
}

/// What stands behind a name.
fn put_value(out: &mut String, value: &AttrValue) -> Result<(), NoMemory>
    ensures { OnOk result (string_bytes out.new ≡ string_bytes out.old ++ value_text value.now) }
{
    match value {
        AttrValue::Absent => Ok(()),
        AttrValue::Plain(text) => {
            out.push('=')?;
            out.push_str(text.as_str())?;
            Ok(())
        }
        AttrValue::Quoted(text) => {
            out.push_str("=\"")?;
            put_escaped(out, text.as_str())?;
            out.push('"')?;
            Ok(())
        }
    }
}

fn put_attrs(out: &mut String, attrs: &[Attr]) -> Result<(), NoMemory>
    ensures { OnOk result (string_bytes out.new ≡ string_bytes out.old ++ attrs_text attrs.now) }
{
    for attr in attrs {
        out.push(';')?;
        out.push_str(attr.name.as_str())?;
        put_value(out, &attr.value)?;
    }
    Ok(())
}

fn put_link(out: &mut String, link: &Link) -> Result<(), NoMemory>
    ensures { OnOk result (string_bytes out.new ≡ string_bytes out.old ++ link_text link.now) }
{
    out.push('<')?;
    out.push_str(link.target.as_str())?;
    out.push('>')?;
    put_attrs(out, &link.attrs)
}

/// Links, each behind `,`.
fn put_more(out: &mut String, links: &[Link]) -> Result<(), NoMemory>
    ensures { OnOk result (string_bytes out.new ≡ string_bytes out.old ++ more_text links.now) }
{
    for link in links {
        out.push(',')?;
        put_link(out, link)?;
    }
    Ok(())
}

/// The links as a text. `well_formed` tells whether they can be printed.
pub fn print(alloc: Global, links: &[Link]) -> Result<String, NoMemory>
    requires { AreWellFormed links.now }
    ensures { IfOk result (λ text. string_bytes text ≡ printing links.now) }
{
    let mut out = String::new(alloc);
    if let [first, more @ ..] = links {
        put_link(&mut out, first)?;
        put_more(&mut out, more)?;
    }
    Ok(out)
}
