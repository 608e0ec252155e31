//! Reading a list that the grammar allows.

ghost use Rattle.std.specs.Prelude.{◌≡◌, ◌≢◌, ◌≤◌, ◌↔◌, true, List, ◌∷◌, length, IfOk, IfErr, MatchResult, Err, chars};
ghost use Rattle.lw_link.specs.declared.fault.LinkFault.{LinkFault};
ghost use Rattle.lw_link.specs.declared.style.Style.TheVariants.{Any};
ghost use Rattle.lw_link.specs.declared.state.State.TheVariants.{Start, Closed, Comma, Semicolon, Name, Quotation};
ghost use Rattle.lw_link.specs.Link.{LinkContent};
ghost use Rattle.lw_link.specs.inner.Machine.{read_on, more_text};
ghost use Rattle.lw_link.specs.inner.Taking.{HoldsText, IsLeft, IsPastSpaces, TakesText, TakesQuoted, TakesValue, TakesAttr, TakesAttrs, TakesLink};
ghost use Rattle.lw_link.specs.Spelling.{Spells};
ghost use Rattle.lw_link.specs.Faults.{IsFault};
ghost use Rattle.lw_link.specs.inner.Faults.{IsRefused};

use crate::fault::LinkFault;
use crate::link::{Attr, AttrValue, Link};
use crate::scan::check;
use crate::scanner::Scanner;
use crate::state::State;
use crate::style::Style;
use lw_stamp::{NoMemory, Text};
use std::alloc::Global;

fn spaces(scanner: &mut Scanner)
    ensures comma { read_on Any Comma scanner.old ≡ read_on Any Comma scanner.new }
    ensures semicolon { read_on Any Semicolon scanner.old ≡ read_on Any Semicolon scanner.new }
    ensures past { IsPastSpaces scanner.new }
    ensures shorter { length scanner.new ≤ length scanner.old }
{
    while let Some(' ') = scanner.peek() {
        let _ = scanner.take();
    }
}

/// The characters that leave the state as it is.
fn run_of(alloc: Global, scanner: &mut Scanner, state: State) -> Result<Text, NoMemory>
    requires { HoldsText state }
    ensures taken { IfOk result (λ text. TakesText state text scanner.old scanner.new) }
    ensures shorter { length scanner.new ≤ length scanner.old }
{
    let mut text = String::new(alloc);
    while let Some(c) = scanner.peek() {
        if state.next(Style::Any, c) != state {
            break;
        }
        text.push(c)?;
        let _ = scanner.take();
    }
    Ok(Text::from(text))
}

/// The character that an item of a quoted value stands for. The item's first character is taken already.
fn item(scanner: &mut Scanner, first: char) -> char
    requires whole { (read_on Any Quotation (first ∷ scanner.old)).whole ≡ true }
    requires first { first ≢ 34 }
    ensures taken { read_on Any Quotation (first ∷ scanner.old) ≡ more_text result (read_on Any Quotation scanner.new) }
    ensures shorter { length scanner.new ≤ length scanner.old }
{
    if first != '\\' {
        return first;
    }
    let Some(c) = scanner.take() else {
        return first;
    };
    c
}

/// A quoted value behind its first `"`.
fn quoted(alloc: Global, scanner: &mut Scanner) -> Result<Text, NoMemory>
    requires { (read_on Any Quotation scanner.old).whole ≡ true }
    ensures taken { IfOk result (λ text. TakesQuoted text scanner.old scanner.new) }
    ensures shorter { length scanner.new ≤ length scanner.old }
{
    let mut text = String::new(alloc);
    while let Some(c) = scanner.take() {
        if c == '"' {
            break;
        }
        text.push(item(scanner, c))?;
    }
    Ok(Text::from(text))
}

/// What stands behind a name.
fn value(alloc: Global, scanner: &mut Scanner) -> Result<AttrValue, NoMemory>
    requires whole { (read_on Any Name scanner.old).whole ≡ true }
    requires left { IsLeft Name scanner.old }
    ensures taken { IfOk result (λ value. TakesValue value scanner.old scanner.new) }
    ensures shorter { length scanner.new ≤ length scanner.old }
{
    if !scanner.take_if('=') {
        return Ok(AttrValue::Absent);
    }
    if scanner.take_if('"') {
        return Ok(AttrValue::Quoted(quoted(alloc, scanner)?));
    }
    Ok(AttrValue::Plain(run_of(alloc, scanner, State::Word)?))
}

/// An attribute behind its `;`.
fn attr(alloc: Global, scanner: &mut Scanner) -> Result<Attr, NoMemory>
    requires { (read_on Any Semicolon scanner.old).whole ≡ true }
    ensures taken { IfOk result (λ attr. TakesAttr attr scanner.old scanner.new) }
    ensures shorter { length scanner.new ≤ length scanner.old }
{
    spaces(scanner);
    let name = run_of(alloc, scanner, State::Name)?;
    let value = value(alloc, scanner)?;
    Ok(Attr { name, value })
}

/// The attributes behind a target.
fn attrs(alloc: Global, scanner: &mut Scanner) -> Result<Vec<Attr>, NoMemory>
    requires { (read_on Any Closed scanner.old).whole ≡ true }
    ensures taken { IfOk result (λ attrs. TakesAttrs attrs.items scanner.old scanner.new) }
    ensures shorter { length scanner.new ≤ length scanner.old }
{
    let mut attrs = Vec::new(alloc);
    while scanner.take_if(';') {
        attrs.push(attr(alloc, scanner)?)?;
    }
    Ok(attrs)
}

/// A link behind its `,`.
fn link(alloc: Global, scanner: &mut Scanner) -> Result<Link, NoMemory>
    requires { (read_on Any Comma scanner.old).whole ≡ true }
    ensures taken { IfOk result (λ link. TakesLink link scanner.old scanner.new) }
    ensures shorter { length scanner.new ≤ length scanner.old }
{
    spaces(scanner);
    // The `<`.
    let _ = scanner.take();
    let target = run_of(alloc, scanner, State::Target)?;
    // The `>`.
    let _ = scanner.take();
    let attrs = attrs(alloc, scanner)?;
    Ok(Link { target, attrs })
}

/// The links of a whole list.
fn links(alloc: Global, text: &str) -> Result<Vec<Link>, NoMemory>
    requires { (read_on Any Start (chars text.now)).whole ≡ true }
    ensures { IfOk result (λ links. links.items ≡ (read_on Any Start (chars text.now)).links) }
{
    let mut scanner = Scanner::new(text);
    let mut links = Vec::new(alloc);
    links.push(link(alloc, &mut scanner)?)?;
    while let Some(_) = scanner.take() {
        links.push(link(alloc, &mut scanner)?)?;
    }
    Ok(links)
}

/// The links, once the walk has found no fault.
fn read_checked(alloc: Global, bytes: &[u8]) -> Result<Vec<Link>, LinkFault>
    ensures found { IfOk result (λ links. Spells bytes.now links.items × (length links.items ≤ 256)) }
    ensures refused { IfErr result (IsRefused bytes.now) }
{
    let text = check(bytes)?;
    Ok(links(alloc, text)?)
}

/// The links that the bytes spell, 1 to 256. Each fault but `NoMemory` is found before any memory is taken.
pub fn read(alloc: Global, bytes: &[u8]) -> Result<Vec<Link>, LinkFault>
    // What is read is spelled so.
    ensures found { IfOk result (λ links. Spells bytes.now links.items × (length links.items ≤ 256)) }
    // What is spelled so is read, unless a growth is refused.
    ensures only { (links : List LinkContent) → Spells bytes.now links → length links ≤ 256
        → MatchResult result (λ read. read.items ≡ links) (λ fault. fault ≡ LinkFault.NoMemory) }
    // Each other fault is answered exactly where it is that of the bytes.
    ensures faults { (fault : LinkFault) → fault ≢ LinkFault.NoMemory
        → ((result ≡ Err fault) ↔ IsFault bytes.now fault) }
    // Want of memory comes only in place of links.
    ensures memory { result ≡ Err LinkFault.NoMemory → (links : List LinkContent) × Spells bytes.now links
        × (length links ≤ 256) }
{
    read_checked(alloc, bytes)
}
