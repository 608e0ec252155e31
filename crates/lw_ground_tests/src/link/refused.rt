//! What links are read as, and printed, where the first try is refused memory.

use super::*;
use crate::hold::holds;
use lw_link::Link;
use lw_stamp::NoMemory;
use std::test::Fail;

/// Attributes of each kind, a needless backslash, and spaces that are not printed.
const SPACED: &str = r#"</1/0>; rt="a\b\"";ct=110;  obs,  </3/0>"#;

const PRINTED: &str = r#"</1/0>;rt="ab\"";ct=110;obs,</3/0>"#;

/// The links that the text spells. Where that is refused, it is read again.
fn read_in_two_tries(alloc: Global, given: &str) -> Result<Vec<Link>, LinkFault> {
    match read(alloc, given.as_bytes()) {
        Err(LinkFault::NoMemory) => read(alloc, given.as_bytes()),
        links => links,
    }
}

/// Whether the links are printed so. Where that is refused, they are printed again.
fn are_printed(alloc: Global, links: &[Link], want: &str) -> Result<bool, NoMemory> {
    if !well_formed(links) {
        return Ok(false);
    }
    let text = match print(alloc, links) {
        Err(NoMemory) => print(alloc, links)?,
        Ok(text) => text,
    };
    Ok(text.as_str() == want)
}

/// Tries: read, print
#[test]
fn a_refused_read_or_print_gives_the_links_when_it_is_made_again(
    rt: HostRuntime,
) -> Result<(), Fail> {
    let links = read_in_two_tries(rt.alloc(), SPACED)?;
    holds("two links", links.len() == 2)?;
    holds("printed", are_printed(rt.alloc(), &links, PRINTED)?)
}

/// Whether the bytes are kept as this printing. Where that is refused, they are read again.
fn is_kept_in_two_tries(alloc: Global, given: &str, want: &str) -> Result<bool, LinkFault> {
    let bytes = given.as_bytes();
    if bytes.len() > 8_192 {
        return Ok(false);
    }
    let text = match LinkText::read(alloc, bytes) {
        Err(LinkFault::NoMemory) => LinkText::read(alloc, bytes)?,
        text => text?,
    };
    Ok(text.as_str() == want)
}

/// Tries: LinkText::read
#[test]
fn a_refused_link_text_is_kept_when_it_is_read_again(rt: HostRuntime) -> Result<(), Fail> {
    holds("kept", is_kept_in_two_tries(rt.alloc(), SPACED, PRINTED)?)
}
