mod refused;

use crate::hold::text_of;
use lw_link::{LinkFault, LinkText, is_printing, print, read, well_formed};
use std::alloc::Global;
use std::process::Abort;

/// A text, and how often it is repeated.
type Part = (&'static str, usize);

/// What is read is printed as it is wanted.
fn prints_links(rt: &impl Abort, alloc: Global, given: &str, want: &str) {
    let links = read(alloc, given.as_bytes()).expect(rt, "links");
    assert!(rt; well_formed(&links), "{given}");
    let printed = print(alloc, &links).expect(rt, "memory");
    assert!(rt; printed.as_str() == want, "{given}");
}

/// What is read is kept and copied as it is wanted.
fn keeps(rt: &impl Abort, alloc: Global, given: &str, want: &str) {
    let bytes = given.as_bytes();
    assert!(rt; bytes.len() <= 8_192, "{given}");
    let text = LinkText::read(alloc, bytes).expect(rt, "links");
    let copy = text.copy_of(alloc).expect(rt, "memory");
    assert!(rt;
        text.as_str() == want && copy.as_str() == want,
        "kept: {given}"
    );
}

/// What is read is printed, and kept and copied, as it is wanted.
fn prints(rt: &impl Abort, alloc: Global, given: &str, want: &str) {
    assert!(rt; is_printing(given.as_bytes()) == (given == want), "{given}");
    prints_links(rt, alloc, given, want);
    keeps(rt, alloc, given, want);
}

/// A spelling, and its printing.
static SPELLINGS: [(&str, &str); 11] = [
    (
        r#"</>;rt="oma.lwm2m,x";ct=110, </3/0>"#,
        r#"</>;rt="oma.lwm2m,x";ct=110,</3/0>"#,
    ),
    (r#"</3/0>;x="a\"b\c""#, r#"</3/0>;x="a\"bc""#),
    ("<>", "<>"),
    ("<>,  <>", "<>,<>"),
    ("<>;  a", "<>;a"),
    ("<>;a==", "<>;a=="),
    ("<>;a=<,<>", "<>;a=<,<>"),
    ("<>;a=\"\"", "<>;a=\"\""),
    ("<>;a=\"\u{e9};,<>\"", "<>;a=\"\u{e9};,<>\""),
    ("<>;a=\"\\\u{e9}\\\\\"", "<>;a=\"\u{e9}\\\\\""),
    ("</3/0>;A-z.0_*=1;b", "</3/0>;A-z.0_*=1;b"),
];

/// Texts that are no links, and where that shows.
static NEAR_MISSES: [(&str, usize); 41] = [
    ("", 0),
    ("<", 1),
    (">", 0),
    ("a", 0),
    (" <>", 0),
    ("<> ", 2),
    ("<>a", 2),
    ("<>>", 2),
    ("<<>", 1),
    ("<a b>", 2),
    ("<a\tb>", 2),
    ("</\u{e9}>", 2),
    ("</3/0>,", 7),
    ("</3/0>, ", 8),
    ("<>,<", 4),
    ("<>,,", 3),
    ("<> ,<>", 2),
    ("<>,\t<>", 3),
    ("</3/0>;", 7),
    ("</3/0>;=1", 7),
    ("<>;;", 3),
    ("<>;\ta", 3),
    ("<>;\u{e9}", 3),
    ("<>;a =1", 4),
    ("<>;a= 1", 5),
    ("</3/0>;a=", 9),
    ("<>;a=,", 5),
    ("<>;a=;", 5),
    ("<>;a=\u{e9}", 5),
    ("<>;a=1 ", 6),
    ("<>;a=1\"", 6),
    ("<>;a=1\\", 6),
    ("<>;a=1,2", 7),
    ("</3/0>;a=\"", 10),
    ("</3/0>;a=\"\\", 11),
    ("</3/0>;a=\"\u{1}", 10),
    ("</3/0>;a=\"x\u{7f}", 11),
    ("</3/0>;a=\"\\\u{1}", 11),
    ("</3/0>;a=\"\u{e9}", 12),
    ("<>;a=\"x\" ", 8),
    ("<>;a=\"x\"y", 8),
];

fn is_missed(alloc: Global, text: &str, place: usize) -> bool {
    let fault = read(alloc, text.as_bytes()).err();
    fault == Some(LinkFault::Grammar { place }) && !is_printing(text.as_bytes())
}

/// Whether half a character and a byte of none are refused.
fn are_no_text(alloc: Global) -> bool {
    let half = read(alloc, b"<>;a=\"\xc3").err();
    let none = LinkText::read(alloc, b"<\xff>").err();
    half == Some(LinkFault::NotText) && none == Some(LinkFault::NotText) && !is_printing(b"<\xff>")
}

/// Tries: read
#[test]
fn near_misses(rt: HostRuntime) {
    for (text, place) in &NEAR_MISSES {
        assert!(rt; is_missed(rt.alloc(), text, *place), "{text:?}");
    }
    assert!(rt; are_no_text(rt.alloc()), "half a character, and none");
}

/// Whether so many links are read of it, or the fault is found.
fn counts_to(alloc: Global, given: &str, wanted: &Result<usize, LinkFault>) -> bool {
    let is_counted = match read(alloc, given.as_bytes()) {
        Ok(links) => *wanted == Ok(links.len()),
        Err(fault) => *wanted == Err(fault),
    };
    is_counted && is_printing(given.as_bytes()) == wanted.is_ok()
}

/// How many links follow a first one, and what is counted then.
static COUNTS: [(usize, Result<usize, LinkFault>); 2] = [
    (255, Ok(256)),
    (256, Err(LinkFault::TooMany)),
];

/// Tries: read
#[test]
fn at_most_256_links(rt: HostRuntime) {
    for row in &COUNTS {
        let list = text_of(rt.alloc(), &[("<>", 1), (",<>", row.0)]).expect(&rt, "memory");
        assert!(rt; counts_to(rt.alloc(), list.as_str(), &row.1), "{row:?}");
    }
}

/// The parts of printings, and their lengths.
static PRINTINGS: [(&[Part], usize); 9] = [
    // attributes of a link
    (&[("</1>", 1), (";a=1", 1), ("", 0)], 8),
    (&[("</1>", 1), (";a=1", 2), ("", 0)], 12),
    (&[("</1>", 1), (";a=1", 3), ("", 0)], 16),
    (&[("</1>", 1), (";a=1", 2047), ("", 0)], 8192),
    // links with attributes
    (
        &[
            ("</1>;a;b=2;c=\"3\"", 1),
            (",</1>;a;b=2;c=\"3\"", 1),
            ("", 0),
        ],
        33,
    ),
    (
        &[
            ("</1>;a;b=2;c=\"3\"", 1),
            (",</1>;a;b=2;c=\"3\"", 2),
            ("", 0),
        ],
        50,
    ),
    (
        &[
            ("</1>;a;b=2;c=\"3\"", 1),
            (",</1>;a;b=2;c=\"3\"", 255),
            ("", 0),
        ],
        4351,
    ),
    // a value full of escapes
    (&[("<>;ab=\"", 1), ("\\\"", 4092), ("\"", 1)], 8192),
    (&[("<>;ab=\"", 1), ("\\\\", 4092), ("\"", 1)], 8192),
];

/// Prints a printing of this length, which is kept as it is.
fn prints_printing(rt: &impl Abort, alloc: Global, given: &str, length: usize) {
    let bytes = given.as_bytes();
    assert!(rt;
        bytes.len() == length && bytes.len() <= 8_192 && is_printing(bytes),
        "{given}"
    );
    let text = LinkText::of_printing(alloc, bytes).expect(rt, "memory");
    assert!(rt; text.as_str() == given, "{given}");
    prints(rt, alloc, given, given);
}

/// Tries: read, print, is_printing, LinkText::of_printing, LinkText::read, LinkText::copy_of
#[test]
fn printings_at_their_bounds(rt: HostRuntime) {
    for (parts, length) in &PRINTINGS {
        let given = text_of(rt.alloc(), parts).expect(&rt, "memory");
        prints_printing(&rt, rt.alloc(), given.as_str(), *length);
    }
}

/// The parts of a spelling, and of its printing.
static LONG_SPELLINGS: [(&[Part], &[Part]); 3] = [
    // spaces before attributes, and before links
    (
        &[("</1>", 1), (";  a=1", 1300), ("", 0)],
        &[("</1>", 1), (";a=1", 1300), ("", 0)],
    ),
    (
        &[
            ("</1>;a;b=2;c=\"3\"", 1),
            (",    </1>; a; b=2;c=\"3\"", 255),
            ("", 0),
        ],
        &[
            ("</1>;a;b=2;c=\"3\"", 1),
            (",</1>;a;b=2;c=\"3\"", 255),
            ("", 0),
        ],
    ),
    // needless escapes
    (
        &[("<>;ab=\"", 1), ("\\x", 4092), ("\"", 1)],
        &[("<>;ab=\"", 1), ("x", 4092), ("\"", 1)],
    ),
];

/// Tries: read, print, well_formed, is_printing, LinkText::read, LinkText::as_str
#[test]
fn spellings_are_printed(rt: HostRuntime) {
    for (given, printed) in &SPELLINGS {
        prints(&rt, rt.alloc(), given, printed);
    }
    for (spelling, printing) in &LONG_SPELLINGS {
        let given = text_of(rt.alloc(), spelling).expect(&rt, "memory");
        let want = text_of(rt.alloc(), printing).expect(&rt, "memory");
        prints(&rt, rt.alloc(), given.as_str(), want.as_str());
    }
}
