//! What is shown, page by page. Of the five endpoints `a` has expired after a minute, `d` was removed, and `e` is known
//! but not shown.

use super::since::FIVE;
use super::*;
use crate::hold::text_of;

/// Whether a page has these endpoints, each with a space behind it, and then its next, or a dot where there is none.
pub(super) fn is_page(
    rt: &impl Abort,
    alloc: Global,
    table: &Table,
    now: u64,
    after: Option<&str>,
    (limit, names): (usize, usize),
    wanted: &str,
) -> bool {
    let mut text = String::new(alloc);
    let page = table
        .shown_after(at(now), after, limit, names)
        .expect(rt, "memory");
    for view in page.registrations.iter() {
        write!(text, "{} ", view.endpoint).expect(rt, "memory");
    }
    text.push_str(page.next.unwrap_or(".")).expect(rt, "memory");
    text.as_str() == wanted
}

static SCENES: [Scene; 6] = [
    (
        "pages go on from each other",
        &FIVE,
        &[
            Pages(0, None, (2, 64), "a b b"),
            Pages(0, Some("b"), (2, 64), "c ."),
        ],
    ),
    (
        "a page has all, or as many as it may",
        &FIVE,
        &[
            Pages(0, None, (3, 64), "a b c c"),
            Pages(0, None, (0, 64), "a a"),
        ],
    ),
    (
        "a page may be empty",
        &FIVE,
        &[
            Pages(0, Some("c"), (3, 64), "."),
            Pages(60_000, None, (64, 1), "a"),
            Pages(60_000, Some("a"), (64, 1), "b b"),
        ],
    ),
    (
        "an empty text is no endpoint",
        &FIVE,
        &[Pages(0, Some(""), (64, 64), "a b c .")],
    ),
    ("no registrations", &[], &[Registrations(0)]),
    (
        "all registrations but the removed one",
        &FIVE,
        &[Registrations(4)],
    ),
];

/// Tries: Table::shown_after, Table::registrations
#[test]
fn pages_have_what_is_shown(rt: HostRuntime) {
    play_all(&rt, rt.alloc(), &SCENES);
}

/// Tries: Table::shown_after
#[test]
fn a_page_goes_on_from_a_text_that_is_no_endpoint(rt: HostRuntime) {
    let table = played(&rt, rt.alloc(), "five", &FIVE);
    let long = text_of(rt.alloc(), &[("b", 300)]).expect(&rt, "memory");
    assert!(rt;
        is_page(
            &rt,
            rt.alloc(),
            &table,
            0,
            Some(long.as_str()),
            (64, 64),
            "c ."
        )
    );
}
