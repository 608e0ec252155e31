//! Which slots have moved since a change number.

use super::*;

/// Whether these slots have moved since: of each the endpoint, the counter of its registration, and whether that was
/// removed.
pub(super) fn tells(
    rt: &impl Abort,
    alloc: Global,
    table: &Table,
    since: u64,
    wanted: &str,
) -> bool {
    let mut text = String::new(alloc);
    for (endpoint, slot) in table.changed_since(since).expect(rt, "memory").iter() {
        let sign = if slot.is_removed() { "-" } else { "+" };
        let counter = slot.stamp().counter;
        write!(text, "{endpoint}{sign}{counter} ").expect(rt, "memory");
    }
    text.as_str() == wanted
}

/// Whether these are so many changes after a number: the number that each took, and its endpoint.
pub(super) fn changes(
    rt: &impl Abort,
    alloc: Global,
    table: &Table,
    since: u64,
    limit: usize,
    wanted: &str,
) -> bool {
    let mut text = String::new(alloc);
    let page = table.changes_after(since, limit).expect(rt, "memory");
    for moved in page.expect(rt, "changes").iter() {
        write!(text, "{}{} ", moved.number, moved.endpoint).expect(rt, "memory");
    }
    text.as_str() == wanted
}

/// `a` at host A for a minute, `b` there for ever, `c` at host B for two minutes, `d` removed, and of `e` only an
/// Update.
pub(super) const FIVE: [Step; 6] = [
    Joins(("a", (First, First, Register(HOST_A, 0, 60)))),
    Joins(("b", (Second, Second, Register(HOST_A, 0, 0)))),
    Joins(("c", (Third, Third, Register(HOST_B, 0, 120)))),
    Joins(("d", (Fourth, Fourth, Register(HOST_B, 0, 0)))),
    Joins(("d", (Fifth, Fourth, Remove))),
    Joins(("e", (Fifth, Fifth, Update(HOST_B, 0, None, None)))),
];

const OF_FIVE: [Step; 18] = [
    Counts(6),
    Tells(0, "a+1 b+2 c+3 d-4 e+5 "),
    Tells(1, "b+2 c+3 d-4 e+5 "),
    Tells(3, "d-4 e+5 "),
    Tells(4, "d-4 e+5 "),
    Tells(5, "e+5 "),
    Tells(6, ""),
    Tells(7, ""),
    Tells(u64::MAX, ""),
    Changes(0, 64, "1a 2b 3c 5d 6e "),
    Changes(0, 0, ""),
    Changes(0, 2, "1a 2b "),
    Changes(2, 2, "3c 5d "),
    Changes(3, 1_000_000, "5d 6e "),
    Changes(4, 64, "5d 6e "),
    Changes(5, 1, "6e "),
    Changes(6, 64, ""),
    Changes(u64::MAX, 64, ""),
];

/// One that moves again takes a later number, and one that does not keeps its own.
pub(super) const AGAIN: [Step; 4] = [
    Joins(("c", (Third, Third, Register(HOST_A, 0, 60)))),
    Joins(("b", (Second, Second, Register(HOST_A, 0, 60)))),
    Joins(("c", (Fourth, Third, Observe(&[3], None)))),
    Joins(("b", (First, First, Register(HOST_A, 0, 60)))),
];

const OF_AGAIN: [Step; 5] = [
    Counts(3),
    Tells(0, "b+2 c+3 "),
    Tells(1, "b+2 c+3 "),
    Tells(2, "c+3 "),
    Tells(3, ""),
];

static SCENES: [Scene; 1] = [("five endpoints", &FIVE, &OF_FIVE)];

/// Tries: Table::join, Table::changed_since, Table::changes_after, Table::change
#[test]
fn what_has_moved_since_a_number(rt: HostRuntime) {
    play_all(&rt, rt.alloc(), &SCENES);
}

/// Registers so many endpoints at host A for a minute. Their names are numbers that rise from 0, or fall from 999.
pub(super) fn join_many(
    rt: &impl Abort,
    alloc: Global,
    table: &mut Table,
    count: u16,
    is_falling: bool,
) {
    for number in 0..count {
        let name = if is_falling {
            999u16.saturating_sub(number)
        } else {
            number
        };
        let name = format!(in alloc; "{name}").expect(rt, "memory");
        let id = Above(number);
        let change = (id, id, Register(HOST_A, 0, 60));
        join(rt, alloc, table, (name.as_str(), change));
    }
}

/// Whether so many slots have moved since each of the numbers.
pub(super) fn have_moved(rt: &impl Abort, table: &Table, counts: &[(u64, usize)]) -> bool {
    for (since, count) in counts {
        let slots = table.changed_since(*since).expect(rt, "memory");
        if slots.len() != *count {
            return false;
        }
    }
    true
}

/// Whether the endpoints at host A are the numbers from 900 to 999.
pub(super) fn has_hundred(rt: &impl Abort, alloc: Global, table: &Table) -> bool {
    let endpoints = table
        .endpoints_with(Key::Address(HOST_A))
        .expect(rt, "memory");
    let mut given = endpoints.iter();
    for number in 900..1000u32 {
        let wanted = format!(in alloc; "{number}").expect(rt, "memory");
        if given.next() != Some(&wanted.as_str()) {
            return false;
        }
    }
    given.next().is_none()
}

/// What is found of a hundred endpoints, `999` to `900`, that were registered one after another.
pub(super) const HUNDRED: [Step; 3] = [
    Counts(100),
    Filed(Id(Fourth), &["996"]),
    Tells(97, "900+100 901+99 902+98 "),
];

/// Tries: Table::endpoints_with, Table::changed_since
#[test]
fn a_hundred_at_one_address_have_moved(rt: HostRuntime) {
    let mut table = Table::new(rt.alloc());
    join_many(&rt, rt.alloc(), &mut table, 100, true);
    play(&rt, rt.alloc(), &mut table, "a hundred", &HUNDRED).expect(&rt, "memory");
    assert!(rt; have_moved(&rt, &table, &[(0, 100), (40, 60)]));
    assert!(rt; has_hundred(&rt, rt.alloc(), &table));
}

static MOVED_AGAIN: [Scene; 1] = [("what has moved again", &AGAIN, &OF_AGAIN)];

/// Tries: Table::join, Table::changed_since
#[test]
fn what_has_moved_again(rt: HostRuntime) {
    play_all(&rt, rt.alloc(), &MOVED_AGAIN);
}
