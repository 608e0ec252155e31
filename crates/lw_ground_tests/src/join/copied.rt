//! Copies of values of each kind, up to slots.

use super::{DOWN, Entries, UP, map_of};
use crate::change::Act::*;
use crate::change::Mark::*;
use crate::change::*;
use crate::reg::whole::{whole, without_fields};
use lw_join::*;
use lw_reg::{Addr, Base, Binding, Path, Slot, SmsNumber, Version};
use lw_stamp::{Stamp, Text};
use std::alloc::Global;
use std::process::Abort;
use std::test::Fail;

/// A copy compares as no less than its original and as no greater.
fn copy_equal<V: Exact + Copied>(rt: &impl Abort, alloc: Global, value: &V) {
    let copy = value.copy(alloc).expect(rt, "memory");
    assert!(rt; copy.cmp(value).is_le() && value.cmp(&copy).is_le());
}

/// A copy is below its original and above it.
fn copy_alike<J: Join + Copied>(rt: &impl Abort, alloc: Global, value: &J) {
    let copy = value.copy(alloc).expect(rt, "memory");
    assert!(rt; copy.le(value) && value.le(&copy));
}

const FIRST: Stamp = Stamp {
    counter: 1,
    node: 1,
};

const LAST: Stamp = Stamp {
    counter: 281_474_976_710_655,
    node: 65_535,
};

/// Numbers, and options.
type Plain = (
    (bool, (u16, u32)),
    (Option<u16>, (Option<Option<u16>>, Option<u32>)),
);

static PLAIN: [Plain; 2] = [
    ((false, (0, 0)), (None, (Some(None), Some(7)))),
    (
        (true, (u16::MAX, u32::MAX)),
        (None, (Some(Some(u16::MAX)), Some(7))),
    ),
];

/// How many bytes a text has that is copied.
const LENGTHS: [usize; 6] = [0, 1, 2, 252, 8_192, 100_000];

fn text_of(rt: &impl Abort, alloc: Global, length: usize) -> Text {
    Text::from("t".repeat(alloc, length).expect(rt, "memory"))
}

/// The text in a pair and in an option, beside one that is none.
fn copy_text(rt: &impl Abort, alloc: Global, length: usize) {
    let pair = (text_of(rt, alloc, length), false);
    let some = Some(text_of(rt, alloc, length));
    let none: Option<Text> = None;
    copy_equal(rt, alloc, &(pair, (some, none)));
}

/// Values and a stamp.
fn copy_values(rt: &impl Abort, alloc: Global) {
    for value in &PLAIN {
        copy_equal(rt, alloc, &(LAST, *value));
    }
    copy_equal(rt, alloc, &FIRST);
}

/// Texts and moments.
fn copy_texts(rt: &impl Abort, alloc: Global) {
    for length in &LENGTHS {
        copy_text(rt, alloc, *length);
    }
    for ms in [0, 281_474_976_710_655] {
        copy_equal(rt, alloc, &at(ms));
    }
}

/// A flag, and values.
type Values = (Flag, (Once<u32>, Once<Option<u16>>));

static VALUES: [Values; 2] = [
    (DOWN, (Once { value: None }, Once { value: Some(None) })),
    (UP, (Once { value: Some(7) }, Once { value: Some(None) })),
];

/// A flag, or one that is gone.
fn or_gone(flag: Option<Flag>) -> OrGone<Flag> {
    match flag {
        None => OrGone::Gone,
        Some(flag) => OrGone::Here(flag),
    }
}

/// Joins that keep no map.
fn copy_joins(rt: &impl Abort, alloc: Global) {
    for value in &VALUES {
        copy_alike(rt, alloc, value);
    }
    for flag in [None, Some(DOWN), Some(UP)] {
        let value = or_gone(flag);
        copy_alike(rt, alloc, &(or_gone(flag), Lex { stamp: LAST, value }));
    }
    for write in [None, Some((LAST, 7u16))] {
        let last = Last {
            write: (LAST, 7u16),
        };
        copy_alike(rt, alloc, &(Lww { write }, last));
    }
    for (stamp, text) in [(FIRST, ""), (LAST, "value")] {
        let text = Text::copy_of(alloc, text).expect(rt, "memory");
        copy_alike(
            rt,
            alloc,
            &Last {
                write: (stamp, text),
            },
        );
    }
}

static MAPS: [Entries; 4] = [
    &[],
    &[(0, DOWN)],
    &[(3, DOWN), (5, UP), (65_535, DOWN)],
    &[
        (10, UP),
        (11, DOWN),
        (12, UP),
        (13, DOWN),
        (14, UP),
        (15, DOWN),
        (16, UP),
        (17, DOWN),
        (18, UP),
    ],
];

fn map(rt: &impl Abort, alloc: Global, rows: Entries) -> Parts<u16, Flag> {
    map_of(alloc, rows)
        .expect(rt, "memory")
        .expect(rt, "rising keys")
}

/// Two maps at once.
fn copy_both(rt: &impl Abort, alloc: Global, left: Entries, right: Entries) {
    let both = Both {
        left: map(rt, alloc, left),
        right: map(rt, alloc, right),
    };
    let copy = both.copy(alloc).expect(rt, "memory");
    assert!(rt; copy.left.entries() == left, "{left:?}, {right:?}");
    assert!(rt; copy.right.entries() == right, "{left:?}, {right:?}");
    copy_alike(rt, alloc, &both);
}

/// A map of many texts to stamped texts.
fn texts_by_name(rt: &impl Abort, alloc: Global, count: u16) -> Parts<Text, Last<Text>> {
    let mut entries = Vec::new(alloc);
    for number in 0..count {
        let name = Text::from(format!(in alloc; "{number:05}").expect(rt, "memory"));
        let write = (LAST, text_of(rt, alloc, usize::from(number % 300)));
        entries.push((name, Last { write })).expect(rt, "memory");
    }
    Parts::from_entries(entries).expect(rt, "rising keys")
}

fn copy_many(rt: &impl Abort, alloc: Global, count: u16) {
    let map = texts_by_name(rt, alloc, count);
    let copy = map.copy(alloc).expect(rt, "memory");
    assert!(rt; copy.len() == usize::from(count), "{count}");
    copy_alike(rt, alloc, &map);
}

fn copy_maps(rt: &impl Abort, alloc: Global) {
    for left in &MAPS {
        for right in &MAPS {
            copy_both(rt, alloc, *left, *right);
        }
    }
    for count in [0, 1, 2, 2000] {
        copy_many(rt, alloc, count);
    }
}

const FAR: Addr = Addr::V6 {
    address: [255; 16],
    port: 65_535,
};

/// What a registration has besides: a base and an address; a path, the letters of a binding and how long a number is.
type Fields = ((Base, Addr), (&'static [u16], &'static str, usize));

const FIRST_BASE: Base = Base {
    version: Version::V10,
    queue: false,
};

const SECOND_BASE: Base = Base {
    version: Version::V11,
    queue: true,
};

static FIELDS: [Fields; 2] = [
    ((FIRST_BASE, HOST_A), (&[0], "U", 0)),
    ((SECOND_BASE, FAR), (&[65_534; 4], "ABCDEFGH", 251)),
];

fn copy_fields(rt: &impl Abort, alloc: Global, fields: &Fields) {
    let (registered, (numbers, letters, length)) = *fields;
    let path = Path::new(numbers).expect(rt, "a path");
    let binding = Binding::read(letters).expect(rt, "a binding");
    let sms = SmsNumber::new(text_of(rt, alloc, length)).expect(rt, "a number");
    copy_equal(rt, alloc, &(registered, (path, (binding, sms))));
}

/// The operations of a slot that is copied.
static SLOTS: [&[Change<'static>]; 9] = [
    &[(First, First, Register(HOST_A, 0, 60))],
    // an Update alone
    &[(Second, First, Update(FAR, 7, Some(120), Some("UQ")))],
    // an observation alone
    &[(Second, First, Observe(&[3, 0, 9, 1], None))],
    &[
        (First, First, Register(HOST_A, 0, 60)),
        (Second, First, Observe(&[3, 0], None)),
        (Fourth, First, Observe(&[3, 0, 9], Some(112))),
        (Fifth, First, Update(HOST_B, 9, None, Some("ABCDEFGH"))),
    ],
    // one that is cancelled
    &[
        (First, First, Register(HOST_A, 0, 60)),
        (Second, First, Observe(&[3, 0], Some(0))),
        (Fourth, First, Cancel(&[3, 0], Second)),
    ],
    // one that has ended, with an observation
    &[
        (First, First, Register(HOST_A, 0, 60)),
        (Second, First, Observe(&[3, 0], None)),
        (Fourth, First, Expire(First)),
    ],
    // an end alone
    &[(Fourth, First, Expire(Third))],
    // removed
    &[
        (First, First, Register(HOST_A, 0, 60)),
        (Fourth, First, Remove),
    ],
    &[(Fourth, First, Remove)],
];

/// Takes the change in.
fn change(rt: &impl Abort, alloc: Global, slot: &mut Slot, change: Change<'_>) -> Result<(), Fail> {
    let other = slot_of(alloc, change)?;
    slot.join_with(other).expect(rt, "memory");
    Ok(())
}

fn slot_after(rt: &impl Abort, alloc: Global, changes: &[Change<'_>]) -> Result<Slot, Fail> {
    let [first, others @ ..] = changes else {
        return Err("an operation".into());
    };
    let mut slot = slot_of(alloc, *first)?;
    for next in others {
        change(rt, alloc, &mut slot, *next)?;
    }
    Ok(slot)
}

/// Whether the readers tell the same of both.
fn are_told_alike(copy: &Slot, slot: &Slot) -> bool {
    copy.stamp() == slot.stamp()
        && copy.is_removed() == slot.is_removed()
        && copy.ended() == slot.ended()
        && copy.address() == slot.address()
        && copy.deadline() == slot.deadline()
        && copy.watches().len() == slot.watches().len()
        && copy.attributes().len() == slot.attributes().len()
}

fn copy_slot(rt: &impl Abort, alloc: Global, slot: &Slot) {
    let copy = slot.copy(alloc).expect(rt, "memory");
    assert!(rt; are_told_alike(&copy, slot));
    copy_alike(rt, alloc, slot);
}

fn copy_slots(rt: &impl Abort, alloc: Global) -> Result<(), Fail> {
    for changes in &SLOTS {
        copy_slot(rt, alloc, &slot_after(rt, alloc, changes)?);
    }
    for is_other in [false, true] {
        copy_slot(rt, alloc, &whole(alloc, is_other)?);
    }
    copy_slot(rt, alloc, &without_fields(alloc)?);
    Ok(())
}

/// Tries: Copied::copy
#[test]
fn each_kind_of_value_is_copied(rt: HostRuntime) -> Result<(), Fail> {
    copy_values(&rt, rt.alloc());
    copy_texts(&rt, rt.alloc());
    copy_joins(&rt, rt.alloc());
    copy_maps(&rt, rt.alloc());
    for fields in &FIELDS {
        copy_fields(&rt, rt.alloc(), fields);
    }
    copy_slots(&rt, rt.alloc())
}
