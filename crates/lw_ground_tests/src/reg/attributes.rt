//! Which names and values are attributes.

use lw_reg::{Attributes, Text, is_attribute_name};
use std::alloc::Global;
use std::process::Abort;

/// Names, and whether a query of that name is an attribute.
static NAMES: [(&str, bool); 16] = [
    ("x", true),
    ("EP", true),
    ("q", true),
    ("e", true),
    ("epp", true),
    ("lt2", true),
    ("et", true),
    ("ö", true),
    ("", false),
    ("a=b", false),
    ("ep", false),
    ("lt", false),
    ("lwm2m", false),
    ("b", false),
    ("Q", false),
    ("sms", false),
];

/// A text, and how often it stands there.
type Part = (&'static str, usize);

fn text(rt: &impl Abort, alloc: Global, (part, count): Part) -> Text {
    Text::from(part.repeat(alloc, count).expect(rt, "memory"))
}

/// The attributes of these names and values, if they are some.
fn attributes(rt: &impl Abort, alloc: Global, pairs: &[(Part, Part)]) -> Option<Attributes> {
    let mut texts = Vec::new(alloc);
    for (name, value) in pairs {
        let pair = (text(rt, alloc, *name), text(rt, alloc, *value));
        texts.push(pair).expect(rt, "memory");
    }
    Attributes::from_pairs(texts)
}

/// Tries: is_attribute_name
#[test]
fn names_are_of_attributes_or_not(rt: HostRuntime) {
    for (name, is_one) in &NAMES {
        let made = attributes(&rt, rt.alloc(), &[((name, 1), ("v", 1))]);
        assert_eq!(rt; is_attribute_name(name), *is_one, "{name}");
        assert_eq!(rt; made.is_some(), *is_one, "{name}");
    }
}

/// Lengths of a name and a value, and whether both have room in a query of 255 bytes.
static LENGTHS: [(usize, usize, bool); 9] = [
    (1, 0, true),
    (1, 253, true),
    (1, 254, false),
    (253, 1, true),
    (253, 2, false),
    (254, 0, true),
    (254, 1, false),
    (255, 0, true),
    (256, 0, false),
];

/// Whether the attributes are this pair alone, of so many letters.
fn is_pair(attributes: &Attributes, name: usize, value: usize) -> bool {
    match attributes.as_slice() {
        [(x, v)] => x.as_str().len() == name && v.as_str().len() == value,
        _ => false,
    }
}

/// Tries: Attributes::from_pairs, Attributes::as_slice
#[test]
fn names_and_values_have_room_in_a_query(rt: HostRuntime) {
    for (name, value, is_one) in &LENGTHS {
        let made = attributes(&rt, rt.alloc(), &[(("n", *name), ("v", *value))]);
        let is_right = match made {
            Some(made) => *is_one && is_pair(&made, *name, *value),
            None => !*is_one,
        };
        assert!(rt; is_right, "a name of {name}, a value of {value}");
    }
}

/// Two pairs, and whether their names rise.
static PAIRS: [(&[(Part, Part)], bool); 4] = [
    (&[(("a", 1), ("1", 1)), (("c", 1), ("2", 1))], true),
    (&[(("a", 1), ("1", 1)), (("ab", 1), ("2", 1))], true),
    (&[(("c", 1), ("1", 1)), (("a", 1), ("2", 1))], false),
    (&[(("a", 1), ("1", 1)), (("a", 1), ("2", 1))], false),
];

/// Tries: Attributes::from_pairs
#[test]
fn names_of_attributes_rise(rt: HostRuntime) {
    for (place, (pairs, is_one)) in PAIRS.iter().enumerate() {
        let made = attributes(&rt, rt.alloc(), pairs);
        assert_eq!(rt; made.is_some(), *is_one, "at {place}");
    }
}
