//! What joins leave, and under which keys it is filed.

use super::*;

const REGISTER: Step = Joins(("a", (First, First, Register(HOST_A, 0, 60))));

const OBSERVE: Step = Joins(("a", (Second, First, Observe(&[3], None))));

const OF_B: Step = Joins(("b", (Second, Second, Register(HOST_A, 0, 60))));

/// What is found of a registration with a watch.
const WATCHED: [Step; 8] = [
    Counts(2),
    Filed(Id(First), &["a"]),
    Filed(Address(HOST_A), &["a"]),
    Filed(Token(Second), &["a"]),
    Filed(Id(Second), &[]),
    Filed(Address(HOST_B), &[]),
    Filed(Token(First), &[]),
    Shows(0, Behind(None), Some(("a", First))),
];

static SCENES: [Scene; 8] = [
    (
        "a new table",
        &[],
        &[
            Counts(0),
            Filed(Id(First), &[]),
            Filed(Address(HOST_A), &[]),
            Filed(Token(Second), &[]),
            Shows(0, Behind(None), None),
        ],
    ),
    ("a registration and a watch", &[REGISTER, OBSERVE], &WATCHED),
    ("a watch and a registration", &[OBSERVE, REGISTER], &WATCHED),
    (
        "what tells nothing new",
        &[
            Joins(("a", (Second, Second, Register(HOST_A, 0, 60)))),
            Joins(("a", (Second, Second, Register(HOST_A, 0, 60)))),
            Joins(("a", (First, First, Register(HOST_B, 0, 60)))),
        ],
        &[
            Counts(1),
            Filed(Id(First), &[]),
            Filed(Address(HOST_B), &[]),
            Filed(Id(Second), &["a"]),
            Shows(0, Behind(None), Some(("a", Second))),
        ],
    ),
    (
        "two at host A",
        &[OF_B, REGISTER],
        &[
            Counts(2),
            Filed(Address(HOST_A), &["a", "b"]),
            Shows(0, Behind(None), Some(("a", First))),
        ],
    ),
    (
        "one of them moves",
        &[
            OF_B,
            REGISTER,
            Joins(("a", (Third, First, Update(HOST_B, 0, None, None)))),
        ],
        &[
            Counts(3),
            Filed(Address(HOST_A), &["b"]),
            Filed(Address(HOST_B), &["a"]),
            Filed(Id(First), &["a"]),
            Shows(0, Behind(None), Some(("a", First))),
        ],
    ),
    (
        "another registration",
        &[
            REGISTER,
            OBSERVE,
            Joins(("a", (Fourth, Fourth, Register(HOST_B, 0, 60)))),
        ],
        &[
            Counts(3),
            Filed(Id(First), &[]),
            Filed(Address(HOST_A), &[]),
            Filed(Token(Second), &[]),
            Filed(Id(Fourth), &["a"]),
            Filed(Address(HOST_B), &["a"]),
            Shows(0, Behind(None), Some(("a", Fourth))),
        ],
    ),
    (
        "a removed one",
        &[REGISTER, OBSERVE, Joins(("a", (Third, First, Remove)))],
        &[
            Counts(3),
            Filed(Id(First), &[]),
            Filed(Address(HOST_A), &[]),
            Filed(Token(Second), &[]),
            Shows(0, Behind(None), None),
        ],
    ),
];

/// Tries: Table::new, Table::join, Table::endpoints_with, lw_reg::Endpoint::into_text
#[test]
fn slots_are_filed_under_their_keys(rt: HostRuntime) {
    play_all(&rt, rt.alloc(), &SCENES);
}
