//! The slots of operations, which tables of tests list.

use lw_link::LinkText;
use lw_reg::{
    Addr, Attributes, Binding, Endpoint, GivenSettings, Op, Path, Settings, Slot, Text, Version,
    What, atom,
};
use lw_stamp::{Moment, NoMemory, Stamp};
use std::alloc::Global;

pub(crate) const HOST_A: Addr = Addr::V4 {
    address: [127, 0, 0, 1],
    port: 5683,
};

pub(crate) const HOST_B: Addr = Addr::V4 {
    address: [127, 0, 0, 1],
    port: 5684,
};

/// A stamp, by its number.
#[derive(Clone, Copy)]
pub(crate) enum Mark {
    First,
    Second,
    /// Of a greater node than those beside it.
    Third,
    Fourth,
    Fifth,
    /// Of node 2, with the counter of the second.
    Elsewhere,
    /// One with a counter above this number.
    Above(u16),
}

impl Mark {
    pub(crate) fn stamp(self) -> Stamp {
        let (counter, node) = match self {
            Mark::First => (1, 1),
            Mark::Second => (2, 1),
            Mark::Third => (3, 2),
            Mark::Fourth => (4, 1),
            Mark::Fifth => (5, 1),
            Mark::Elsewhere => (2, 2),
            Mark::Above(number) => (1 + u64::from(number), 1),
        };
        Stamp { counter, node }
    }
}

/// What an operation does.
#[derive(Clone, Copy)]
pub(crate) enum Act<'a> {
    /// A Register of version 1.0 with the binding `U` and the links `</>`: from where, the moment in milliseconds, and
    /// the lifetime in seconds; 0 never expires.
    Register(Addr, u64, u32),
    /// From where, the moment, and the lifetime and the binding if they change.
    Update(Addr, u64, Option<u32>, Option<&'a str>),
    Remove,
    /// A path, and the format that is accepted.
    Observe(&'a [u16], Option<u16>),
    /// A path, and the token.
    Cancel(&'a [u16], Mark),
    /// Up to which stamp what was seen is over.
    Expire(Mark),
}

/// The stamp of an operation, that of its registration, and what it does.
pub(crate) type Change<'a> = (Mark, Mark, Act<'a>);

/// A moment in milliseconds.
pub(crate) fn at(ms: u64) -> Moment {
    Moment::new(ms).unwrap_or(Moment::START)
}

/// The endpoint of that name, if it is one.
pub(crate) fn endpoint(alloc: Global, name: &str) -> Result<Option<Endpoint>, NoMemory> {
    Ok(Endpoint::new(Text::copy_of(alloc, name)?))
}

/// The text `</>` is a list of links, so nothing but memory can be wanting.
fn register(alloc: Global, address: Addr, seen: u64, lifetime: u32) -> Result<What, NoMemory> {
    let Ok(objects) = LinkText::read(alloc, b"</>") else {
        return Err(NoMemory);
    };
    Ok(What::Register {
        version: Version::V10,
        queue: false,
        address,
        seen: at(seen),
        settings: Settings {
            lifetime,
            binding: Binding::U,
            sms: None,
            objects,
            attributes: Attributes::new(alloc),
        },
    })
}

fn update(
    alloc: Global,
    address: Addr,
    seen: u64,
    lifetime: Option<u32>,
    binding: Option<&str>,
) -> What {
    let binding = match binding {
        None => None,
        Some(letters) => Binding::read(letters),
    };
    What::Update {
        address,
        seen: at(seen),
        settings: GivenSettings {
            lifetime,
            binding,
            sms: None,
            objects: None,
            attributes: Attributes::new(alloc),
        },
    }
}

/// What is done at a path: a watch with the format that is accepted, or the end of the watch with the token. Where the
/// numbers are no path, it is a removal.
fn what_at(numbers: &[u16], accept: Option<u16>, cancelled: Option<Mark>) -> What {
    let Some(path) = Path::new(numbers) else {
        return What::Remove;
    };
    match cancelled {
        None => What::Observe { path, accept },
        Some(token) => What::Cancel {
            path,
            token: token.stamp(),
        },
    }
}

fn what(alloc: Global, act: Act<'_>) -> Result<What, NoMemory> {
    match act {
        Act::Register(address, seen, lifetime) => register(alloc, address, seen, lifetime),
        Act::Update(address, seen, lifetime, binding) => {
            Ok(update(alloc, address, seen, lifetime, binding))
        }
        Act::Remove => Ok(What::Remove),
        Act::Observe(numbers, accept) => Ok(what_at(numbers, accept, None)),
        Act::Cancel(numbers, token) => Ok(what_at(numbers, None, Some(token))),
        Act::Expire(upto) => Ok(What::Expire { upto: upto.stamp() }),
    }
}

/// The slot of an operation about the endpoint `a`.
pub(crate) fn slot_of(alloc: Global, (stamp, reg, act): Change<'_>) -> Result<Slot, NoMemory> {
    let endpoint = Endpoint::copy_of(alloc, "a")?;
    let what = what(alloc, act)?;
    let operation = Op {
        stamp: stamp.stamp(),
        endpoint,
        reg: reg.stamp(),
        what,
    };
    atom(alloc, operation)
}
