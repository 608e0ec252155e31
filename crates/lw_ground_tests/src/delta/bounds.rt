//! The largest of each part, whose bytes are put together here by hand.

use super::is_written_as;
use lw_delta::{DeltaFault, check, read};
use lw_reg::{Endpoint, Slot};
use lw_stamp::NoMemory;
use std::alloc::Global;
use std::process::Abort;

/// 127.0.0.1, port 5683.
const V4: [u8; 7] = [4, 127, 0, 0, 1, 0x16, 0x33];

/// 2001:db8::ff, port 65535.
const V6: [u8; 19] = [
    6, 0x20, 1, 0x0d, 0xb8, 0, 0, 0, 0, 0, 0, 0, 0, 0, 0, 0, 0xff, 255, 255,
];

/// Watches of 100 paths of four numbers: one half accepts Content-Format 110, the other half any.
fn put_watches(bytes: &mut Vec<u8>, stamp: &[u8]) -> Result<(), NoMemory> {
    for n in 0..100u8 {
        let path = [1, 4, 0, n, 0xff, 0xfe, 0xff, 0xfe, 0xff, 0xfe];
        let accept: &[u8] = if n % 2 == 0 { &[1, 1, 0, 110] } else { &[1, 0] };
        put(bytes, &[&path, stamp, accept])?;
    }
    Ok(())
}

fn put(bytes: &mut Vec<u8>, parts: &[&[u8]]) -> Result<(), NoMemory> {
    for part in parts {
        bytes.extend_from_slice(part)?;
    }
    Ok(())
}

/// A delta of one slot with every field, the longest of each text, an end, and 100 watches.
fn full(alloc: Global, clock: &[u8; 6], host: &[u8]) -> Result<Vec<u8>, NoMemory> {
    let [a, b, c, d, e, f] = *clock;
    let stamp: &[u8] = &[a, b, c, d, e, f, 0, 1];
    let mut bytes = Vec::new(alloc);
    let parts: [&[u8]; 24] = [
        b"LWD3",
        clock,
        &[1, 252],
        &[b'e'; 252],
        stamp,
        &[0x7f, 3],
        stamp,
        host,
        stamp,
        &[255; 6],
        stamp,
        &[255; 4],
        stamp,
        &[8],
        b"ABCDEFGH",
        stamp,
        &[1, 251],
        &[b's'; 251],
        stamp,
        &[0x20, 0, b'<'],
        &[b'o'; 8190],
        b">",
        &[0, 1],
        stamp,
    ];
    put(&mut bytes, &parts)?;
    put_watches(&mut bytes, stamp)?;
    put(&mut bytes, &[&[0, 0]])?;
    Ok(bytes)
}

/// What the readers of a slot give of the fields without texts.
fn values(rt: &impl Abort, alloc: Global, slot: &Slot) -> String {
    let text = format!(in alloc;
        "{:?} {:?} {:?} {:?} {:?} {:?}",
        slot.base(),
        slot.address(),
        slot.seen(),
        slot.lifetime(),
        slot.binding(),
        slot.ended()
    );
    text.expect(rt, "memory")
}

/// Whether it is a delta that has the clock and this length, and is written as it was read.
fn holds(rt: &impl Abort, alloc: Global, bytes: &[u8], clock: u64, length: usize) -> bool {
    check(bytes) == Ok(clock) && bytes.len() == length && is_written_as(rt, alloc, bytes, bytes)
}

/// Whether the slot has the longest texts and 100 watches.
fn is_full(endpoint: &Endpoint, slot: &Slot) -> bool {
    let Some((_, Some(number))) = slot.sms() else {
        return false;
    };
    let Some((_, objects)) = slot.objects() else {
        return false;
    };
    endpoint.as_str().len() == 252
        && number.as_str().len() == 251
        && objects.as_str().len() == 8192
        && slot.watches().len() == 100
}

/// Whether this is read of a delta of one slot with the longest texts and 100 watches.
fn is_read_as(rt: &impl Abort, alloc: Global, bytes: &[u8], text: &str) -> bool {
    let delta = read(alloc, bytes).expect(rt, "a delta");
    match delta.slots.as_slice() {
        [(endpoint, slot)] => {
            is_full(endpoint, slot) && values(rt, alloc, slot).as_str() == text
        }
        _ => false,
    }
}

/// What is read of the address at stamp 1 at node 1, and of what is no text.
const V4_READ: &str = "Some(Base { version: V11, queue: true }) \
Some((Stamp { counter: 1, node: 1 }, V4 { address: [127, 0, 0, 1], port: 5683 })) \
Some((Stamp { counter: 1, node: 1 }, Moment { ms: 281474976710655 })) \
Some((Stamp { counter: 1, node: 1 }, 4294967295)) \
Some((Stamp { counter: 1, node: 1 }, Binding { letters: [65, 66, 67, 68, 69, 70, 71, 72] })) \
Some(Stamp { counter: 1, node: 1 })";

/// The same with the other address, at the last stamp of the node.
const V6_READ: &str = "Some(Base { version: V11, queue: true }) \
Some((Stamp { counter: 281474976710655, node: 1 }, V6 { address: [32, 1, 13, 184, 0, 0, 0, 0, 0, 0, 0, 0, 0, 0, 0, 255], port: 65535 })) \
Some((Stamp { counter: 281474976710655, node: 1 }, Moment { ms: 281474976710655 })) \
Some((Stamp { counter: 281474976710655, node: 1 }, 4294967295)) \
Some((Stamp { counter: 281474976710655, node: 1 }, Binding { letters: [65, 66, 67, 68, 69, 70, 71, 72] })) \
Some(Stamp { counter: 281474976710655, node: 1 })";

/// The counter of the clock, the address, the clock, how many bytes there are, and what is read.
static FULL: [([u8; 6], &[u8], u64, usize, &str); 2] = [
    ([0, 0, 0, 0, 0, 1], &V4, 1, 10_907, V4_READ),
    ([255; 6], &V6, 281_474_976_710_655, 10_919, V6_READ),
];

/// Tries: read, Writer::slot
#[test]
fn the_longest_fields_are_read_and_written_again(rt: HostRuntime) {
    for (counter, host, clock, length, text) in &FULL {
        let bytes = full(rt.alloc(), counter, host).expect(&rt, "memory");
        assert!(rt;
            holds(&rt, rt.alloc(), &bytes, *clock, *length),
            "clock {clock}"
        );
        assert!(rt; is_read_as(&rt, rt.alloc(), &bytes, text), "clock {clock}");
    }
}

/// A delta of 300 removed registrations, of the endpoints 000 to 299.
fn many(alloc: Global) -> Result<Vec<u8>, NoMemory> {
    let mut bytes = Vec::new(alloc);
    put(&mut bytes, &[b"LWD3\x00\x00\x00\x00\x00\x01"])?;
    for n in 0..300u16 {
        let name = [
            b'0' + (n / 100) as u8,
            b'0' + (n / 10 % 10) as u8,
            b'0' + (n % 10) as u8,
        ];
        put(
            &mut bytes,
            &[&[1, 3], &name, &[0, 0, 0, 0, 0, 1, 0, 1, 0x80, 0, 0, 0]],
        )?;
    }
    put(&mut bytes, &[&[0]])?;
    Ok(bytes)
}

/// Whether 300 slots are read, and the last is named `299`.
fn reads_many(rt: &impl Abort, alloc: Global, bytes: &[u8]) -> bool {
    let delta = read(alloc, bytes).expect(rt, "a delta");
    match delta.slots.last() {
        None => false,
        Some((endpoint, _)) => delta.slots.len() == 300 && endpoint.as_str() == "299",
    }
}

/// Tries: read, Writer::slot
#[test]
fn three_hundred_slots_are_read_and_written_again(rt: HostRuntime) {
    let bytes = many(rt.alloc()).expect(&rt, "memory");
    assert!(rt; holds(&rt, rt.alloc(), &bytes, 1, 5111));
    assert!(rt; reads_many(&rt, rt.alloc(), &bytes));
}

/// A delta of one slot with an attribute alone: so long a name, and so long a value.
fn attributed(alloc: Global, name: u8, value: u8) -> Result<Vec<u8>, NoMemory> {
    let mut bytes = Vec::new(alloc);
    let parts: [&[u8]; 7] = [
        b"LWD3\x00\x00\x00\x00\x00\x01\x01\x01a\x00\x00\x00\x00\x00\x01\x00\x01\x00",
        &[1, name],
        &[b'n'; 255][..usize::from(name)],
        &[0, 0, 0, 0, 0, 1, 0, 1],
        &[value],
        &[b'v'; 255][..usize::from(value)],
        &[0, 0, 0, 0],
    ];
    put(&mut bytes, &parts)?;
    Ok(bytes)
}

/// Whether the attribute that is read has these lengths.
fn has_attribute(slot: &Slot, name: u8, value: u8) -> bool {
    match slot.attributes() {
        [(text, last)] => {
            text.as_str().len() == usize::from(name)
                && last.write.1.as_str().len() == usize::from(value)
        }
        _ => false,
    }
}

fn reads_attribute(rt: &impl Abort, alloc: Global, bytes: &[u8], name: u8, value: u8) -> bool {
    let delta = read(alloc, bytes).expect(rt, "a delta");
    match delta.slots.as_slice() {
        [(_, slot)] => has_attribute(slot, name, value),
        _ => false,
    }
}

/// Lengths of a name and a value that have room in a query.
static ROOMY: [(u8, u8); 6] = [(1, 0), (1, 253), (127, 127), (253, 1), (254, 0), (255, 0)];

/// Lengths that have none.
static TIGHT: [(u8, u8); 5] = [(1, 254), (127, 128), (253, 2), (254, 1), (255, 1)];

/// Tries: read, Writer::slot, Writer::end
#[test]
fn the_longest_attributes_are_read_and_written_again(rt: HostRuntime) {
    for (name, value) in &ROOMY {
        let bytes = attributed(rt.alloc(), *name, *value).expect(&rt, "memory");
        let length = 37 + usize::from(*name) + usize::from(*value);
        assert!(rt;
            holds(&rt, rt.alloc(), &bytes, 1, length),
            "{name} and {value}"
        );
        assert!(rt;
            reads_attribute(&rt, rt.alloc(), &bytes, *name, *value),
            "{name} and {value}"
        );
    }
}

/// Tries: check
#[test]
fn a_name_and_its_value_have_room_in_a_query(rt: HostRuntime) {
    for (name, value) in &TIGHT {
        let bytes = attributed(rt.alloc(), *name, *value).expect(&rt, "memory");
        assert!(rt;
            check(&bytes) == Err(DeltaFault::Range),
            "{name} and {value}"
        );
    }
}
