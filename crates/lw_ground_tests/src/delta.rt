ghost use Rattle.std.specs.Prelude.{◌<◌, ◌^◌, None};
ghost use Rattle.lw_delta.specs.Writable.{AllFollow};

mod bounds;

use lw_delta::*;
use lw_reg::{Endpoint, Slot};
use lw_stamp::{NoMemory, Stamp};
use std::alloc::Global;
use std::fmt::Write;
use std::process::Abort;

/// One registration of the endpoint `a` with all fields: 100 bytes.
const REGISTERED: &str =
    "4c57443300000000000101016100000000000100017f000000000000010001047f000001163300000000000100010000\
0000000000000000000100010001518000000000000100010155000000000001000100000000000001000100033c2f3e\
00000000";

/// The same in format 1, of 98 bytes.
const REGISTERED_AT_FIRST: &str =
    "4c57443100000000000101016100000000000100017f000000000000010001047f000001163300000000000100010000\
0000000000000000000100010001518000000000000100010155000000000001000100000000000001000100033c2f3e\
0000";

/// The same in format 2, of 99 bytes.
const REGISTERED_AT_SECOND: &str =
    "4c57443200000000000101016100000000000100017f000000000000010001047f000001163300000000000100010000\
0000000000000000000100010001518000000000000100010155000000000001000100000000000001000100033c2f3e\
000000";

/// The same registration with the attribute `x`, whose value is `1`: 113 bytes.
const ATTRIBUTED: &str =
    "4c57443300000000000101016100000000000100017f000000000000010001047f000001163300000000000100010000\
0000000000000000000100010001518000000000000100010155000000000001000100000000000001000100033c2f3e\
0101780000000000010001013100000000";

/// The same in format 2, of 112 bytes.
const ATTRIBUTED_AT_SECOND: &str =
    "4c57443200000000000101016100000000000100017f000000000000010001047f000001163300000000000100010000\
0000000000000000000100010001518000000000000100010155000000000001000100000000000001000100033c2f3e\
01017800000000000100010131000000";

/// The same registration, where what was seen up to its own stamp is over: 108 bytes.
const ENDED: &str =
    "4c57443300000000000101016100000000000100017f000000000000010001047f000001163300000000000100010000\
0000000000000000000100010001518000000000000100010155000000000001000100000000000001000100033c2f3e\
000100000000000100010000";

/// The same registration, removed.
const REMOVED: &str = "4c57443300000000000101016100000000000100018000000000";

/// The same, in its fuller spelling.
const REMOVED_IN_FULL: &str =
    "4c5744330000000000010101610000000000010001ff000000000000010001047f000001163300000000000100010000\
0000000000000000000100010001518000000000000100010155000000000001000100000000000001000100033c2f3e\
00000000";

/// The same in format 1.
const REMOVED_IN_FULL_AT_FIRST: &str =
    "4c5744310000000000010101610000000000010001ff000000000000010001047f000001163300000000000100010000\
0000000000000000000100010001518000000000000100010155000000000001000100000000000001000100033c2f3e\
0000";

/// The same in format 2.
const REMOVED_IN_FULL_AT_SECOND: &str =
    "4c5744320000000000010101610000000000010001ff000000000000010001047f000001163300000000000100010000\
0000000000000000000100010001518000000000000100010155000000000001000100000000000001000100033c2f3e\
000000";

/// The same in format 3, with an end.
const REMOVED_WITH_AN_END: &str =
    "4c5744330000000000010101610000000000010001ff000000000000010001047f000001163300000000000100010000\
0000000000000000000100010001518000000000000100010155000000000001000100000000000001000100033c2f3e\
000100000000000100010000";

/// Removed, with no field, but an attribute.
const REMOVED_WITH_AN_ATTRIBUTE: &str =
    "4c5744330000000000010101610000000000010001800101780000000000010001013100000000";

/// Removed, with no field, but an end.
const REMOVED_WITH_AN_END_ALONE: &str =
    "4c574433000000000001010161000000000001000180000100000000000100010000";

/// Removed, in format 2.
const REMOVED_AT_SECOND: &str = "4c574432000000000001010161000000000001000180000000";

/// Of three watches the last is cancelled.
const WATCHED: &str =
    "4c5744330000000000010101610000000000010001000000010200030000000000000001000101000102000300010000\
0000000100010101006e010100040000000000010001020000";

/// The same in format 2.
const WATCHED_AT_SECOND: &str =
    "4c5744320000000000010101610000000000010001000001020003000000000000000100010100010200030001000000\
00000100010101006e010100040000000000010001020000";

/// The same watches of a registration without a field that is over.
const ENDED_AND_WATCHED: &str =
    "4c5744330000000000010101610000000000010001000001000000000001000101020003000000000000000100010100\
01020003000100000000000100010101006e010100040000000000010001020000";

/// A watch that is cancelled.
const CANCELLED: &str =
    "4c5744330000000000010101610000000000010001000000010100040000000000010001020000";

/// The same, in its fuller spelling.
const CANCELLED_IN_FULL: &str =
    "4c57443300000000000101016100000000000100010000000101000400000000000100010301006e0000";

/// Two removed registrations.
const TWO_REMOVED: &str =
    "4c57443300000000000101016100000000000100018000000001016200000000000100018000000000";

/// No slots, and the least clock.
const FRESH: &str = "4c57443300000000000000";

/// The same in format 2.
const FRESH_AT_SECOND: &str = "4c57443200000000000000";

/// No slots, and the greatest clock.
const LAST: &str = "4c574433ffffffffffff00";

/// A slot that stands there twice.
const TWICE: &str =
    "4c57443300000000000101016100000000000100017f000000000000010001047f000001163300000000000100010000\
0000000000000000000100010001518000000000000100010155000000000001000100000000000001000100033c2f3e\
00000001016100000000000100017f000000000000010001047f00000116330000000000010001000000000000000000\
00000100010001518000000000000100010155000000000001000100000000000001000100033c2f3e00000000";

fn write(alloc: Global, clock: u64, slots: &[(Endpoint, Slot)]) -> Result<Vec<u8>, NoMemory>
    requires in_range { clock < 2 ^ 48 }
    requires follow { AllFollow clock None slots.now }
{
    let mut writer = Writer::new(alloc, clock)?;
    for entry in slots {
        let (endpoint, slot) = entry;
        writer.slot(endpoint.as_str(), slot)?;
    }
    writer.end()
}

/// What a writer makes of the delta that the bytes are, if they are one.
fn rewritten(alloc: Global, bytes: &[u8]) -> Result<Option<Vec<u8>>, NoMemory> {
    let Ok(delta) = read(alloc, bytes) else {
        return Ok(None);
    };
    let written = write(alloc, delta.clock, &delta.slots)?;
    Ok(Some(written))
}

/// Each fault, where it is the first: a later one may stand behind it.
static REFUSED: [(&str, DeltaFault); 69] = [
    (TWICE, DeltaFault::Order),
    // nothing later
    ("4c5744", DeltaFault::Truncated),
    (
        "4c574431000000000001010161000000000001000140000000000001000120",
        DeltaFault::Truncated,
    ),
    ("4c57443000000000000000", DeltaFault::Magic),
    // magic before truncated
    ("4c57443000", DeltaFault::Magic),
    ("4c5744310000000000000000", DeltaFault::Trailing),
    ("4c57443100000000000002", DeltaFault::Range),
    // endpoint empty, trailing
    (
        "4c57443100000000000101000000000000010001800000ff",
        DeltaFault::Range,
    ),
    // endpoint 253, truncated
    ("4c57443100000000000101fd00", DeltaFault::Range),
    // counter 0 before base range
    (
        "4c5744310000000000010101610000000000000001ff0900",
        DeltaFault::Range,
    ),
    // base 4 before watch tag 2
    (
        "4c574431000000000001010161000000000001000101040200",
        DeltaFault::Range,
    ),
    // family 5
    (
        "4c5744310000000000010101610000000000010001020000000000010001050200",
        DeltaFault::Range,
    ),
    // binding length 0
    (
        "4c57443100000000000101016100000000000100011000000000000100010000",
        DeltaFault::Range,
    ),
    // binding length 9 before text
    (
        "4c57443100000000000101016100000000000100011000000000000100010961616161616161616100",
        DeltaFault::Range,
    ),
    // sms tag
    (
        "4c57443100000000000101016100000000000100012000000000000100010200",
        DeltaFault::Range,
    ),
    // sms length 252 before text
    (
        "4c574431000000000001010161000000000001000120000000000001000101fcff00",
        DeltaFault::Range,
    ),
    // objects length 0
    (
        "4c574431000000000001010161000000000001000140000000000001000100000200",
        DeltaFault::Range,
    ),
    // objects length 8193 before truncated
    (
        "4c5744310000000000010101610000000000010001400000000000010001200100",
        DeltaFault::Range,
    ),
    // watch tag
    (
        "4c5744310000000000010101610000000000010001000200",
        DeltaFault::Range,
    ),
    // no numbers
    (
        "4c574431000000000001010161000000000001000100010000",
        DeltaFault::Range,
    ),
    // five numbers
    (
        "4c574431000000000001010161000000000001000100010500",
        DeltaFault::Range,
    ),
    // number 65535 before truncated
    (
        "4c5744310000000000010101610000000000010001000102ffff",
        DeltaFault::Range,
    ),
    // watch flag 0
    (
        "4c57443100000000000101016100000000000100010001010004000000000001000100ff00",
        DeltaFault::Range,
    ),
    // watch flag 4
    (
        "4c57443100000000000101016100000000000100010001010004000000000001000104ff00",
        DeltaFault::Range,
    ),
    // accept tag
    (
        "4c5744310000000000010101610000000000010001000101000400000000000100010102ff00",
        DeltaFault::Range,
    ),
    // accept of cancelled
    (
        "4c57443100000000000101016100000000000100010001010004000000000001000103020000",
        DeltaFault::Range,
    ),
    (
        "4c57443100000000000001016100000000000100017f000000000000010001047f0000011633000000000001000100000000000000000000000100010001518000000000000100010155000000000001000100000000000001000100033c2f3e0000",
        DeltaFault::ClockBelow,
    ),
    (
        "4c57443300000000000001016100000000000100017f000000000000010001047f0000011633000000000001000100000000000000000000000100010001518000000000000100010155000000000001000100000000000001000100033c2f3e00000000",
        DeltaFault::ClockBelow,
    ),
    // clock before base range
    (
        "4c5744310000000000010101610000000000020001010400",
        DeltaFault::ClockBelow,
    ),
    // in a removed slot fields are checked
    (
        "4c5744310000000000010101610000000000010001ff00000000000002000100",
        DeltaFault::ClockBelow,
    ),
    // order before range of stamp
    (
        "4c574431000000000001010162000000000001000180000101610000000000000001800000",
        DeltaFault::Order,
    ),
    // path order before stamp range
    (
        "4c57443100000000000101016100000000000100010001010004000000000001000102010100040000000000000001020000",
        DeltaFault::Order,
    ),
    // in a removed slot watches are checked
    (
        "4c57443100000000000101016100000000000100018001010004000000000001000102010100030000000000010001020000",
        DeltaFault::Order,
    ),
    // endpoint no utf8 before clock
    (
        "4c5744310000000000000101ff0000000000010001800000",
        DeltaFault::Text,
    ),
    // text before order
    (
        "4c574431000000000001010162000000000001000180000101ff0000000000010001800000",
        DeltaFault::Text,
    ),
    // binding lower case before tag 2
    (
        "4c574431000000000001010161000000000001000110000000000001000101610200",
        DeltaFault::Text,
    ),
    // sms no utf8 before tag
    (
        "4c57443100000000000101016100000000000100012000000000000100010101ff0200",
        DeltaFault::Text,
    ),
    // no printing before tag
    (
        "4c574431000000000001010161000000000001000140000000000001000100043c2f3e200200",
        DeltaFault::Text,
    ),
    // of an attribute: no name
    (
        "4c5744320000000000010101610000000000010001000100",
        DeltaFault::Range,
    ),
    // `=` in a name
    (
        "4c57443200000000000101016100000000000100010001013d",
        DeltaFault::Text,
    ),
    // the name of a parameter
    (
        "4c57443200000000000101016100000000000100010001026570",
        DeltaFault::Text,
    ),
    // a name that is no utf8
    (
        "4c5744320000000000010101610000000000010001000101ff",
        DeltaFault::Text,
    ),
    // counter 0
    (
        "4c5744320000000000010101610000000000010001000101780000000000000001",
        DeltaFault::Range,
    ),
    // clock
    (
        "4c5744320000000000010101610000000000010001000101780000000000020001",
        DeltaFault::ClockBelow,
    ),
    // value 254 before truncated
    (
        "4c5744320000000000010101610000000000010001000101780000000000010001fe",
        DeltaFault::Range,
    ),
    // name before order
    (
        "4c57443200000000000101016100000000000100010001017800000000000100010001013d",
        DeltaFault::Text,
    ),
    // the same name, before the stamp
    (
        "4c574432000000000001010161000000000001000100010178000000000001000100010178",
        DeltaFault::Order,
    ),
    // a lesser name, before the stamp
    (
        "4c574432000000000001010161000000000001000100010178000000000001000100010161",
        DeltaFault::Order,
    ),
    // attribute tag
    (
        "4c57443200000000000101016100000000000100010002",
        DeltaFault::Range,
    ),
    // nothing behind the attribute
    (
        "4c57443200000000000101016100000000000100010001017800000000000100010131",
        DeltaFault::Truncated,
    ),
    // no watches behind the attributes
    (
        "4c5744320000000000010101610000000000010001000101780000000000010001013100",
        DeltaFault::Truncated,
    ),
    // attribute in format 1
    (
        "4c57443100000000000101016100000000000100010001017800000000000100010131000000",
        DeltaFault::ClockBelow,
    ),
    // of an end: tag
    (
        "4c5744330000000000010101610000000000010001000002",
        DeltaFault::Range,
    ),
    // counter 0
    (
        "4c57443300000000000101016100000000000100010000010000000000000001",
        DeltaFault::Range,
    ),
    // clock
    (
        "4c57443300000000000101016100000000000100010000010000000000020001",
        DeltaFault::ClockBelow,
    ),
    // counter 0, before the watch tag
    (
        "4c5744330000000000010101610000000000010001000001000000000000000102",
        DeltaFault::Range,
    ),
    // nothing behind the tag
    (
        "4c5744330000000000010101610000000000010001000001",
        DeltaFault::Truncated,
    ),
    // no node
    (
        "4c574433000000000001010161000000000001000100000100000000000100",
        DeltaFault::Truncated,
    ),
    // no watches behind the end
    (
        "4c57443300000000000101016100000000000100010000010000000000010001",
        DeltaFault::Truncated,
    ),
    // watch tag behind the end
    (
        "4c5744330000000000010101610000000000010001000001000000000001000102",
        DeltaFault::Range,
    ),
    // no numbers behind no end
    (
        "4c57443300000000000101016100000000000100010000000100",
        DeltaFault::Range,
    ),
    // nothing behind no end
    (
        "4c5744330000000000010101610000000000010001000000",
        DeltaFault::Truncated,
    ),
    // in a removed slot the end is checked
    (
        "4c57443300000000000101016100000000000100018000010000000000000001",
        DeltaFault::Range,
    ),
    // and is not above the clock
    (
        "4c57443300000000000101016100000000000100018000010000000000020001",
        DeltaFault::ClockBelow,
    ),
    // end in format 2
    (
        "4c574432000000000001010161000000000001000100000100000000000100010000",
        DeltaFault::Range,
    ),
    // end in format 1
    (
        "4c5744310000000000010101610000000000010001000100000000000100010000",
        DeltaFault::Range,
    ),
    // a slot of format 2 in format 3
    (
        "4c57443300000000000101016100000000000100017f000000000000010001047f0000011633000000000001000100000000000000000000000100010001518000000000000100010155000000000001000100000000000001000100033c2f3e000000",
        DeltaFault::Truncated,
    ),
    // a slot of format 3 in format 2
    (
        "4c57443200000000000101016100000000000100017f000000000000010001047f0000011633000000000001000100000000000000000000000100010001518000000000000100010155000000000001000100000000000001000100033c2f3e00000000",
        DeltaFault::Trailing,
    ),
    // format 4
    ("4c57443400000000000000", DeltaFault::Magic),
];

/// Deltas, their clocks, how many slots they have, and how they are written.
static ACCEPTED: [(&str, u64, usize, &str); 23] = [
    (REGISTERED, 1, 1, REGISTERED),
    (REGISTERED_AT_FIRST, 1, 1, REGISTERED),
    (REGISTERED_AT_SECOND, 1, 1, REGISTERED),
    (ATTRIBUTED, 1, 1, ATTRIBUTED),
    (ATTRIBUTED_AT_SECOND, 1, 1, ATTRIBUTED),
    (ENDED, 1, 1, ENDED),
    (FRESH, 0, 0, FRESH),
    (FRESH_AT_SECOND, 0, 0, FRESH),
    (LAST, 281_474_976_710_655, 0, LAST),
    (REMOVED, 1, 1, REMOVED),
    (REMOVED_AT_SECOND, 1, 1, REMOVED),
    (REMOVED_IN_FULL, 1, 1, REMOVED),
    (REMOVED_IN_FULL_AT_FIRST, 1, 1, REMOVED),
    (REMOVED_IN_FULL_AT_SECOND, 1, 1, REMOVED),
    (REMOVED_WITH_AN_END, 1, 1, REMOVED),
    (REMOVED_WITH_AN_ATTRIBUTE, 1, 1, REMOVED),
    (REMOVED_WITH_AN_END_ALONE, 1, 1, REMOVED),
    (CANCELLED, 1, 1, CANCELLED),
    (CANCELLED_IN_FULL, 1, 1, CANCELLED),
    (WATCHED, 1, 1, WATCHED),
    (WATCHED_AT_SECOND, 1, 1, WATCHED),
    (ENDED_AND_WATCHED, 1, 1, ENDED_AND_WATCHED),
    (TWO_REMOVED, 1, 2, TWO_REMOVED),
];

fn bytes_of(rt: &impl Abort, alloc: Global, text: &str) -> Vec<u8> {
    hex::decode(alloc, text).expect(rt, "bytes in hex")
}

/// Whether the walk of the bytes, and both ways to read them, end with this fault.
fn is_refused(alloc: Global, bytes: &[u8], fault: DeltaFault) -> bool {
    check(bytes) == Err(fault)
        && Reader::new(alloc, bytes).err() == Some(fault)
        && read(alloc, bytes).err() == Some(fault)
}

/// Whether the bytes are a delta that is written like this.
fn is_written_as(rt: &impl Abort, alloc: Global, bytes: &[u8], again: &[u8]) -> bool {
    match rewritten(alloc, bytes).expect(rt, "memory") {
        None => false,
        Some(written) => written.as_slice() == again,
    }
}

/// Whether the bytes are a delta with the clock, and so many slots.
fn is_counted(rt: &impl Abort, alloc: Global, bytes: &[u8], clock: u64, count: usize) -> bool {
    let delta = read(alloc, bytes).expect(rt, "a delta");
    check(bytes) == Ok(clock) && delta.clock == clock && delta.slots.len() == count
}

/// Tries: check, read, Writer::new, Writer::end, laws::written_deltas_are_shortest
#[test]
fn deltas_are_read_and_written(rt: HostRuntime) {
    for (text, clock, count, again) in &ACCEPTED {
        let bytes = bytes_of(&rt, rt.alloc(), text);
        let again = bytes_of(&rt, rt.alloc(), again);
        assert!(rt;
            is_counted(&rt, rt.alloc(), &bytes, *clock, *count),
            "{text}"
        );
        assert!(rt; is_written_as(&rt, rt.alloc(), &bytes, &again), "{text}");
    }
}

/// Deltas, their clocks, and of each slot the endpoint, whether it was removed or is over up to stamp 1 of node 1, and
/// the counter of the registration.
static SLOTS: [(&str, u64, &str); 13] = [
    (FRESH, 0, ""),
    (FRESH_AT_SECOND, 0, ""),
    (LAST, 281_474_976_710_655, ""),
    (REGISTERED, 1, "a+1 "),
    (REGISTERED_AT_FIRST, 1, "a+1 "),
    (REGISTERED_AT_SECOND, 1, "a+1 "),
    (ATTRIBUTED, 1, "a+1 "),
    (ENDED, 1, "a~1 "),
    (REMOVED_IN_FULL, 1, "a-1 "),
    (REMOVED_WITH_AN_END, 1, "a-1 "),
    (WATCHED, 1, "a+1 "),
    (ENDED_AND_WATCHED, 1, "a~1 "),
    (TWO_REMOVED, 1, "a-1 b-1 "),
];

/// The stamp 1 of node 1.
const FIRST: Stamp = Stamp {
    counter: 1,
    node: 1,
};

fn sign(slot: &Slot) -> &'static str {
    match slot.ended() {
        Some(FIRST) => "~",
        Some(_) => "?",
        None if slot.is_removed() => "-",
        None => "+",
    }
}

/// The slots that a reader gives.
fn told(rt: &impl Abort, alloc: Global, reader: &mut Reader<'_>) -> String {
    let mut text = String::new(alloc);
    while let Some((endpoint, slot)) = reader.next().expect(rt, "memory") {
        let (endpoint, sign, counter) = (endpoint.as_str(), sign(&slot), slot.stamp().counter);
        write!(text, "{endpoint}{sign}{counter} ").expect(rt, "memory");
    }
    text
}

/// Whether the bytes are read so, and nothing is left after the end.
fn reads(rt: &impl Abort, alloc: Global, bytes: &[u8], clock: u64, slots: &str) -> bool {
    let mut reader = Reader::new(alloc, bytes).expect(rt, "a delta");
    let text = told(rt, alloc, &mut reader);
    let last = reader.next().expect(rt, "memory");
    reader.clock() == clock && text.as_str() == slots && last.is_none()
}

/// Tries: Reader::new, Reader::clock, Reader::next
#[test]
fn slots_are_read_one_by_one(rt: HostRuntime) {
    for (text, clock, slots) in &SLOTS {
        let bytes = bytes_of(&rt, rt.alloc(), text);
        assert!(rt; reads(&rt, rt.alloc(), &bytes, *clock, slots), "{text}");
    }
}

/// Whether each front of the bytes is cut off, as the check of it says.
fn are_cut_off(bytes: &[u8]) -> bool {
    for len in 0..bytes.len() {
        if check(&bytes[..len]) != Err(DeltaFault::Truncated) {
            return false;
        }
    }
    true
}

/// Deltas whose fronts are looked at.
static WHOLE: [&str; 4] = [REGISTERED, ATTRIBUTED, ENDED, ENDED_AND_WATCHED];

/// Tries: check, read, Reader::new
#[test]
fn the_first_fault_is_told(rt: HostRuntime) {
    for (text, fault) in &REFUSED {
        let bytes = bytes_of(&rt, rt.alloc(), text);
        assert!(rt; is_refused(rt.alloc(), &bytes, *fault), "{text}");
    }
    for text in &WHOLE {
        assert!(rt; are_cut_off(&bytes_of(&rt, rt.alloc(), text)), "{text}");
    }
}
