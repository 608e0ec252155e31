//! Slots with all that a registration can have, at its longest.

ghost use Rattle.std.specs.Prelude.{Some, IfOk};
ghost use Rattle.lw_reg.specs.Fields.{told_fields};
ghost use Rattle.lw_reg.specs.BodyOrGone.{KeepsAttributes};

use lw_join::{Join, Lex, Once, OrGone, Parts};
use lw_link::{LinkFault, LinkText};
use lw_reg::*;
use lw_stamp::{Moment, NoMemory, Stamp};
use std::alloc::Global;
use std::process::Abort;

const FIRST: Stamp = Stamp {
    counter: 1,
    node: 1,
};

const LAST: Stamp = Stamp {
    counter: 281_474_976_710_655,
    node: 65_535,
};

/// The end of a registration that is seen at the last stamp.
const BEFORE_LAST: Stamp = Stamp {
    counter: 281_474_976_710_655,
    node: 65_534,
};

const FIRST_HOST: Addr = Addr::V4 {
    address: [255; 4],
    port: 65_535,
};

const LAST_HOST: Addr = Addr::V6 {
    address: [255; 16],
    port: 65_535,
};

/// So many letters.
fn letters(alloc: Global, letter: &str, length: usize) -> Result<Text, NoMemory> {
    Ok(Text::from(letter.repeat(alloc, length)?))
}

fn is_letters(text: &str, letter: u8, length: usize) -> bool {
    for byte in text.as_bytes() {
        if *byte != letter {
            return false;
        }
    }
    text.len() == length
}

/// One link, of 8,192 bytes.
fn link(alloc: Global, letter: &str) -> Result<LinkText, LinkFault> {
    let text = bracketed(alloc, letter)?;
    let bytes = text.as_bytes();
    if bytes.len() > 8192 {
        return Err(LinkFault::TooMany);
    }
    LinkText::read(alloc, bytes)
}

/// The letter 8,190 times, in brackets.
fn bracketed(alloc: Global, letter: &str) -> Result<String, NoMemory> {
    let letters = letter.repeat(alloc, 8190)?;
    Ok(format!(in alloc; "<{letters}>")?)
}

fn is_link(objects: &LinkText, letter: u8) -> bool {
    match objects.as_str().strip_prefix("<") {
        None => false,
        Some(link) => match link.strip_suffix(">") {
            None => false,
            Some(letters) => is_letters(letters, letter, 8190),
        },
    }
}

fn path(number: u16) -> Option<Path> {
    Path::new(&[number, 65_534, 65_534, 65_534])
}

fn token(number: u16) -> Stamp {
    Stamp {
        counter: u64::from(number) + 1,
        node: 7,
    }
}

/// A watch, under its path.
fn watch(number: u16) -> Option<(Path, Watching)> {
    let path = path(number)?;
    let value = OrGone::Here(Once {
        value: Some(number),
    });
    let watching = Lex {
        stamp: token(number),
        value,
    };
    Some((path, watching))
}

/// A hundred watches, of the even paths below 200 or of the odd ones; none where these do not rise.
fn watches(alloc: Global, odd: bool) -> Result<Parts<Path, Watching>, NoMemory> {
    let mut entries = Vec::new(alloc);
    for place in 0..100 {
        if let Some(entry) = watch(2 * place + u16::from(odd)) {
            entries.push(entry)?;
        }
    }
    match Parts::from_entries(entries) {
        Some(watches) => Ok(watches),
        None => Ok(Parts::new(alloc)),
    }
}

/// The name and the value of an attribute.
fn attribute(alloc: Global, number: u16) -> Result<(Text, Text), NoMemory> {
    let name = format!(in alloc; "n{number:03}")?;
    let value = format!(in alloc; "{number}")?;
    Ok((Text::from(name), Text::from(value)))
}

/// A hundred attributes, of the even numbers below 200 or of the odd ones; none where these are no attributes.
fn attributes(alloc: Global, odd: bool) -> Result<Attributes, NoMemory> {
    let mut pairs = Vec::new(alloc);
    for place in 0..100 {
        pairs.push(attribute(alloc, 2 * place + u16::from(odd))?)?;
    }
    match Attributes::from_pairs(pairs) {
        Some(attributes) => Ok(attributes),
        None => Ok(Attributes::new(alloc)),
    }
}

/// What an Update writes: the attributes, at the stamp of the other fields.
fn attributed(alloc: Global, side: &Side) -> Result<What, NoMemory> {
    Ok(What::Update {
        address: side.host,
        seen: Moment::START,
        settings: GivenSettings {
            lifetime: None,
            binding: None,
            sms: None,
            objects: None,
            attributes: attributes(alloc, side.is_odd)?,
        },
    })
}

/// The slot of an Update of the endpoint with the longest name.
fn updated(alloc: Global, side: &Side) -> Result<Slot, NoMemory> {
    let Some(endpoint) = Endpoint::new(letters(alloc, "e", 252)?) else {
        return without_fields(alloc);
    };
    let operation = Op {
        stamp: side.stamp,
        endpoint,
        reg: FIRST,
        what: attributed(alloc, side)?,
    };
    atom(alloc, operation)
}

/// One half of all that a registration can have.
struct Side {
    stamp: Stamp,
    version: Version,
    host: Addr,
    lifetime: u32,
    binding: &'static str,
    /// How many digits the SMS number has, if there is one.
    sms: Option<usize>,
    /// The letter of its links.
    letter: &'static str,
    ended: Stamp,
    /// Whether its watches and attributes have the odd numbers. Such a client is in queue mode.
    is_odd: bool,
}

const FIRST_SIDE: Side = Side {
    stamp: FIRST,
    version: Version::V10,
    host: FIRST_HOST,
    lifetime: 1,
    binding: "U",
    sms: None,
    letter: "f",
    ended: FIRST,
    is_odd: false,
};

const LAST_SIDE: Side = Side {
    stamp: LAST,
    version: Version::V11,
    host: LAST_HOST,
    lifetime: 4_294_967_295,
    binding: "ABCDEFGH",
    sms: Some(251),
    letter: "l",
    ended: BEFORE_LAST,
    is_odd: true,
};

fn sms(alloc: Global, side: &Side) -> Result<Option<SmsNumber>, NoMemory> {
    match side.sms {
        None => Ok(None),
        Some(length) => Ok(SmsNumber::new(letters(alloc, "1", length)?)),
    }
}

fn writes(alloc: Global, side: &Side) -> Result<FieldWrites<SmsNumber, LinkText>, LinkFault> {
    let stamp = side.stamp;
    let sms = sms(alloc, side)?;
    let objects = link(alloc, side.letter)?;
    let binding = match Binding::read(side.binding) {
        None => None,
        Some(binding) => Some((stamp, binding)),
    };
    Ok(FieldWrites {
        base: Some(Base {
            version: side.version,
            queue: side.is_odd,
        }),
        address: Some((stamp, side.host)),
        seen: Some((stamp, Moment::START)),
        lifetime: Some((stamp, side.lifetime)),
        binding,
        sms: Some((stamp, sms)),
        objects: Some((stamp, objects)),
    })
}

fn fields(alloc: Global, side: &Side) -> Result<Fields, LinkFault>
    ensures { IfOk result (λ fields. KeepsAttributes (told_fields (Some fields))) }
{
    let watches = watches(alloc, side.is_odd)?;
    Ok(Fields {
        writes: writes(alloc, side)?,
        attributes: Parts::new(alloc),
        ended: Some(side.ended),
        watches,
    })
}

fn filled(alloc: Global, side: &Side) -> Result<Slot, LinkFault> {
    Ok(Slot::from_parts(alloc, FIRST, Some(fields(alloc, side)?))?)
}

fn both(one: Slot, other: Slot) -> Result<Slot, NoMemory> {
    let mut slot = one;
    slot.join_with(other)?;
    Ok(slot)
}

fn part(alloc: Global, side: &Side) -> Result<Slot, LinkFault> {
    let update = updated(alloc, side)?;
    Ok(both(filled(alloc, side)?, update)?)
}

/// All that a registration can have, of two slots that are joined in one order or the other.
pub(crate) fn whole(alloc: Global, last_first: bool) -> Result<Slot, LinkFault> {
    let first = part(alloc, &FIRST_SIDE)?;
    let last = part(alloc, &LAST_SIDE)?;
    if last_first {
        Ok(both(last, first)?)
    } else {
        Ok(both(first, last)?)
    }
}

fn has_the_last_fields(slot: &Slot) -> bool {
    let base = Base {
        version: Version::V11,
        queue: true,
    };
    let Some((LAST, binding)) = slot.binding() else {
        return false;
    };
    slot.stamp() == FIRST
        && slot.base() == Some(base)
        && slot.address() == Some((LAST, LAST_HOST))
        && slot.seen() == Some((LAST, Moment::START))
        && slot.ended() == Some(BEFORE_LAST)
        && slot.lifetime() == Some((LAST, 4_294_967_295))
        && binding.as_str() == "ABCDEFGH"
}

fn has_the_last_texts(slot: &Slot) -> bool {
    let Some((LAST, Some(sms))) = slot.sms() else {
        return false;
    };
    let Some((LAST, objects)) = slot.objects() else {
        return false;
    };
    is_letters(sms.as_str(), b'1', 251) && is_link(objects, b'l')
}

/// Whether the watch is found by its path, its token and its place, and behind the one before.
fn has_watch(slot: &Slot, number: u16) -> bool {
    let before = path(number.wrapping_sub(1));
    let next = slot.watch_after(Moment::START, before.as_ref());
    let Some(path) = path(number) else {
        return false;
    };
    let Some(watching) = slot.watching(&path) else {
        return false;
    };
    let watch = Some(Watch {
        token: token(number),
        path,
        accept: Some(number),
    });
    watching.stamp == token(number)
        && next == watch
        && slot.watch(Moment::START, token(number)) == watch
        && slot.token_at(usize::from(number)) == Some(token(number))
}

/// Whether the attribute at the place has its number as its value, and the stamp that wrote it.
fn has_attribute(slot: &Slot, number: u16) -> bool {
    let Some((name, last)) = slot.attributes().get(usize::from(number)) else {
        return false;
    };
    let stamp = if number % 2 == 0 { FIRST } else { LAST };
    let number_of = |text: &str| text.parse::<u16>().ok();
    last.write.0 == stamp
        && number_of(last.write.1.as_str()) == Some(number)
        && name.as_str().strip_prefix("n").and_then(number_of) == Some(number)
}

fn is_whole(slot: &Slot) -> bool {
    for number in 0..200u16 {
        if !has_watch(slot, number) || !has_attribute(slot, number) {
            return false;
        }
    }
    slot.watches().len() == 200
        && slot.attributes().len() == 200
        && has_the_last_fields(slot)
        && has_the_last_texts(slot)
}

/// Tries: Slot::join_with, Slot::watch_after, Slot::watching, Slot::stamp, Slot::base, Slot::address, Slot::seen
/// Tries: Slot::lifetime, Slot::binding, Slot::sms, Slot::objects, Slot::attributes, Slot::token_at, Slot::from_parts
#[test]
fn a_whole_slot_is_joined_in_both_orders(rt: HostRuntime) {
    for last_first in [false, true] {
        let slot = whole(rt.alloc(), last_first).expect(&rt, "a slot");
        assert!(rt; is_whole(&slot), "{last_first}");
    }
}

fn has_the_longest_texts(view: &View<'_>) -> bool {
    let Some(sms) = view.sms else {
        return false;
    };
    is_letters(view.endpoint, b'e', 252)
        && is_letters(sms, b'1', 251)
        && is_link(view.objects, b'l')
}

fn shows_the_last(seen: &Seen) -> bool {
    seen.id == FIRST
        && seen.address == LAST_HOST
        && seen.lifetime == 4_294_967_295
        && seen.binding.as_str() == "ABCDEFGH"
        && seen.queue
        && seen.attributes.as_slice().len() == 200
}

/// Tries: View::to_seen, Seen::as_view, AttributesView::of_writes, AttributesView::len, AttributesView::get
/// Tries: AttributesView::to_attributes, Attributes::as_view
#[test]
fn a_whole_slot_is_shown_and_copied(rt: HostRuntime) {
    let slot = whole(rt.alloc(), false).expect(&rt, "a slot");
    let endpoint = letters(rt.alloc(), "e", 252).expect(&rt, "memory");
    let view = slot.view(endpoint.as_str(), Moment::START);
    let seen = view
        .expect(&rt, "a view")
        .to_seen(rt.alloc())
        .expect(&rt, "memory");
    assert!(rt; shows_the_last(&seen));
    assert!(rt; has_the_longest_texts(&seen.as_view()));
}

fn no_fields(alloc: Global) -> Fields
    ensures { KeepsAttributes (told_fields (Some result)) }
{
    Fields {
        writes: FieldWrites {
            base: None,
            address: None,
            seen: None,
            lifetime: None,
            binding: None,
            sms: None,
            objects: None,
        },
        attributes: Parts::new(alloc),
        ended: None,
        watches: Parts::new(alloc),
    }
}

/// A registration of which nothing is known.
pub(crate) fn without_fields(alloc: Global) -> Result<Slot, NoMemory> {
    Slot::from_parts(alloc, FIRST, Some(no_fields(alloc)))
}

fn join(rt: &impl Abort, slot: &mut Slot, other: Slot) {
    slot.join_with(other).expect(rt, "memory for a join");
}

/// Tries: Slot::join_with, Slot::from_parts
#[test]
fn a_slot_without_fields_takes_the_others(rt: HostRuntime) {
    let mut slot = without_fields(rt.alloc()).expect(&rt, "memory");
    assert!(rt; !slot.is_removed() && slot.base().is_none(), "no fields");
    join(
        &rt,
        &mut slot,
        whole(rt.alloc(), false).expect(&rt, "a slot"),
    );
    assert!(rt; is_whole(&slot), "the others");
    join(
        &rt,
        &mut slot,
        without_fields(rt.alloc()).expect(&rt, "memory"),
    );
    assert!(rt; is_whole(&slot), "nothing more");
    let removed = Slot::from_parts(rt.alloc(), FIRST, None).expect(&rt, "memory");
    join(&rt, &mut slot, removed);
    assert!(rt; slot.is_removed(), "removed");
}

/// Whether so many letters are an endpoint, which keeps them, as its copy does.
fn is_endpoint(rt: &impl Abort, alloc: Global, length: usize) -> bool {
    let text = letters(alloc, "e", length).expect(rt, "memory");
    let Some(endpoint) = Endpoint::new(text) else {
        return false;
    };
    let copy = Endpoint::copy_of(alloc, endpoint.as_str()).expect(rt, "memory");
    is_letters(copy.as_str(), b'e', length)
}

/// The same of SMS numbers.
fn is_sms_number(rt: &impl Abort, alloc: Global, length: usize) -> bool {
    let text = letters(alloc, "1", length).expect(rt, "memory");
    let Some(number) = SmsNumber::new(text) else {
        return false;
    };
    let copy = SmsNumber::copy_of(alloc, number.as_str()).expect(rt, "memory");
    is_letters(copy.as_str(), b'1', length)
}

/// Tries: Endpoint::new, Endpoint::as_str, Endpoint::copy_of, SmsNumber::new, SmsNumber::copy_of, SmsNumber::as_str
#[test]
fn endpoints_and_sms_numbers_have_bounds(rt: HostRuntime) {
    for (length, is_one) in [(0, false), (1, true), (252, true), (253, false)] {
        assert_eq!(rt; is_endpoint(&rt, rt.alloc(), length), is_one, "{length}");
    }
    for (length, is_one) in [(0, true), (251, true), (252, false)] {
        assert_eq!(rt; is_sms_number(&rt, rt.alloc(), length), is_one, "{length}");
    }
}
