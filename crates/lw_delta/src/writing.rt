//! The bytes of a slot.

ghost use Rattle.std.specs.Prelude.{◌≡◌, ◌<◌, ◌≤◌, ◌++◌, ◌^◌, ◌∷◌, [], length, OnOk, is_some, IfSome};
ghost use Rattle.lw_reg.specs.Reading.{sms_of, objects_of};
ghost use Rattle.lw_reg.specs.Attribute.{IsAttribute};
ghost use Rattle.lw_reg.specs.Addr.{IsAddr, IsHost};
ghost use Rattle.lw_reg.specs.Endpoint.{IsEndpoint};
ghost use Rattle.lw_delta.specs.Writable.{IsOwnText, IsOwnObjects, FieldsTyped, AttributeTyped, AcceptTyped, BehindTyped, IsTyped};
ghost use Rattle.lw_delta.specs.Form.{latest};
ghost use Rattle.lw_delta.specs.Values.{behind_of};
ghost use Rattle.lw_delta.specs.Writing.{Begins, number48_bytes, number16_bytes, number32_bytes, base_byte, addr_bytes, moment_bytes, text_bytes, binding_bytes, sms_bytes, objects_bytes, written_bytes, numbers_bytes, path_bytes, attribute_bytes, accept_bytes, watch_bytes, behind_bytes, flag_if, field_flags, flags_byte, fields_bytes, slot_bytes};
ghost use Rattle.lw_delta.specs.inner.Writing.{slot_head_bytes};

use crate::fields::{ADDRESS, BASE, BINDING, LIFETIME, OBJECTS, SEEN, SMS};
use crate::put::{Put, PutEntry, put_all, put_byte, put_bytes, put_present};
use crate::slots::REMOVED;
use crate::watches::{CANCELLED, OBSERVED};
use lw_join::{Last, Once, OrGone};
use lw_link::LinkText;
use lw_reg::{Addr, Base, Binding, Path, Slot, SmsNumber, Version, Watching};
use lw_stamp::{Moment, NoMemory, Text};

pub(crate) fn put_number48(out: &mut Vec<u8>, number: u64) -> Result<(), NoMemory>
    ensures written { OnOk result (out.new.items ≡ out.old.items ++ number48_bytes number) }
    ensures kept { Begins out.old.items out.new.items }
{
    let [_, _, a, b, c, d, e, f] = number.to_be_bytes();
    put_bytes(out, &[a, b, c, d, e, f])
}

fn put_number16(out: &mut Vec<u8>, number: u16) -> Result<(), NoMemory>
    ensures written { OnOk result (out.new.items ≡ out.old.items ++ number16_bytes number) }
    ensures kept { Begins out.old.items out.new.items }
{
    put_bytes(out, &number.to_be_bytes())
}

/// A length of one byte, and the text.
fn put_text(out: &mut Vec<u8>, text: &str) -> Result<(), NoMemory>
    requires { length text.now ≤ 255 }
    ensures written { OnOk result (out.new.items ≡ out.old.items ++ text_bytes text.now) }
    ensures own { IsOwnText text.now }
    ensures kept { Begins out.old.items out.new.items }
{
    put_byte(out, text.len() as u8)?;
    put_bytes(out, text.as_bytes())
}

/// Bit 0 for version 1.1, bit 1 for queue mode.
fn base_byte(base: Base) -> u8
    ensures { result ≡ base_byte base }
{
    let version = match base.version {
        Version::V10 => 0,
        Version::V11 => 1,
    };
    let queue = if base.queue { 2 } else { 0 };
    version + queue
}

impl Put for Base {
    ghost bytes = { λ base. base_byte base ∷ [] };

    ghost typed = { λ _. Unit {0} };

    fn put(&self, out: &mut Vec<u8>) -> Result<(), NoMemory> {
        put_byte(out, base_byte(*self))
    }
}

/// The family, the address and the port.
fn put_host(out: &mut Vec<u8>, family: u8, address: &[u8], port: u16) -> Result<(), NoMemory>
    ensures written { OnOk result (out.new.items ≡ out.old.items ++ family ∷ (address.now ++ number16_bytes port)) }
    ensures typed { OnOk result (IsHost (length address.now) address.now port) }
    ensures kept { Begins out.old.items out.new.items }
{
    put_byte(out, family)?;
    put_bytes(out, address)?;
    put_number16(out, port)
}

fn put_v4(out: &mut Vec<u8>, address: [u8; 4], port: u16) -> Result<(), NoMemory>
    ensures written { OnOk result (out.new.items ≡ out.old.items ++ addr_bytes (Addr.V4 address port)) }
    ensures typed { OnOk result (IsAddr (Addr.V4 address port)) }
    ensures kept { Begins out.old.items out.new.items }
{
    put_host(out, 4, &address, port)
}

fn put_v6(out: &mut Vec<u8>, address: [u8; 16], port: u16) -> Result<(), NoMemory>
    ensures written { OnOk result (out.new.items ≡ out.old.items ++ addr_bytes (Addr.V6 address port)) }
    ensures typed { OnOk result (IsAddr (Addr.V6 address port)) }
    ensures kept { Begins out.old.items out.new.items }
{
    put_host(out, 6, &address, port)
}

impl Put for Addr {
    ghost bytes = { addr_bytes };

    ghost typed = { IsAddr };

    fn put(&self, out: &mut Vec<u8>) -> Result<(), NoMemory> {
        match *self {
            Addr::V4 { address, port } => put_v4(out, address, port),
            Addr::V6 { address, port } => put_v6(out, address, port),
        }
    }
}

impl Put for Moment {
    ghost bytes = { moment_bytes };

    ghost typed = { λ _. Unit {0} };

    fn put(&self, out: &mut Vec<u8>) -> Result<(), NoMemory> {
        put_number48(out, self.ms())
    }
}

/// A lifetime in seconds.
impl Put for u32 {
    ghost bytes = { number32_bytes };

    ghost typed = { λ n. n < 2 ^ 32 };

    fn put(&self, out: &mut Vec<u8>) -> Result<(), NoMemory> {
        put_bytes(out, &self.to_be_bytes())
    }
}

impl Put for Binding {
    ghost bytes = { binding_bytes };

    ghost typed = { λ _. Unit {0} };

    fn put(&self, out: &mut Vec<u8>) -> Result<(), NoMemory> {
        put_text(out, self.as_str())
    }
}

impl<'a> Put for &'a SmsNumber {
    ghost bytes = { λ number. text_bytes number.now };

    ghost typed = { λ number. IsOwnText number.now × (length number.now ≤ 251) };

    fn put(&self, out: &mut Vec<u8>) -> Result<(), NoMemory> {
        put_text(out, self.as_str())
    }
}

impl<'a> Put for &'a LinkText {
    ghost bytes = { λ objects. objects_bytes objects.now };

    ghost typed = { λ objects. IsOwnObjects objects.now };

    fn put(&self, out: &mut Vec<u8>) -> Result<(), NoMemory> {
        let text = self.as_str();
        put_number16(out, text.len() as u16)?;
        put_bytes(out, text.as_bytes())
    }
}

fn put_sms(out: &mut Vec<u8>, slot: &Slot) -> Result<(), NoMemory>
    ensures written { OnOk result (out.new.items ≡ out.old.items ++ written_bytes sms_bytes (sms_of slot.now)) }
    ensures typed { OnOk result (IfSome (sms_of slot.now) (λ w. IfSome w.1 (λ text. IsOwnText text
        × (length text ≤ 251)))) }
    ensures kept { Begins out.old.items out.new.items }
{
    put_present(out, slot.sms())
}

fn put_objects(out: &mut Vec<u8>, slot: &Slot) -> Result<(), NoMemory>
    ensures written { OnOk result (out.new.items ≡ out.old.items ++ written_bytes objects_bytes (objects_of slot.now)) }
    ensures typed { OnOk result (IfSome (objects_of slot.now) (λ w. IsOwnObjects w.1)) }
    ensures kept { Begins out.old.items out.new.items }
{
    put_present(out, slot.objects())
}

fn put_fields(out: &mut Vec<u8>, slot: &Slot) -> Result<(), NoMemory>
    ensures written { OnOk result (out.new.items ≡ out.old.items ++ fields_bytes slot.now) }
    ensures typed { OnOk result (FieldsTyped slot.now) }
    ensures kept { Begins out.old.items out.new.items }
{
    put_present(out, slot.base())?;
    put_present(out, slot.address())?;
    put_present(out, slot.seen())?;
    put_present(out, slot.lifetime())?;
    put_present(out, slot.binding())?;
    put_sms(out, slot)?;
    put_objects(out, slot)
}

fn put_numbers(out: &mut Vec<u8>, numbers: &[u16]) -> Result<(), NoMemory>
    ensures written { OnOk result (out.new.items ≡ out.old.items ++ numbers_bytes numbers.now) }
    ensures kept { Begins out.old.items out.new.items }
{
    for number in numbers {
        put_number16(out, *number)?;
    }
    Ok(())
}

impl Put for Path {
    ghost bytes = { path_bytes };

    ghost typed = { λ _. Unit {0} };

    fn put(&self, out: &mut Vec<u8>) -> Result<(), NoMemory> {
        let numbers = self.numbers();
        put_byte(out, numbers.len() as u8)?;
        put_numbers(out, numbers)
    }
}

/// A Content-Format.
impl Put for u16 {
    ghost bytes = { number16_bytes };

    ghost typed = { λ n. n < 2 ^ 16 };

    fn put(&self, out: &mut Vec<u8>) -> Result<(), NoMemory> {
        put_number16(out, *self)
    }
}

/// Of a cancelled watch the flag alone.
fn put_accept(out: &mut Vec<u8>, accept: &OrGone<Once<u16>>) -> Result<(), NoMemory>
    ensures written { OnOk result (out.new.items ≡ out.old.items ++ accept_bytes accept.now) }
    ensures typed { OnOk result (AcceptTyped accept.now) }
    ensures kept { Begins out.old.items out.new.items }
{
    match accept {
        OrGone::Gone => put_byte(out, CANCELLED),
        OrGone::Here(accept) => {
            put_byte(out, OBSERVED)?;
            accept.value.put(out)
        }
    }
}

/// The last write of an attribute.
impl PutEntry for (Text, Last<Text>) {
    ghost bytes = { attribute_bytes };

    ghost fits = { λ w. IsAttribute w.0 w.1.write.1 };

    ghost typed = { AttributeTyped };

    fn put_entry(&self, out: &mut Vec<u8>) -> Result<(), NoMemory> {
        let (name, last) = self;
        let (stamp, value) = &last.write;
        put_text(out, name.as_str())?;
        stamp.put(out)?;
        put_text(out, value.as_str())
    }
}

/// A watch.
impl PutEntry for (Path, Watching) {
    ghost bytes = { watch_bytes };

    ghost fits = { λ _. Unit {0} };

    ghost typed = { λ w. AcceptTyped w.1.value };

    fn put_entry(&self, out: &mut Vec<u8>) -> Result<(), NoMemory> {
        let (path, watching) = self;
        path.put(out)?;
        watching.stamp.put(out)?;
        put_accept(out, &watching.value)
    }
}

/// What stands behind the fields of a slot.
fn put_behind(out: &mut Vec<u8>, slot: &Slot) -> Result<(), NoMemory>
    ensures written { OnOk result (out.new.items ≡ out.old.items ++ behind_bytes latest (behind_of slot.now)) }
    ensures typed { OnOk result (BehindTyped (behind_of slot.now)) }
    ensures kept { Begins out.old.items out.new.items }
{
    put_all(out, slot.attributes())?;
    slot.ended().put(out)?;
    put_all(out, slot.watches())
}

fn flag_if(flag: u8, set: bool) -> u8
    ensures value { result ≡ flag_if flag set }
    ensures within { result ≤ flag }
{
    if set { flag } else { 0 }
}

fn has_sms(slot: &Slot) -> bool
    ensures { result ≡ is_some (sms_of slot.now) }
{
    slot.sms().is_some()
}

fn has_objects(slot: &Slot) -> bool
    ensures { result ≡ is_some (objects_of slot.now) }
{
    slot.objects().is_some()
}

/// The flags of the fields that are there.
fn field_flags(slot: &Slot) -> u8
    ensures { result ≡ field_flags slot.now }
{
    flag_if(BASE, slot.base().is_some())
        + flag_if(ADDRESS, slot.address().is_some())
        + flag_if(SEEN, slot.seen().is_some())
        + flag_if(LIFETIME, slot.lifetime().is_some())
        + flag_if(BINDING, slot.binding().is_some())
        + flag_if(SMS, has_sms(slot))
        + flag_if(OBJECTS, has_objects(slot))
}

/// Of a removed registration the flag alone.
fn flags_byte(slot: &Slot) -> u8
    ensures { result ≡ flags_byte slot.now }
{
    if slot.is_removed() {
        return REMOVED;
    }
    field_flags(slot)
}

/// What stands before the fields of a slot.
fn put_head(out: &mut Vec<u8>, endpoint: &str, slot: &Slot) -> Result<(), NoMemory>
    requires { IsEndpoint endpoint.now }
    ensures written { OnOk result (out.new.items ≡ out.old.items ++ slot_head_bytes (endpoint.now, slot.now)) }
    ensures named { OnOk result (IsOwnText endpoint.now) }
    ensures kept { Begins out.old.items out.new.items }
{
    put_byte(out, 1)?;
    put_text(out, endpoint)?;
    slot.stamp().put(out)?;
    put_byte(out, flags_byte(slot))
}

/// A slot, and the 01 before it. Refused, a front of it may stand there.
pub(crate) fn put_slot(out: &mut Vec<u8>, endpoint: &str, slot: &Slot) -> Result<(), NoMemory>
    requires { IsEndpoint endpoint.now }
    ensures written { OnOk result (out.new.items ≡ out.old.items ++ 1 ∷ slot_bytes latest (endpoint.now, slot.now)) }
    ensures typed { OnOk result (IsTyped slot.now) }
    ensures named { OnOk result (IsOwnText endpoint.now) }
    ensures kept { Begins out.old.items out.new.items }
{
    put_head(out, endpoint, slot)?;
    put_fields(out, slot)?;
    put_behind(out, slot)
}
