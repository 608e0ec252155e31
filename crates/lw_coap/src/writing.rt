ghost use Rattle.std.specs.Prelude.{◌≡◌, ◌≤◌, ◌<◌, ◌++◌, length, OnOk, IfOk};
ghost use Rattle.lw_coap.specs.Grammar.{IsSpelling};
ghost use Rattle.lw_coap.specs.Fits.{AreRising, options_length, Fits};
ghost use Rattle.lw_coap.specs.inner.Writing.{nibble_of, extension_of, option_bytes, options_bytes, payload_bytes, header_bytes, message_bytes};

use crate::limits::PAYLOAD_MARKER;
use crate::message::{LentMessage, LentOption, Message};
use crate::options::Options;
use crate::size::room_of;
use lw_stamp::NoMemory;
use std::alloc::Global;

/// The nibble of a delta or a length.
fn nibble(number: usize) -> u8
    ensures value { result ≡ nibble_of number }
    ensures below { result < 15 }
{
    if number < 13 {
        number as u8
    } else if number < 269 {
        13
    } else {
        14
    }
}

/// The bytes that extend the nibble of a delta or a length.
fn put_extension(out: &mut Vec<u8>, number: usize) -> Result<(), NoMemory>
    requires { number < 65536 }
    ensures { OnOk result (out.new.items ≡ out.old.items ++ extension_of number) }
{
    if number < 13 {
        return Ok(());
    }
    if number < 269 {
        out.push((number - 13) as u8)?;
        return Ok(());
    }
    out.extend_from_slice(&((number - 269) as u16).to_be_bytes())?;
    Ok(())
}

/// An option, behind an option of the number before.
fn put_option(out: &mut Vec<u8>, before: u16, option: &LentOption<'_>) -> Result<(), NoMemory>
    requires rising { before ≤ option.now.number }
    requires small { length option.now.value < 65536 }
    ensures { OnOk result (out.new.items ≡ out.old.items ++ option_bytes before option.now) }
{
    let delta = (option.number - before) as usize;
    let len = option.value.len();
    out.push(16 * nibble(delta) + nibble(len))?;
    put_extension(out, delta)?;
    put_extension(out, len)?;
    out.extend_from_slice(option.value)?;
    Ok(())
}

fn put_payload(out: &mut Vec<u8>, payload: &[u8]) -> Result<(), NoMemory>
    ensures { OnOk result (out.new.items ≡ out.old.items ++ payload_bytes payload.now) }
{
    if payload.is_empty() {
        return Ok(());
    }
    out.push(PAYLOAD_MARKER)?;
    out.extend_from_slice(payload)?;
    Ok(())
}

/// Options, one after another.
fn put_options(out: &mut Vec<u8>, options: &Options<'_>) -> Result<(), NoMemory>
    requires rising { AreRising 0 options.now }
    requires small { options_length 0 options.now ≤ 8192 }
    ensures { OnOk result (out.new.items ≡ out.old.items ++ options_bytes 0 options.now) }
{
    let mut before = 0;
    let mut rest = options.walk();
    while let Some(option) = rest.next() {
        put_option(out, before, &option)?;
        before = option.number;
    }
    Ok(())
}

fn put_header(out: &mut Vec<u8>, message: &LentMessage<'_>) -> Result<(), NoMemory>
    requires { length message.now.token ≤ 8 }
    ensures { OnOk result (out.new.items ≡ out.old.items ++ header_bytes message.now) }
{
    let token_length = message.token.len() as u8;
    out.push(64 + 16 * message.kind.number() + token_length)?;
    out.push(message.code)?;
    out.extend_from_slice(&message.mid.to_be_bytes())?;
    Ok(())
}

fn write(alloc: Global, message: &LentMessage<'_>) -> Result<Vec<u8>, NoMemory>
    requires { Fits message.now }
    ensures { IfOk result (λ bytes. bytes.items ≡ message_bytes message.now) }
{
    let mut out = Vec::with_capacity(alloc, room_of(message))?;
    put_header(&mut out, message)?;
    out.extend_from_slice(message.token)?;
    put_options(&mut out, &message.options)?;
    put_payload(&mut out, message.payload)?;
    Ok(out)
}

/// The one spelling of the message. `Message::fits` tells of an owned one whether there is one.
pub fn encode_lent(alloc: Global, message: &LentMessage<'_>) -> Result<Vec<u8>, NoMemory>
    requires { Fits message.now }
    ensures { IfOk result (λ bytes. IsSpelling bytes.items message.now) }
{
    write(alloc, message)
}

/// The one spelling of the message. `Message::fits` tells whether there is one.
pub fn encode(alloc: Global, message: &Message) -> Result<Vec<u8>, NoMemory>
    requires { Fits message.now }
    ensures { IfOk result (λ bytes. IsSpelling bytes.items message.now) }
{
    encode_lent(alloc, &message.lend())
}
