//! The requests that a node sends to a device.

ghost use Rattle.std.specs.Prelude.{◌≡◌, ◌<◌, ◌^◌, ◌++◌, ◌∷◌, map, IfOk, IfSome, OnOk};
ghost use Rattle.std.specs.Fmt.{decimal};
ghost use Rattle.std.specs.Int.Digits.{digits_of};
ghost use Rattle.lw_coap.specs.Grammar.{IsSpelling};
ghost use Rattle.lw_reg.specs.Path.{path_numbers};
ghost use Rattle.lw_node.specs.Effects.{get_of, number_option, segment, accepts};
ghost use Rattle.lw_node.specs.inner.Observe.{observe_number};

use lw_coap::codes::GET;
use lw_coap::option_numbers::{ACCEPT, OBSERVE, URI_PATH};
use lw_coap::{CoapOption, Kind, Message, encode};
use lw_reg::Path;
use lw_stamp::{NoMemory, Stamp};
use std::alloc::Global;

/// What a GET says of an observation (RFC 7641, section 2).
#[derive(Clone, Copy)]
pub(crate) enum Observe {
    Register,
    Deregister,
}

impl Observe {
    fn number(self) -> u16
        ensures { result ≡ observe_number self }
    {
        match self {
            Observe::Register => 0,
            Observe::Deregister => 1,
        }
    }
}

/// The fewest bytes of a number, none for 0 (RFC 7252, section 3.2).
#[tactic(auto, using(crate::proofs::Requests::digits_one, crate::proofs::Requests::digits_two))]
fn uint_bytes(alloc: Global, number: u16) -> Result<Vec<u8>, NoMemory>
    ensures { IfOk result (λ bytes. bytes.items ≡ digits_of 256 number) }
{
    if number == 0 {
        return Ok(Vec::new(alloc));
    }
    let [high, low] = number.to_be_bytes();
    if number < 256 {
        return Ok(vec![in alloc; low]?);
    }
    Ok(vec![in alloc; high, low]?)
}

fn number_option(alloc: Global, number: u16, value: u16) -> Result<CoapOption, NoMemory>
    ensures { IfOk result (λ o. o ≡ number_option number value) }
{
    Ok(CoapOption {
        number,
        value: uint_bytes(alloc, value)?,
    })
}

fn segment(alloc: Global, number: u16) -> Result<CoapOption, NoMemory>
    ensures { IfOk result (λ o. o ≡ segment number) }
{
    let text = format!(in alloc; "{number}")?;
    Ok(CoapOption {
        number: URI_PATH,
        value: text.into_bytes(),
    })
}

fn push_segments(
    options: &mut Vec<CoapOption>,
    alloc: Global,
    numbers: &[u16],
) -> Result<(), NoMemory>
    ensures { OnOk result (options.new.items ≡ options.old.items ++ map segment numbers.now) }
{
    for number in numbers {
        options.push(segment(alloc, *number)?)?;
    }
    Ok(())
}

fn options_of(
    alloc: Global,
    observe: Observe,
    path: &Path,
    accept: Option<u16>,
) -> Result<Vec<CoapOption>, NoMemory>
    ensures options { IfOk result (λ options.
        options.items ≡ number_option 6 (observe_number observe) ∷ (map segment (path_numbers path.now)
        ++ accepts accept)) }
    ensures accept { IfOk result (λ _. IfSome accept (λ format. format < 2 ^ 16)) }
{
    let mut options = vec![in alloc; number_option(alloc, OBSERVE, observe.number())?]?;
    push_segments(&mut options, alloc, path.numbers())?;
    if let Some(format) = accept {
        options.push(number_option(alloc, ACCEPT, format)?)?;
    }
    Ok(options)
}

/// A confirmable GET with the token.
pub(crate) fn get(
    alloc: Global,
    mid: u16,
    observe: Observe,
    token: &Stamp,
    path: &Path,
    accept: Option<u16>,
) -> Result<Vec<u8>, NoMemory>
    ensures { IfOk result (λ bytes.
        IsSpelling bytes.items (get_of mid (observe_number observe) token.now path.now accept)) }
{
    let message = Message {
        kind: Kind::Con,
        code: GET,
        mid,
        token: Vec::from_slice(alloc, &token.to_bytes())?,
        options: options_of(alloc, observe, path, accept)?,
        payload: Vec::new(alloc),
    };
    encode(alloc, &message)
}
