//! Lines of the input: MS ADDRESS HEX.

ghost use Rattle.std.specs.Prelude.{◌≡◌, Ok, IfOk, IfSome};
ghost use Rattle.std.specs.Fmt.{decimal};
ghost use Rattle.hex.specs.Hex.{decode_of};
ghost use Rattle.lw_stamp.specs.Moment.{ms_of};
ghost use Rattle.registry.specs.Line.{IsParted, IsSpelled, IsReceived};

use crate::fault::LineFault;
use hex::FromHexError;
use itoa::Buffer;
use lw_reg::Addr;
use lw_stamp::Moment;
use std::alloc::Global;
use std::str;

/// A datagram, when it came and from where.
#[derive(Drop)]
pub struct Received {
    pub moment: Moment,
    pub from: Addr,
    pub datagram: Vec<u8>,
}

/// What a line spells.
pub fn read(alloc: Global, line: &[u8]) -> Result<Received, LineFault>
    ensures { IfOk result (λ r. IsReceived r.moment r.from r.datagram.items line.now) }
{
    match str::from_utf8(line) {
        Ok(text) => read_text(alloc, text),
        Err(_) => Err(LineFault::Fields),
    }
}

fn read_text(alloc: Global, line: &str) -> Result<Received, LineFault>
    ensures { IfOk result (λ r. IsReceived r.moment r.from r.datagram.items line.now) }
{
    match three_fields(line) {
        Some((moment, address, digits)) => spelled(alloc, moment, address, digits),
        None => Err(LineFault::Fields),
    }
}

fn three_fields(text: &str) -> Option<(&str, &str, &str)>
    ensures { IfSome result (λ x. IsParted text.now x.0.now x.1.now x.2.now) }
{
    let (moment, rest) = text.split_once(' ')?;
    let (address, digits) = rest.split_once(' ')?;
    Some((moment, address, digits))
}

fn spelled(alloc: Global, moment: &str, address: &str, digits: &str) -> Result<Received, LineFault>
    ensures { IfOk result (λ r. IsSpelled r.moment r.from r.datagram.items moment.now address.now digits.now) }
{
    let Some(moment) = moment_of(moment) else {
        return Err(LineFault::Moment);
    };
    let Some(from) = Addr::read(address) else {
        return Err(LineFault::Address);
    };
    let datagram = bytes_of(alloc, digits)?;
    Ok(Received {
        moment,
        from,
        datagram,
    })
}

/// The moment of so many milliseconds. A number has one spelling: the one that is printed.
fn moment_of(text: &str) -> Option<Moment>
    ensures { IfSome result (λ moment. text.now ≡ decimal (ms_of moment)) }
{
    let moment = Moment::new(text.parse().ok()?)?;
    let mut digits = Buffer::new();
    if digits.format(moment.ms()) == text {
        Some(moment)
    } else {
        None
    }
}

fn bytes_of(alloc: Global, digits: &str) -> Result<Vec<u8>, LineFault>
    ensures { IfOk result (λ bytes. decode_of digits.now ≡ Ok bytes.items) }
{
    match hex::decode(alloc, digits.as_bytes()) {
        Ok(bytes) => Ok(bytes),
        Err(FromHexError::OutOfMemory) => Err(LineFault::NoMemory),
        Err(_) => Err(LineFault::Hex),
    }
}
