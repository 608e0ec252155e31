//! The device object of each device is observed.

ghost use Rattle.std.specs.Prelude.{◌≡◌, ◌↔◌, [], ◌∷◌, IfOk, IsTrue, string_bytes};
ghost use Rattle.lw_stamp.specs.Moment.{ms_of};
ghost use Rattle.lw_reg.specs.Path.{path_numbers};
ghost use Rattle.registry.specs.Steps.{IsObserved, ObservesRegistered, ObservesDevice};
ghost use Rattle.registry.specs.Texts.{send_line, HasDevice};

use crate::event::Event;
use crate::fault::LineFault;
use lw_node::{Node, Outgoing, Path, Seen};
use lw_stamp::{Moment, NoMemory, Stamp};
use std::alloc::Global;

/// Observes the device object of what has registered, if it has one: the line of the request that is to be sent.
pub fn observe(
    alloc: Global,
    node: &mut Node,
    now: Moment,
    event: &Event,
    mid: u16,
) -> Result<String, LineFault>
    ensures { IfOk result (λ text. IsObserved node.old (ms_of now) mid event.now (string_bytes text) node.new) }
{
    match event {
        Event::Registered(seen) => observe_registered(alloc, node, now, seen, mid),
        Event::Updated(_) | Event::Removed(_, _) | Event::Nothing => Ok(String::new(alloc)),
    }
}

fn observe_registered(
    alloc: Global,
    node: &mut Node,
    now: Moment,
    seen: &Seen,
    mid: u16,
) -> Result<String, LineFault>
    ensures { IfOk result (λ text. ObservesRegistered node.old (ms_of now) mid seen.now (string_bytes text) node.new) }
{
    if !has_device(seen.objects.as_str()) {
        return Ok(String::new(alloc));
    }
    observe_device(alloc, node, now, seen.id, mid)
}

fn observe_device(
    alloc: Global,
    node: &mut Node,
    now: Moment,
    id: Stamp,
    mid: u16,
) -> Result<String, LineFault>
    ensures { IfOk result (λ text. ObservesDevice node.old (ms_of now) mid id (string_bytes text) node.new) }
{
    match node.observe(now, id, device_path(), None, mid) {
        Ok(request) => Ok(send_line(alloc, &request)?),
        Err(fault) => Err(LineFault::NotObserved(fault)),
    }
}

fn has_device(objects: &str) -> bool
    ensures { IsTrue result ↔ HasDevice objects.now }
{
    objects.contains("</3/0>")
}

/// The device object, with the manufacturer, the battery and the errors of a device (LwM2M 1.1 Core, appendix E.4).
fn device_path() -> Path
    ensures { path_numbers result ≡ 3 ∷ 0 ∷ [] }
{
    match Path::new(&[3, 0]) {
        Some(path) => path,
        None => unreachable!(),
    }
}

fn send_line(alloc: Global, request: &Outgoing) -> Result<String, NoMemory>
    ensures { IfOk result (λ text. string_bytes text ≡ send_line request.now) }
{
    let address = request.to.print(alloc)?;
    let bytes = hex::encode(alloc, request.bytes.as_slice())?;
    Ok(format!(in alloc; "send {address} {bytes}\n")?)
}
