//! Meanings in words.

use lw_link::LinkText;
use lw_reg::{Attributes, Binding, GivenSettings, Settings, SmsNumber};
use lw_request::{Asked, Report};
use lw_stamp::Stamp;
use std::alloc::Global;
use std::fmt::Write;
use std::process::Abort;

/// A number, or a dash where there is none.
fn number(rt: &impl Abort, alloc: Global, number: Option<u32>) -> String {
    let text = match number {
        Some(number) => format!(in alloc; "{number}"),
        None => String::from_str(alloc, "-"),
    };
    text.expect(rt, "memory")
}

/// A stamp in hex, six bytes of counter and two of node; a dash where there is none.
fn id(rt: &impl Abort, alloc: Global, id: Option<Stamp>) -> String {
    let text = match id {
        Some(Stamp { counter, node }) => format!(in alloc; "{counter:012x}{node:04x}"),
        None => String::from_str(alloc, "-"),
    };
    text.expect(rt, "memory")
}

fn told(rt: &impl Abort, alloc: Global, report: &Report) -> String {
    let Report {
        kind,
        mid,
        code,
        ..
    } = report;
    let token = hex::encode(alloc, &report.token).expect(rt, "memory");
    let payload = hex::encode(alloc, &report.payload).expect(rt, "memory");
    let observe = number(rt, alloc, report.observe);
    let format = match report.format {
        Some(format) => number(rt, alloc, Some(u32::from(format))),
        None => number(rt, alloc, None),
    };
    let text = format!(in alloc;
        "report {kind:?} {mid} [{token}] {code} {observe} {format} [{payload}]"
    );
    text.expect(rt, "memory")
}

fn binding_of(binding: &Option<Binding>) -> &str {
    match binding {
        Some(binding) => binding.as_str(),
        None => "-",
    }
}

fn sms_of(sms: &Option<SmsNumber>) -> &str {
    match sms {
        Some(sms) => sms.as_str(),
        None => "-",
    }
}

fn objects_of(objects: &Option<LinkText>) -> &str {
    match objects {
        Some(objects) => objects.as_str(),
        None => "-",
    }
}

/// A space and the attribute, for each of them.
fn attributes_of(rt: &impl Abort, alloc: Global, attributes: &Attributes) -> String {
    let mut text = String::new(alloc);
    for attribute in attributes.as_slice() {
        let (name, value) = (attribute.0.as_str(), attribute.1.as_str());
        write!(text, " {name}={value}").expect(rt, "memory");
    }
    text
}

fn registered(
    rt: &impl Abort,
    alloc: Global,
    endpoint: &str,
    version: &str,
    queue: bool,
    settings: &Settings,
) -> String {
    let lifetime = settings.lifetime;
    let binding = settings.binding.as_str();
    let sms = sms_of(&settings.sms);
    let objects = settings.objects.as_str();
    let attributes = attributes_of(rt, alloc, &settings.attributes);
    let text = format!(in alloc;
        "register {endpoint} {version} {queue} {lifetime} {binding} {sms} {objects}{attributes}"
    );
    text.expect(rt, "memory")
}

fn updated(rt: &impl Abort, alloc: Global, of: Option<Stamp>, settings: &GivenSettings) -> String {
    let of = id(rt, alloc, of);
    let lifetime = number(rt, alloc, settings.lifetime);
    let binding = binding_of(&settings.binding);
    let sms = sms_of(&settings.sms);
    let objects = objects_of(&settings.objects);
    let attributes = attributes_of(rt, alloc, &settings.attributes);
    let text = format!(in alloc; "update {of} {lifetime} {binding} {sms} {objects}{attributes}");
    text.expect(rt, "memory")
}

fn deregistered(rt: &impl Abort, alloc: Global, of: Option<Stamp>) -> String {
    let of = id(rt, alloc, of);
    format!(in alloc; "deregister {of}").expect(rt, "memory")
}

/// A meaning in words: its name and its fields. A refusal has but its name.
pub(super) fn shown(rt: &impl Abort, alloc: Global, asked: &Asked) -> String {
    let name = match asked {
        Asked::Register {
            endpoint,
            version,
            queue,
            settings,
        } => {
            let (endpoint, version) = (endpoint.as_str(), version.as_str());
            return registered(rt, alloc, endpoint, version, *queue, settings);
        }
        Asked::Update { id, settings } => return updated(rt, alloc, *id, settings),
        Asked::Deregister { id } => return deregistered(rt, alloc, *id),
        Asked::Report(report) => return told(rt, alloc, report),
        Asked::Refuse(_) => "refuse",
        Asked::Ping => "ping",
        Asked::Reject => "reject",
        Asked::Ignore => "ignore",
    };
    String::from_str(alloc, name).expect(rt, "memory")
}
