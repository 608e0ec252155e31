mod lines;
mod texts;

use lw_json::*;
use lw_link::LinkText;
use lw_node::Notice;
use lw_reg::{Addr, Attributes, AttributesView, Binding, Path, Text, Version, View, Watch};
use lw_stamp::{Moment, NoMemory, Stamp};
use std::alloc::Global;
use std::process::Abort;

/// The first stamp of node 1, the identifier of its first registration.
const FIRST: Stamp = Stamp {
    counter: 1,
    node: 1,
};

const THIRD: Stamp = Stamp {
    counter: 3,
    node: 1,
};

/// The greatest stamp.
const LAST: Stamp = Stamp {
    counter: 281_474_976_710_655,
    node: 65_535,
};

const LOCAL: Addr = Addr::V4 {
    address: [127, 0, 0, 1],
    port: 5683,
};

fn registration<'a>(endpoint: &'a str, objects: &'a LinkText) -> View<'a> {
    View {
        endpoint,
        id: FIRST,
        address: LOCAL,
        seen: Moment::START,
        lifetime: 60,
        version: Version::V11,
        binding: Binding::U,
        queue: false,
        sms: None,
        objects,
        attributes: AttributesView::of_writes(&[]),
    }
}

/// A registration with other values in all but its identifier.
fn other_registration<'a>(endpoint: &'a str, objects: &'a LinkText) -> View<'a> {
    let mut view = registration(endpoint, objects);
    view.address = Addr::V6 {
        address: [0x20, 1, 0x0d, 0xb8, 0, 0, 0, 0, 0, 0, 0, 0, 0, 0, 0, 1],
        port: 65535,
    };
    view.seen = Moment::new(Moment::LAST_MS).unwrap_or(Moment::START);
    view.lifetime = 4_294_967_295;
    view.version = Version::V10;
    view.queue = true;
    view.sms = Some("+49");
    view
}

const SHOWN: &str =
    r#"{"address":"127.0.0.1:5683","attributes":{},"binding":"U","endpoint":"a","id":"0000000000010001","lifetime":60,"lwm2m":"1.1","objects":"</3/0>","queue":false,"seen":0,"sms":null}"#;

/// The text was made, and is as wanted.
fn is(rt: &impl Abort, text: Result<String, NoMemory>, want: &str) {
    let text = text.expect(rt, "memory");
    assert_eq!(rt; text.as_str(), want);
}

fn links(rt: &impl Abort, alloc: Global, list: &[u8]) -> LinkText {
    assert!(rt; list.len() <= 8_192);
    LinkText::read(alloc, list).expect(rt, "a list of links")
}

fn text(rt: &impl Abort, alloc: Global, text: &str) -> Text {
    Text::copy_of(alloc, text).expect(rt, "memory")
}

/// Attributes of names and values.
fn attributes(rt: &impl Abort, alloc: Global, texts: &[(&str, &str)]) -> Attributes {
    let mut pairs = Vec::new(alloc);
    for (name, value) in texts {
        let pair = (text(rt, alloc, name), text(rt, alloc, value));
        pairs.push(pair).expect(rt, "memory");
    }
    Attributes::from_pairs(pairs).expect(rt, "attributes")
}

/// A list of 256 links, of 7,909 bytes.
fn long_list(rt: &impl Abort, alloc: Global) -> LinkText {
    let others = r#",</65534/65534>;ver="1.0 \"x\"""#.repeat(alloc, 255);
    let mut list = String::from_str(alloc, "</0>").expect(rt, "memory");
    list.push_str(others.expect(rt, "memory").as_str())
        .expect(rt, "memory");
    let list = list.as_bytes().get(..7909).expect(rt, "the list");
    links(rt, alloc, list)
}

fn path(rt: &impl Abort, numbers: &[u16]) -> Path {
    Path::new(numbers).expect(rt, "a path")
}

fn watch(rt: &impl Abort, numbers: &[u16], token: Stamp, accept: Option<u16>) -> Watch {
    Watch {
        token,
        path: path(rt, numbers),
        accept,
    }
}

/// What a device tells of `/3/0`, which it sends as one byte.
fn notice(rt: &impl Abort, alloc: Global) -> Notice {
    Notice {
        token: THIRD,
        id: FIRST,
        endpoint: text(rt, alloc, "a"),
        path: path(rt, &[3, 0]),
        code: 69,
        observe: Some(1),
        format: None,
        ended: false,
        payload: b"1".to_vec(alloc).expect(rt, "memory"),
    }
}

const NOTICE: &str =
    r#"{"code":69,"content_format":null,"ended":false,"endpoint":"a","id":"0000000000010001","observe":1,"path":"/3/0","payload":"31","token":"0000000000030001"}"#;
