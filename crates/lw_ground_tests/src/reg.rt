use lw_reg::*;
use std::alloc::Global;
use std::process::Abort;

mod attributes;
mod slots;
pub(crate) mod whole;

fn is_printed(rt: &impl Abort, alloc: Global, address: Addr, text: &str) -> bool {
    let printed = address.print(alloc).expect(rt, "memory");
    Addr::read(text) == Some(address) && printed.as_str() == text
}

static ADDRESSES: [(&str, Addr); 7] = [
    (
        "127.0.0.1:5683",
        Addr::V4 {
            address: [127, 0, 0, 1],
            port: 5683,
        },
    ),
    (
        "0.0.0.0:0",
        Addr::V4 {
            address: [0; 4],
            port: 0,
        },
    ),
    (
        "255.255.255.255:65535",
        Addr::V4 {
            address: [255; 4],
            port: 65_535,
        },
    ),
    (
        "[0000:0000:0000:0000:0000:0000:0000:0001]:5683",
        Addr::V6 {
            address: [0, 0, 0, 0, 0, 0, 0, 0, 0, 0, 0, 0, 0, 0, 0, 1],
            port: 5683,
        },
    ),
    (
        "[ffff:ffff:ffff:ffff:ffff:ffff:ffff:ffff]:65535",
        Addr::V6 {
            address: [255; 16],
            port: 65_535,
        },
    ),
    (
        "[0000:0000:0000:0000:0000:0000:0000:0000]:0",
        Addr::V6 {
            address: [0; 16],
            port: 0,
        },
    ),
    (
        "[2001:0db8:0000:0000:0000:0000:0000:00ff]:0",
        Addr::V6 {
            address: [0x20, 1, 0x0d, 0xb8, 0, 0, 0, 0, 0, 0, 0, 0, 0, 0, 0, 0xff],
            port: 0,
        },
    ),
];

static NO_ADDRESSES: [&str; 22] = [
    "",
    "127.0.0.1",
    "127.0.0.1:",
    "127.0.0.1:65536",
    "127.0.0.1:05683",
    "127.0.0.01:1",
    "256.0.0.1:1",
    "1.2.3:4",
    "1.2.3.4.5:6",
    "1.2.3.4:5 ",
    " 1.2.3.4:5",
    "+1.2.3.4:5",
    "1.2.3.4:+5",
    "1..3.4:5",
    "[::1]:5683",
    "[2001:0DB8:0000:0000:0000:0000:0000:00ff]:0",
    "[2001:db8:0000:0000:0000:0000:0000:00ff]:0",
    "[2001:0db8:0000:0000:0000:0000:00ff]:0",
    "[2001:0db8:0000:0000:0000:0000:0000:0000:00ff]:0",
    "2001:0db8:0000:0000:0000:0000:0000:00ff:0",
    "[2001:0db8:0000:0000:0000:0000:0000:00ff]5683",
    "[2001:0db8:0000:0000:0000:0000:0000:00ff]:",
];

/// Tries: Addr::print, Addr::read
#[test]
fn addresses_are_read_and_printed(rt: HostRuntime) {
    for (text, address) in &ADDRESSES {
        assert!(rt; is_printed(&rt, rt.alloc(), *address, text), "{text}");
    }
    for text in &NO_ADDRESSES {
        assert!(rt; Addr::read(text).is_none(), "{text}");
    }
}

const LOW: Addr = Addr::V4 {
    address: [9, 9, 9, 9],
    port: 1,
};

const OTHER_PORT: Addr = Addr::V4 {
    address: [9, 9, 9, 9],
    port: 2,
};

const OTHER_BYTES: Addr = Addr::V4 {
    address: [9, 9, 10, 0],
    port: 0,
};

const OTHER_FAMILY: Addr = Addr::V6 {
    address: [0; 16],
    port: 0,
};

static BINDINGS: [&str; 4] = ["U", "UQ", "T", "ABCDEFGH"];

static NO_BINDINGS: [&str; 6] = ["", "ABCDEFGHI", "u", "U1", "É", "U "];

static NO_VERSIONS: [&str; 5] = ["", "1", "1.2", "1.10", "v1.0"];

fn is_binding(text: &str) -> bool {
    match Binding::read(text) {
        None => false,
        Some(binding) => binding.as_str() == text,
    }
}

fn is_version(text: &str, version: Version) -> bool {
    Version::read(text) == Some(version) && version.as_str() == text
}

static VERSIONS: [(&str, Version); 2] = [("1.0", Version::V10), ("1.1", Version::V11)];

/// Tries: Binding::read, Binding::as_str, Binding::default, Version::read, Version::as_str
#[test]
fn bindings_and_versions_have_texts(rt: HostRuntime) {
    for text in &BINDINGS {
        assert!(rt; is_binding(text), "{text}");
    }
    for text in &NO_BINDINGS {
        assert!(rt; Binding::read(text).is_none(), "{text}");
    }
    assert!(rt; Binding::default() == Binding::U);
    for (text, version) in &VERSIONS {
        assert!(rt; is_version(text, *version), "{text}");
    }
    for text in &NO_VERSIONS {
        assert!(rt; Version::read(text).is_none(), "{text}");
    }
}

/// Tries: laws::addresses_are_ordered, laws::versions_are_ordered
#[test]
fn addresses_and_versions_are_ordered(rt: HostRuntime) {
    assert!(rt; LOW < OTHER_PORT, "the port");
    assert!(rt; OTHER_PORT < OTHER_BYTES, "the bytes");
    assert!(rt; OTHER_BYTES < OTHER_FAMILY, "the family");
    assert!(rt; Version::V10 < Version::V11, "the version");
    assert!(rt; Binding::read("T") < Some(Binding::U), "the binding");
}
