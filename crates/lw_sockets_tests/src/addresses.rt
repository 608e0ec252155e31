//! Addresses of sockets as they are kept.

use lw_server::Addr;
use lw_udp::{address_of, socket_address_of};
use std::net::{Ipv6Addr, SocketAddr, SocketAddrV6};
use std::process::Abort;

/// An IPv6 address and its scope; the address that is kept; the address and the scope that come back.
static SCOPES: [(&str, u32, &str, &str, u32); 9] = [
    ("fe80::1", 3, "fe80:3::1", "fe80::1", 3),
    ("fe80::1", 0, "fe80::1", "fe80::1", 0),
    (
        "fe80::1:2:3:4",
        256,
        "fe80:100::1:2:3:4",
        "fe80::1:2:3:4",
        256,
    ),
    ("febf::1", 65_535, "febf:ffff::1", "febf::1", 65_535),
    ("fe80::1", 65_536, "fe80::1", "fe80::1", 0),
    ("fe80:7::1", 3, "fe80:7::1", "fe80::1", 7),
    ("fec0::1", 3, "fec0::1", "fec0::1", 0),
    ("fe7f::1", 3, "fe7f::1", "fe7f::1", 0),
    ("2001:db8::1", 3, "2001:db8::1", "2001:db8::1", 0),
];

/// The socket at the IPv6 address, with this scope.
fn socket_at(rt: &impl Abort, text: &str, scope: u32) -> SocketAddr {
    let ip: Ipv6Addr = text.parse().expect(rt, "an address");
    SocketAddr::V6(SocketAddrV6::new(ip, 5683, 0, scope))
}

/// The scope of an address of one link is kept in its second segment, where it fits.
/// Tries: lw_udp::address_of, lw_udp::socket_address_of
#[test]
fn the_scope_of_a_link_is_kept(rt: HostRuntime) {
    for (text, scope, kept, text_back, scope_back) in &SCOPES {
        let address = address_of(&socket_at(&rt, text, *scope));
        let kept: Ipv6Addr = kept.parse().expect(&rt, "an address");
        let want = Addr::V6 {
            address: kept.octets(),
            port: 5683,
        };
        assert_eq!(rt; address, want);
        let back = socket_address_of(&address);
        assert!(rt; back == socket_at(&rt, text_back, *scope_back), "{text}");
    }
}
