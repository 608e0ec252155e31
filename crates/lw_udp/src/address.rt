//! The addresses of sockets as the store keeps them.

ghost use Rattle.std.specs.Prelude.{◌≡◌};
ghost use Rattle.std.specs.Net.Addr.{octets_of};
ghost use Rattle.lw_udp.specs.Udp.{addr_of, is_of_link, scope_of, with_scope, without_scope, IsAt};

use lw_reg::Addr;
use std::net::{IpAddr, Ipv4Addr, Ipv6Addr, SocketAddr, SocketAddrV6};

/// The first and the last segment that an address of one link begins with (RFC 4291, section 2.5.6).
const FIRST_OF_LINK: u16 = 0xfe80;

const LAST_OF_LINK: u16 = 0xfebf;

/// The address of a socket. The scope of an address of one link is kept in its second segment.
pub fn address_of(address: &SocketAddr) -> Addr
    ensures { result ≡ addr_of address.now }
{
    match address {
        SocketAddr::V4(it) => Addr::V4 {
            address: it.ip().octets(),
            port: it.port(),
        },
        SocketAddr::V6(it) => Addr::V6 {
            address: kept_octets(it.ip().segments(), it.scope_id()),
            port: it.port(),
        },
    }
}

/// The socket at an address.
pub fn socket_address_of(address: &Addr) -> SocketAddr
    ensures { IsAt address.now result }
{
    match *address {
        Addr::V4 { address, port } => SocketAddr::new(IpAddr::V4(Ipv4Addr::from(address)), port),
        Addr::V6 { address, port } => {
            let segments = Ipv6Addr::from(address).segments();
            let ip = Ipv6Addr::from(unscoped(segments));
            SocketAddr::V6(SocketAddrV6::new(ip, port, 0, scope_in(segments)))
        }
    }
}

fn kept_octets(segments: [u16; 8], scope: u32) -> [u8; 16]
    ensures { result ≡ octets_of (with_scope segments scope) }
{
    Ipv6Addr::from(scoped(segments, scope)).octets()
}

fn is_link_local(segments: [u16; 8]) -> bool
    ensures { result ≡ is_of_link segments }
{
    FIRST_OF_LINK <= segments[0] && segments[0] <= LAST_OF_LINK
}

/// The segments with the scope, if it has a place in them.
fn scoped(segments: [u16; 8], scope: u32) -> [u16; 8]
    ensures { result ≡ with_scope segments scope }
{
    let mut segments = segments;
    if is_link_local(segments) && segments[1] == 0 && scope < 0x1_0000 {
        segments[1] = scope as u16;
    }
    segments
}

fn scope_in(segments: [u16; 8]) -> u32
    ensures { result ≡ scope_of segments }
{
    if is_link_local(segments) {
        u32::from(segments[1])
    } else {
        0
    }
}

/// The segments without the scope that they keep.
fn unscoped(segments: [u16; 8]) -> [u16; 8]
    ensures { result ≡ without_scope segments }
{
    let mut segments = segments;
    if is_link_local(segments) {
        segments[1] = 0;
    }
    segments
}
