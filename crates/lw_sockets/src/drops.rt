//! What the system drops of what comes to a socket, where the socket's buffer is full.

use std::alloc::Global;
use std::net::{Ipv4Addr, Ipv6Addr, SocketAddr};
use std::rt::Files;
use std::time::{Duration, Instant};
use std::{fs, io};

/// The table of the sockets of UDP over IPv4 (proc(5)).
const TABLE: &str = "/proc/net/udp";

/// The one of those over IPv6.
const TABLE_OF_IPV6: &str = "/proc/net/udp6";

/// How many seconds lie between two looks at a table.
const BETWEEN: u64 = 1;

/// The drops of a socket, as they were seen last.
#[derive(Drop)]
pub(crate) struct Drops {
    is_ipv6: bool,
    place: String,
    looked: Option<Instant>,
    pub(crate) count: u64,
}

impl Drops {
    /// Those of the socket at the address, of which none are seen yet.
    pub(crate) fn new(alloc: Global, address: SocketAddr) -> io::Result<Drops> {
        let place = match address {
            SocketAddr::V4(it) => place_of_ipv4(alloc, it.ip(), it.port())?,
            SocketAddr::V6(it) => place_of_ipv6(alloc, it.ip(), it.port())?,
        };
        Ok(Drops {
            is_ipv6: address.is_ipv6(),
            place,
            looked: None,
            count: 0,
        })
    }

    /// Looks at them again, if the last look is so long ago. Where there is no table there are none.
    pub(crate) fn look<R: Files + AllocGlobal>(&mut self, host: &R, now: Instant) {
        if let Some(looked) = self.looked
            && now.saturating_duration_since(looked) < Duration::from_secs(BETWEEN)
        {
            return;
        }
        self.looked = Some(now);
        let path = if self.is_ipv6 { TABLE_OF_IPV6 } else { TABLE };
        self.count = match fs::read_to_string(host, path) {
            Ok(table) => drops_in(table.as_str(), self.place.as_str()),
            Err(_) => 0,
        };
    }
}

/// The address and the port as a table has them: octets in words of four, each as a number of the host.
fn place_of_ipv4(alloc: Global, ip: &Ipv4Addr, port: u16) -> io::Result<String> {
    let word = u32::from_ne_bytes(ip.octets());
    Ok(format!(in alloc; "{word:08X}:{port:04X}")?)
}

fn place_of_ipv6(alloc: Global, ip: &Ipv6Addr, port: u16) -> io::Result<String> {
    let mut place = String::new(alloc);
    for at in [0, 4, 8, 12] {
        let word = word_at(&ip.octets(), at);
        place.push_str(format!(in alloc; "{word:08X}")?.as_str())?;
    }
    place.push_str(format!(in alloc; ":{port:04X}")?.as_str())?;
    Ok(place)
}

fn word_at(octets: &[u8; 16], at: usize) -> u32 {
    let mut word = [0; 4];
    for (to, from) in word.iter_mut().zip(octets.iter().skip(at)) {
        *to = *from;
    }
    u32::from_ne_bytes(word)
}

/// The drops of the sockets that have this place in the table.
pub fn drops_in(table: &str, place: &str) -> u64 {
    let mut sum = 0u64;
    for row in table.lines() {
        sum = sum.saturating_add(drops_of(row, place).unwrap_or(0));
    }
    sum
}

/// The last word of a row is its drops, where the second is the place of its socket.
fn drops_of(row: &str, place: &str) -> Option<u64> {
    let mut words = row.split_ascii_whitespace();
    if words.nth(1)? != place {
        return None;
    }
    words.last()?.parse().ok()
}
