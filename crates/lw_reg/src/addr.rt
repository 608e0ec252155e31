ghost use Rattle.std.specs.Prelude.{◌≡◌, Some, IfSome, IfOk, string_bytes, refl};
ghost use Rattle.std.specs.Ordering.{as_partial_cmp};
ghost use Rattle.lw_reg.specs.AddrOrder.{same_addr, addr_by_parts, addr_total, addr_ties, addr_equivalence, addr_partial_equivalence, addr_partial_order};

mod by_number;
mod printing;
mod reading;

use lw_stamp::NoMemory;
use std::alloc::Global;
use std::cmp::Ordering;

/// An IP address and a port. An IPv4 address inside IPv6 is another address than the plain one.
///
/// IPv4 addresses are below IPv6 addresses; then come the bytes, then the port.
#[derive(Clone, Copy, Debug)]
pub enum Addr {
    V4 { address: [u8; 4], port: u16 },
    V6 { address: [u8; 16], port: u16 },
}

impl Addr {
    ghost use Rattle.lw_reg.specs.declared.addr.Addr.{Addr as Addrs};
    ghost use Rattle.lw_reg.specs.Addr.{addr_text as text_of, IsAddr};

    /// There is none for a text that is not the printing of an address.
    pub fn read(text: &str) -> Option<Addr>
        ensures found { IfSome result (λ a. text.now ≡ text_of a) }
        ensures in_range { IfSome result IsAddr }
        ensures only { (a : Addrs) → IsAddr a → text.now ≡ text_of a → result ≡ Some a }
    {
        reading::read(text)
    }

    /// `a.b.c.d:port` in decimal, or `[g:g:g:g:g:g:g:g]:port` with groups of four lower-case hex digits.
    pub fn print(&self, alloc: Global) -> Result<String, NoMemory>
        ensures { IfOk result (λ text. string_bytes text ≡ text_of self.now) }
    {
        match *self {
            Addr::V4 { address, port } => Ok(printing::v4(alloc, address, port)?),
            Addr::V6 { address, port } => Ok(printing::v6(alloc, address, port)?),
        }
    }
}

impl PartialEq for Addr {
    ghost eq = { same_addr };

    ghost laws = { addr_partial_equivalence };

    fn eq(&self, other: &Addr) -> bool {
        self.cmp(other).is_eq()
    }
}

impl Eq for Addr {
    ghost laws = { addr_equivalence };
}

impl PartialOrd for Addr {
    ghost partial_cmp = { as_partial_cmp addr_by_parts };

    ghost laws = { addr_partial_order };

    fn partial_cmp(&self, other: &Addr) -> Option<Ordering> {
        Some(self.cmp(other))
    }
}

impl Ord for Addr {
    ghost cmp = { addr_by_parts };

    ghost total = { addr_total };

    ghost matches_partial_cmp = { λ a b. refl };

    ghost matches_eq = { addr_ties };

    fn cmp(&self, other: &Addr) -> Ordering {
        match (self, other) {
            (
                Addr::V4 {
                    address: left,
                    port: from,
                },
                Addr::V4 { address, port },
            ) => by_number::v4(left, address).then(from.cmp(port)),
            (
                Addr::V6 {
                    address: left,
                    port: from,
                },
                Addr::V6 { address, port },
            ) => by_number::v6(left, address).then(from.cmp(port)),
            (Addr::V4 { .. }, Addr::V6 { .. }) => Ordering::Less,
            (Addr::V6 { .. }, Addr::V4 { .. }) => Ordering::Greater,
        }
    }
}
