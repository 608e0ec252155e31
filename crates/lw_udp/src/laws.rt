//! A law of addresses, the contract of a function that does nothing.

ghost use Rattle.std.specs.Net.Socket.{IsSocketAddr};
ghost use Rattle.std.specs.declared.net.socket_addr.SocketAddr.{SocketAddr};
ghost use Rattle.lw_udp.specs.Udp.{addr_of, CanBeKept, IsAt, IsSameSocket};

/// A socket whose scope can be kept is found again by its address: its IP address, its port and its scope.
pub fn a_socket_is_found_again()
    ensures { (socket found : SocketAddr) → IsSocketAddr socket → CanBeKept socket → IsAt (addr_of socket) found
        → IsSameSocket found socket }
{}
