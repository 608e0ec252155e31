//! Runs over sockets of the loopback.

use super::*;
use std::net::{Net, SocketAddr, UdpSocket};
use std::time::{Clock, Duration};
use std::{io, thread};

/// A socket at the address, which waits for 20 seconds.
fn bound<R: Net>(rt: &R, address: &str) -> io::Result<UdpSocket> {
    let socket = UdpSocket::bind(rt, address)?;
    socket.set_read_timeout(Some(Duration::from_secs(20)))?;
    Ok(socket)
}

/// Where clients are, what they send, and the replies. The second node knows of one operation.
static CLIENTS: [(&str, &[u8], &str); 2] = [
    (
        "127.0.0.1:56832",
        REGISTER,
        "604100048272640d0330303030303030303030303130303031",
    ),
    (
        "127.0.0.1:56833",
        OTHER_REGISTER,
        "604100058272640d0330303030303030303030303230303032",
    ),
];

/// Serves over the socket: how the run ended, and what was written.
fn serve_over<R: Clock + Threads + Wait + Sync>(
    rt: &R,
    alloc: Global,
    socket: UdpSocket,
    plan: &Plan,
) -> (Result<(), ServeFault>, Vec<u8>) {
    let mut wire = UdpWire::new(socket);
    let mut clock = SystemClock { clock: rt };
    let mut written = Vec::new(alloc);
    let ended = serve_on(
        rt,
        alloc,
        &mut wire,
        &mut clock,
        &Discard,
        plan,
        &mut written,
    );
    (ended, written)
}

/// Tries: UdpWire::new, Wire::wait, Wire::more, lw_udp::Datagram::new, lw_udp::address_of, lw_udp::socket_address_of
#[test]
fn two_clients_at_two_nodes(rt: HostRuntime) {
    let plan = Plan::new(2, 2, 1, None).expect(&rt, "a plan");
    let socket = UdpSocket::bind(&rt, "127.0.0.1:56831").expect(&rt, "a port");
    let server = thread::spawn(&rt, move || serve_over(&rt, rt.alloc(), socket, &plan));
    let server = server.expect(&rt, "a thread");
    for (address, datagram, want) in &CLIENTS {
        let client = bound(&rt, address).expect(&rt, "a port");
        let mut buffer = [0; 100];
        client
            .send_to(datagram, "127.0.0.1:56831")
            .expect(&rt, "sent");
        let (length, _from) = client.recv_from(&mut buffer).expect(&rt, "a reply");
        let reply = hex::encode(rt.alloc(), &buffer[..length]).expect(&rt, "memory");
        assert_eq!(rt; reply.as_str(), *want);
    }
    let (ended, written) = server.join(&rt);
    assert_eq!(rt; ended, Ok(()));
    assert_eq!(rt; written.as_slice(), b"settled\n".as_slice());
}

/// What a wire and a client do.
#[derive(Clone, Copy)]
enum Does {
    /// What the wire sends arrives at the client.
    Arrives,
    /// A datagram of the client is waited for.
    Waits,
    /// There is no datagram yet.
    Nothing,
    /// A datagram of the client is there when it has come.
    Comes,
}

use Does::*;

/// A wire that did not wait waits and sends too.
static TURNS: [&[Does]; 3] = [
    &[Waits, Nothing, Comes],
    &[Nothing, Arrives, Waits],
    &[Arrives],
];

/// Whether a datagram has come within five seconds, and where it comes from.
fn come<C: Clock>(clock: &C, wire: &mut UdpWire) -> Result<Option<(usize, Addr)>, WireFault> {
    for _turn in 0..5_000 {
        let there = wire.more(&mut [0; 8]);
        if there != Ok(None) {
            return there;
        }
        thread::sleep(clock, Duration::from_millis(1));
    }
    Ok(None)
}

/// The wire at one address and the client at the other do it.
fn do_it<R: Clock + Abort>(
    rt: &R,
    (wire, at): (&mut UdpWire, SocketAddr),
    (client, from): (&UdpSocket, Addr),
    does: Does,
) {
    match does {
        Arrives => {
            assert_eq!(rt; wire.send(from, PING), Ok(()));
            let mut buffer = [0; 8];
            let (length, _from) = client.recv_from(&mut buffer).expect(rt, "a datagram");
            assert_eq!(rt; &buffer[..length], PING);
        }
        Waits => {
            client.send_to(PING, at).expect(rt, "sent");
            assert_eq!(rt; wire.wait(&mut [0; 8]), Ok((4, from)));
        }
        Nothing => assert_eq!(rt; wire.more(&mut [0; 8]), Ok(None)),
        Comes => {
            client.send_to(PING, at).expect(rt, "sent");
            assert_eq!(rt; come(rt, wire), Ok(Some((4, from))));
        }
    }
}

/// A wire at a port of the host.
fn wire_at<R: Net>(rt: &R, host: &str) -> io::Result<(UdpWire, SocketAddr)> {
    let socket = bound(rt, host)?;
    let at = socket.local_addr()?;
    Ok((UdpWire::new(socket), at))
}

/// The client is at another address of the host.
/// Tries: UdpWire::new, Wire::wait, Wire::more, lw_udp::address_of, lw_udp::socket_address_of
#[test]
fn a_wire_waits_and_sends_in_any_order(rt: HostRuntime) {
    for turns in TURNS {
        let (mut wire, at) = wire_at(&rt, "127.0.0.1:0").expect(&rt, "a wire");
        let client = bound(&rt, "127.0.0.2:0").expect(&rt, "a client");
        let port = client.local_addr().expect(&rt, "an address").port();
        let address = [127, 0, 0, 2];
        for does in turns {
            do_it(
                &rt,
                (&mut wire, at),
                (&client, Addr::V4 { address, port }),
                *does,
            );
        }
    }
}

/// No datagram can be sent to port 0.
/// Tries: UdpWire::new
#[test]
fn a_send_that_fails_is_told(rt: HostRuntime) {
    let (mut wire, _at) = wire_at(&rt, "127.0.0.1:0").expect(&rt, "a wire");
    let (address, port) = ([127, 0, 0, 1], 0);
    assert_eq!(rt; wire.send(Addr::V4 { address, port }, PING), Err(WireFault));
}

/// Where the machine has no IPv6, none is sent.
/// Tries: lw_udp::address_of, lw_udp::socket_address_of
#[test]
fn a_datagram_is_sent_back_over_ipv6(rt: HostRuntime) {
    if let (Ok((mut wire, at)), Ok(client)) = (wire_at(&rt, "[::1]:0"), bound(&rt, "[::1]:0")) {
        let address = [0, 0, 0, 0, 0, 0, 0, 0, 0, 0, 0, 0, 0, 0, 0, 1];
        let port = client.local_addr().expect(&rt, "an address").port();
        for does in [Waits, Arrives] {
            do_it(
                &rt,
                (&mut wire, at),
                (&client, Addr::V6 { address, port }),
                does,
            );
        }
    }
}
