//! Sockets of the loopback as a transport.

use log::sink::{Discard, Memory};
use log::{Level, Log, Logged};
use lw_http::AccessPolicy;
use lw_route::{Api, ApiQuery, ApiResponse, Command, Commands, Media, Status};
use lw_server::{Addr, Incoming, Transport, WireFault};
use lw_sockets::Sockets;
use lw_stamp::NoMemory;
use lw_udp::address_of;
use std::alloc::Global;
use std::hash::RandomState;
use std::io::{self, Read, Write};
use std::net::{Ipv4Addr, Net, OpenStream, SocketAddr, TcpStream, ToSocketAddrs, UdpSocket};
use std::process::Abort;
use std::random::RandomSource;
use std::rt::Files;
use std::time::{Clock, Duration, Instant};

/// An API that tells the same to all that is asked, and has something to send after a command.
#[derive(Drop)]
struct OneAnswer {
    alloc: Global,
    /// How many commands came.
    commands: usize,
}

/// An API to which no command came.
fn quiet(alloc: Global) -> OneAnswer {
    OneAnswer { alloc, commands: 0 }
}

impl Api for OneAnswer {
    ghost may_answer = { λ api api_query answer. Unit {0} };

    ghost may_do = { λ old command answer new. Unit {0} };

    fn answer(&self, _api_query: &ApiQuery) -> Result<ApiResponse, NoMemory> {
        Ok(ApiResponse {
            status: Status::Ok,
            media: Media::Json,
            body: String::from_str(self.alloc, "{}")?,
        })
    }

    fn carry_out(&mut self, _command: &Command) -> Option<ApiResponse> {
        self.commands = self.commands.saturating_add(1);
        None
    }

    fn wants_to_send(&self) -> bool {
        self.commands > 0
    }
}

/// Some port of the loopback.
fn loopback() -> SocketAddr {
    SocketAddr::from((Ipv4Addr::LOCALHOST, 0))
}

/// A client at some port of the host, which waits for 20 seconds.
fn client_at<N: Net>(net: &N, host: &str) -> io::Result<UdpSocket> {
    let client = UdpSocket::bind(net, host)?;
    client.set_read_timeout(Some(Duration::from_secs(20)))?;
    Ok(client)
}

/// A transport at the address.
fn bound<'a, R: Abort + Net + Clock + Files + AllocGlobal, L: Log>(
    rt: &'a R,
    log: &'a L,
    alloc: Global,
    address: SocketAddr,
) -> Sockets<'a, R, L> {
    Sockets::bind(rt, rt, log, alloc, address).expect(rt, "a transport")
}

/// Where the transport is.
fn place_of<C: Clock + Files + AllocGlobal, L: Log>(
    rt: &impl Abort,
    sockets: &Sockets<'_, C, L>,
) -> SocketAddr {
    sockets.local_address().expect(rt, "an address")
}

/// Two datagrams that were sent come in their order, where they were sent from, and what the transport sends arrives
/// there.
fn is_served<C: Clock + Files + AllocGlobal, L: Log>(
    rt: &impl Abort,
    sockets: &mut Sockets<'_, C, L>,
    api: OneAnswer,
    client: &UdpSocket,
) {
    let at = place_of(rt, sockets);
    let from = address_of(&client.local_addr().expect(rt, "an address"));
    let mut buffer = [0; 4];
    client.send_to(b"one", at).expect(rt, "a send");
    client.send_to(b"second", at).expect(rt, "a send");
    let (_api, incoming) = sockets.poll(api, &mut buffer, Duration::from_secs(1));
    assert!(rt; incoming == Ok(Incoming::Datagram(3, from)), "the first");
    assert!(rt; &buffer[..3] == b"one".as_slice(), "its bytes");
    let there = sockets.more(&mut buffer);
    assert!(rt;
        there == Ok(Some((4, from))),
        "the second, as far as there is room"
    );
    assert!(rt; buffer == *b"seco", "its bytes");
    assert!(rt; sockets.more(&mut buffer) == Ok(None), "no more");
    assert!(rt; sockets.send(from, b"reply").is_ok(), "a reply");
    hears(rt, client, at);
}

/// The reply arrives at the client, and comes from there.
fn hears(rt: &impl Abort, client: &UdpSocket, at: SocketAddr) {
    let mut reply = [0; 8];
    let (count, sender) = client.recv_from(&mut reply).expect(rt, "a reply");
    assert!(rt; sender == at, "where it comes from");
    assert!(rt; &reply[..count] == b"reply".as_slice(), "what arrives");
}

/// A transport at another port of a client's host serves it twice.
fn serves<R: Abort + Net + Clock + Files + AllocGlobal>(rt: &R, alloc: Global, client: &UdpSocket) {
    let mut address = client.local_addr().expect(rt, "an address");
    address.set_port(0);
    let mut sockets = bound(rt, &Discard, alloc, address);
    is_served(rt, &mut sockets, quiet(alloc), client);
    is_served(rt, &mut sockets, quiet(alloc), client);
}

/// Tries: lw_sockets::Sockets::bind, lw_sockets::Sockets::local_address, lw_server::Transport::poll
/// Tries: lw_server::Transport::more
#[test]
fn datagrams_come_and_go_over_ipv4(rt: HostRuntime) {
    let client = client_at(&rt, "127.0.0.1:0").expect(&rt, "a client");
    serves(&rt, rt.alloc(), &client);
}

/// Tries: lw_sockets::Sockets::bind
#[test]
fn datagrams_come_and_go_over_ipv6(rt: HostRuntime) {
    // The machine may have no IPv6.
    if let Ok(client) = client_at(&rt, "[::1]:0") {
        serves(&rt, rt.alloc(), &client);
    }
}

/// Tries: lw_sockets::Sockets::bind
#[test]
fn a_wait_ends_when_its_time_is_over(rt: HostRuntime) {
    let mut sockets = bound(&rt, &Discard, rt.alloc(), loopback());
    let began = Instant::now(&rt).expect(&rt, "a clock");
    let (_api, incoming) = sockets.poll(quiet(rt.alloc()), &mut [0; 4], Duration::from_millis(300));
    let waited = began.elapsed(&rt).expect(&rt, "a clock");
    assert!(rt; incoming == Ok(Incoming::Nothing), "nothing comes");
    assert!(rt; waited >= Duration::from_millis(300), "so long");
    assert!(rt; waited < Duration::from_secs(20), "and not much longer");
}

/// A second socket at the same address, and a send to port 0.
/// Tries: lw_sockets::Sockets::bind
#[test]
fn what_the_system_refuses_is_a_fault(rt: HostRuntime) {
    let mut sockets = bound(&rt, &Discard, rt.alloc(), loopback());
    let at = place_of(&rt, &sockets);
    let second = Sockets::bind(&rt, &rt, &Discard, rt.alloc(), at);
    assert!(rt; second.is_err(), "one socket an address");
    let nowhere = Addr::V4 {
        address: [127, 0, 0, 1],
        port: 0,
    };
    let sent = sockets.send(nowhere, b"reply");
    assert!(rt; sent == Err(WireFault), "a send");
}

const ASKED: &[u8] = b"GET /v1/health HTTP/1.1\r\nhost: localhost\r\n\r\n";

const TOLD: &str = "HTTP/1.1 200 OK\r\nconnection: close\r\ncache-control: no-store\r\n\
    x-content-type-options: nosniff\r\ncontent-type: application/json\r\ncontent-length: 2\r\n\r\n{}";

/// What an HTTP client at the address that says this is told while the transport waits for a datagram, and where it is.
fn visited<R: Abort + Net, C: Clock + Files + AllocGlobal, L: Log>(
    rt: &R,
    alloc: Global,
    sockets: &mut Sockets<'_, C, L>,
    at: SocketAddr,
    says: &[u8],
) -> (String, SocketAddr) {
    let mut http_client = TcpStream::connect(rt, at).expect(rt, "a connection");
    let from = http_client.local_addr().expect(rt, "an address");
    http_client.write_all(says).expect(rt, "a request");
    let time = Duration::from_millis(300);
    let (_api, incoming) = sockets.poll(quiet(alloc), &mut [0; 4], time);
    assert!(rt; incoming.is_ok(), "a wait");
    let told = io::read_to_string(alloc, http_client).expect(rt, "a response");
    (told, from)
}

/// Lets anybody in at some port of the loopback, who may also give commands.
fn let_in<R: Abort + Net + RandomSource, C: Clock + Files + AllocGlobal, L: Log>(
    rt: &R,
    sockets: &mut Sockets<'_, C, L>,
) -> SocketAddr {
    let policy = AccessPolicy {
        token: None,
        host: None,
        commands: Commands::On,
    };
    let keys = RandomState::new(rt).expect(rt, "keys");
    let place = sockets.listen(rt, keys, policy, loopback());
    place.expect(rt, "a place")
}

/// Tries: lw_sockets::Sockets::listen, lw_server::Transport::poll, lw_http::advance, lw_http::new_connection
#[test]
fn an_http_client_is_answered_while_none_sends(rt: HostRuntime) {
    let mut sockets = bound(&rt, &Discard, rt.alloc(), loopback());
    let at = let_in(&rt, &mut sockets);
    let (told, _from) = visited(&rt, rt.alloc(), &mut sockets, at, ASKED);
    assert!(rt; told.as_str() == TOLD, "{told}");
}

/// What HTTP clients say, and what is logged of each behind where it is.
static LINES: [(&[u8], &str); 5] = [
    (ASKED, "method=GET target=/v1/health status=200 bytes=149"),
    (
        b"HEAD /v1/node HTTP/1.0\r\n\r\n",
        "method=HEAD target=/v1/node status=200 bytes=147",
    ),
    (
        b"\r\nGET /%41?a=b&c HTTP/1.1\r\nhost: localhost\r\n\r\n",
        "method=GET target=/%41?a=b&c status=404 bytes=183",
    ),
    (
        b"G\"\\\x1b\xff /\x00\ttarget=/ HTTP/1.1\r\n\r\n",
        "method=G\\\"\\\\\\x1b\\xff target=/\\x00\\ttarget=/ status=400 bytes=66",
    ),
    (b"\n\n \r\n\r\n", "method=- target=- status=400 bytes=66"),
];

/// Where an HTTP client came from that says this.
fn told_of<R: Abort + Net + Clock + Files + AllocGlobal + RandomSource, L: Log>(
    rt: &R,
    log: &L,
    alloc: Global,
    says: &[u8],
) -> SocketAddr {
    let mut sockets = bound(rt, log, alloc, loopback());
    let at = let_in(rt, &mut sockets);
    visited(rt, alloc, &mut sockets, at, says).1
}

/// Of an HTTP client that says this, one line is logged, and this stands in it behind where it is.
fn is_logged<R: Abort + Net + Clock + Files + AllocGlobal + RandomSource>(
    rt: &R,
    alloc: Global,
    says: &[u8],
    want: &str,
) {
    let logged = Logged::new((), Level::Info, Memory::new(alloc));
    let from = told_of(rt, &logged, alloc, says);
    let lines = logged.into_parts().1.into_lines().into_vec();
    let want = format!(in alloc; "[INFO  lw_sockets::http_connection] http peer={from} {want}");
    let want = want.expect(rt, "memory");
    assert!(rt; lines.len() == 1, "{lines:?}");
    assert!(rt; lines[0].as_str() == want.as_str(), "{lines:?}");
}

/// Tries: lw_sockets::Sockets::listen, lw_server::Transport::poll, lw_server::Transport::responses
#[test]
fn a_line_is_logged_of_each_http_client(rt: HostRuntime) {
    for (says, want) in &LINES {
        is_logged(&rt, rt.alloc(), says, want);
    }
}

/// What stands before, between and behind a method and a target without its `/`.
type Frame = (&'static str, &'static str, &'static str);

/// A request of HTTP/1.0.
const SAID_SO: Frame = ("", " /", " HTTP/1.0\r\n\r\n");

/// What is logged of it.
const LOGGED_SO: Frame = ("method=", " target=/", " status=404 bytes=183");

/// The frame around a method and a target that have so many bytes each.
fn framed(rt: &impl Abort, alloc: Global, frame: Frame, length: usize) -> String {
    let (before, between, behind) = frame;
    let method = "G".repeat(alloc, length).expect(rt, "memory");
    let target = "x"
        .repeat(alloc, length.saturating_sub(1))
        .expect(rt, "memory");
    let text = format!(in alloc; "{before}{method}{between}{target}{behind}");
    text.expect(rt, "memory")
}

/// A request whose method and whose target have so many bytes is logged with so many of each.
fn is_cut<R: Abort + Net + Clock + Files + AllocGlobal + RandomSource>(
    rt: &R,
    alloc: Global,
    length: usize,
    told: usize,
) {
    let says = framed(rt, alloc, SAID_SO, length);
    let want = framed(rt, alloc, LOGGED_SO, told);
    is_logged(rt, alloc, says.as_bytes(), want.as_str());
}

/// Tries: lw_sockets::Sockets::listen, lw_server::Transport::poll
#[test]
fn what_is_logged_of_a_request_is_cut(rt: HostRuntime) {
    is_cut(&rt, rt.alloc(), 199, 199);
    is_cut(&rt, rt.alloc(), 200, 200);
    is_cut(&rt, rt.alloc(), 201, 200);
    is_cut(&rt, rt.alloc(), 2_000, 200);
}

/// What HTTP clients say, one after another.
static SAID: [&[u8]; 4] = [
    ASKED,
    b"GET /none HTTP/1.0\r\n\r\n",
    b"GET / HTTP/9.9\r\n\r\n",
    ASKED,
];

/// Tries: lw_server::Transport::responses
#[test]
fn responses_are_counted_by_status(rt: HostRuntime) {
    let mut sockets = bound(&rt, &Discard, rt.alloc(), loopback());
    assert!(rt; sockets.responses().counts == [0; 16], "nobody yet");
    let at = let_in(&rt, &mut sockets);
    for says in &SAID {
        let _told = visited(&rt, rt.alloc(), &mut sockets, at, says);
    }
    let counts = sockets.responses().counts;
    let want = [2, 0, 0, 1, 0, 0, 1, 0, 0, 0, 0, 0, 0, 0, 0, 0];
    assert!(rt; counts == want, "{counts:?}");
}

const COMMAND: &[u8] =
    b"POST /v1/registrations/lamp/observations?path=/3 HTTP/1.1\r\nhost: localhost\r\ncontent-length: 0\r\n\r\n";

/// So many HTTP clients at the address, each of which says this.
fn http_clients<R: Abort + Net>(
    rt: &R,
    alloc: Global,
    at: SocketAddr,
    count: usize,
    says: &[u8],
) -> Vec<R::Stream> {
    let mut http_clients = Vec::new(alloc);
    for _http_client in 0..count {
        let mut http_client = TcpStream::connect(rt, at).expect(rt, "a connection");
        http_client.write_all(says).expect(rt, "a request");
        http_clients.push(http_client).expect(rt, "memory");
    }
    http_clients
}

/// Three commands and a datagram are there. The datagram is heard behind one command at most, and then one command
/// comes a wait.
/// Tries: lw_server::Transport::poll
#[test]
fn a_datagram_goes_before_the_next_command(rt: HostRuntime) {
    let mut sockets = bound(&rt, &Discard, rt.alloc(), loopback());
    let at = let_in(&rt, &mut sockets);
    let _http_clients = http_clients(&rt, rt.alloc(), at, 3, COMMAND);
    let client = client_at(&rt, "127.0.0.1:0").expect(&rt, "a client");
    let sent = client.send_to(b"one", place_of(&rt, &sockets));
    sent.expect(&rt, "a send");
    let (buffer, time) = (&mut [0; 4], Duration::from_secs(20));
    let (api, incoming) = sockets.poll(quiet(rt.alloc()), buffer, time);
    assert!(rt;
        matches!(incoming, Ok(Incoming::Datagram(3, _))),
        "the datagram"
    );
    assert!(rt; api.commands == 1, "one command before it");
    let (api, incoming) = sockets.poll(api, buffer, time);
    assert!(rt;
        incoming == Ok(Incoming::Nothing),
        "there is something to send"
    );
    assert!(rt; api.commands == 2, "one more");
    let (api, _incoming) = sockets.poll(api, buffer, time);
    assert!(rt; api.commands == 3, "and the last");
}

/// Tries: lw_server::Transport::poll
#[test]
fn once_the_time_is_over_no_http_client_is_answered(rt: HostRuntime) {
    let mut sockets = bound(&rt, &Discard, rt.alloc(), loopback());
    let at = let_in(&rt, &mut sockets);
    let _http_clients = http_clients(&rt, rt.alloc(), at, 1, ASKED);
    let (api, incoming) = sockets.poll(quiet(rt.alloc()), &mut [0; 4], Duration::ZERO);
    assert!(rt; incoming == Ok(Incoming::Nothing), "the time is over");
    assert!(rt; sockets.responses().counts[0] == 0, "nobody is answered");
    let (_api, incoming) = sockets.poll(api, &mut [0; 4], Duration::from_millis(300));
    assert!(rt; incoming == Ok(Incoming::Nothing), "no datagram");
    assert!(rt;
        sockets.responses().counts[0] == 1,
        "the client is answered"
    );
}

/// Waits so long for a datagram that nobody sends.
fn pause<R: Abort + Net>(rt: &R, time: Duration) {
    let socket = UdpSocket::bind(rt, "127.0.0.1:0").expect(rt, "a socket");
    socket.set_read_timeout(Some(time)).expect(rt, "a time-out");
    let incoming = socket.recv_from(&mut [0; 4]);
    assert!(rt; incoming.is_err(), "nothing comes");
}

/// Where the last wait ended more than three seconds ago, a turn is made before an HTTP client is answered.
/// Tries: lw_server::Transport::poll
#[test]
fn whoever_stood_still_makes_a_turn_first(rt: HostRuntime) {
    let mut sockets = bound(&rt, &Discard, rt.alloc(), loopback());
    let at = let_in(&rt, &mut sockets);
    let (api, _incoming) = sockets.poll(quiet(rt.alloc()), &mut [0; 4], Duration::from_millis(1));
    let _http_clients = http_clients(&rt, rt.alloc(), at, 1, ASKED);
    pause(&rt, Duration::from_millis(3_100));
    let (api, incoming) = sockets.poll(api, &mut [0; 4], Duration::from_secs(20));
    assert!(rt; incoming == Ok(Incoming::Nothing), "nothing is waited for");
    assert!(rt; sockets.responses().counts[0] == 0, "nobody is answered");
    let (_api, _incoming) = sockets.poll(api, &mut [0; 4], Duration::from_millis(300));
    assert!(rt;
        sockets.responses().counts[0] == 1,
        "the client is answered"
    );
}

/// More HTTP clients than there is room for are answered, and none of them waits for the time to end.
/// Tries: lw_server::Transport::poll
#[test]
fn whoever_waits_is_let_in_as_soon_as_there_is_a_seat(rt: HostRuntime) {
    let mut sockets = bound(&rt, &Discard, rt.alloc(), loopback());
    let at = let_in(&rt, &mut sockets);
    let _http_clients = http_clients(&rt, rt.alloc(), at, 40, ASKED);
    let began = Instant::now(&rt).expect(&rt, "a clock");
    let mut api = quiet(rt.alloc());
    for _wait in 0..20 {
        let (back, incoming) = sockets.poll(api, &mut [0; 4], Duration::from_millis(100));
        assert!(rt; incoming == Ok(Incoming::Nothing), "no datagram");
        api = back;
        if sockets.responses().counts[0] == 40 {
            break;
        }
    }
    let waited = began.elapsed(&rt).expect(&rt, "a clock");
    assert!(rt; sockets.responses().counts[0] == 40, "all are answered");
    assert!(rt; waited < Duration::from_secs(2), "{waited:?}");
}

/// Where there is no room beside HTTP clients that say nothing, the next one is answered once the first has been there
/// for a second.
/// Tries: lw_server::Transport::poll
#[test]
fn whoever_says_nothing_makes_room_after_a_second(rt: HostRuntime) {
    let mut sockets = bound(&rt, &Discard, rt.alloc(), loopback());
    let at = let_in(&rt, &mut sockets);
    let _silent = http_clients(&rt, rt.alloc(), at, 16, b"");
    let _asking = http_clients(&rt, rt.alloc(), at, 1, ASKED);
    let time = Duration::from_millis(500);
    let (api, _incoming) = sockets.poll(quiet(rt.alloc()), &mut [0; 4], time);
    assert!(rt; sockets.responses().counts[0] == 0, "nobody is closed yet");
    let (_api, _incoming) = sockets.poll(api, &mut [0; 4], Duration::from_secs(1));
    assert!(rt; sockets.responses().counts[0] == 1, "the next is answered");
}

/// An HTTP client asks late, for what is not there, while another comes at each wait and asks at once. It has its turn.
/// Tries: lw_server::Transport::poll
#[test]
fn a_visit_has_its_turn_beside_newcomers(rt: HostRuntime) {
    let mut sockets = bound(&rt, &Discard, rt.alloc(), loopback());
    let at = let_in(&rt, &mut sockets);
    let mut late = TcpStream::connect(&rt, at).expect(&rt, "a connection");
    let (buffer, time) = (&mut [0; 4], Duration::from_millis(100));
    let (mut api, _incoming) = sockets.poll(quiet(rt.alloc()), buffer, time);
    let said = late.write_all(b"GET /none HTTP/1.0\r\n\r\n");
    said.expect(&rt, "a request");
    let client = client_at(&rt, "127.0.0.1:0").expect(&rt, "a client");
    for _wait in 0..8 {
        let _newcomers = http_clients(&rt, rt.alloc(), at, 1, ASKED);
        let sent = client.send_to(b"one", place_of(&rt, &sockets));
        sent.expect(&rt, "a send");
        let (back, _incoming) = sockets.poll(api, buffer, time);
        api = back;
    }
    assert!(rt; sockets.responses().counts[6] == 1, "he is answered");
}
