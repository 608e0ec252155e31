//! What the command line gives to `run`.

use super::command_line::{asked, shows};
use lw_fleet::{HttpOptions, Keeps, LogLevel, RedisOptions, Request, RunOptions};
use std::alloc::Global;
use std::net::{IpAddr, Ipv4Addr, Ipv6Addr, SocketAddr, SocketAddrV6};
use std::process::Abort;

/// An IP address, by its bytes or its groups.
#[derive(Clone, Copy)]
enum Host {
    V4([u8; 4]),
    V6([u16; 8]),
}

/// What is served over HTTP: the address, the port and the scope, the path of the token's file, the name, whether
/// commands are taken, and the path of the page's file.
#[derive(Clone, Copy)]
struct Http {
    host: Host,
    port: u16,
    scope: u32,
    token_file: Option<&'static str>,
    name: Option<&'static str>,
    commands: bool,
    page_file: Option<&'static str>,
}

/// Words, and what they give to `run`.
#[derive(Clone, Copy)]
struct Given {
    words: &'static [&'static str],
    bind: Host,
    port: u16,
    level: LogLevel,
    keeps: Keeps<'static>,
    http: Option<Http>,
}

/// What is given where nothing is said.
const GIVEN: Given = Given {
    words: &["fleet", "run"],
    bind: Host::V4([127, 0, 0, 1]),
    port: 5683,
    level: LogLevel::Info,
    keeps: Keeps::Folder("fleet-data"),
    http: None,
};

/// A stream of Redis of which nothing is said.
const REDIS: RedisOptions<'static> = RedisOptions {
    host: "127.0.0.1",
    port: 6379,
    login_file: None,
    stream: "fleet",
    skew: 10,
    found: false,
};

/// What is served over HTTP where nothing more is said.
const HTTP: Http = Http {
    host: Host::V4([127, 0, 0, 1]),
    port: 8080,
    scope: 0,
    token_file: None,
    name: None,
    commands: false,
    page_file: None,
};

fn address_of(host: Host) -> IpAddr {
    match host {
        Host::V4(bytes) => {
            let [a, b, c, d] = bytes;
            IpAddr::V4(Ipv4Addr::new(a, b, c, d))
        }
        Host::V6(groups) => IpAddr::V6(Ipv6Addr::from_segments(groups)),
    }
}

impl Http {
    fn address(&self) -> SocketAddr {
        match address_of(self.host) {
            IpAddr::V6(host) => {
                SocketAddr::V6(SocketAddrV6::new(host, self.port, 0, self.scope))
            }
            host => SocketAddr::new(host, self.port),
        }
    }

    fn options(&self) -> HttpOptions<'static> {
        HttpOptions {
            address: self.address(),
            token_file: self.token_file,
            host: self.name,
            commands: self.commands,
            page_file: self.page_file,
        }
    }
}

/// Fails where the words give something else to `run`.
fn gives(rt: &impl Abort, alloc: Global, given: &Given) {
    let want = RunOptions {
        bind: address_of(given.bind),
        port: given.port,
        level: given.level,
        keeps: given.keeps,
        http: match &given.http {
            Some(http) => Some(http.options()),
            None => None,
        },
    };
    let request = asked(rt, alloc, given.words);
    assert!(rt; request == Request::Run(want), "{request:?}");
}

/// Words that give something to `run` beside the address 127.0.0.1.
static RUN: [Given; 10] = [
    Given {
        words: &["fleet", "run"],
        ..GIVEN
    },
    Given {
        words: &["fleet", "run", "--port", "0"],
        port: 0,
        ..GIVEN
    },
    Given {
        words: &["fleet", "run", "--port=65535"],
        port: 65535,
        ..GIVEN
    },
    Given {
        words: &["fleet", "run", "--log", "off"],
        level: LogLevel::Off,
        ..GIVEN
    },
    Given {
        words: &["fleet", "run", "--log", "error"],
        level: LogLevel::Error,
        ..GIVEN
    },
    Given {
        words: &["fleet", "run", "--log=warn"],
        level: LogLevel::Warn,
        ..GIVEN
    },
    Given {
        words: &["fleet", "run", "--log=info"],
        ..GIVEN
    },
    Given {
        words: &["fleet", "run", "--memory"],
        keeps: Keeps::Nothing,
        ..GIVEN
    },
    Given {
        words: &["fleet", "run", "--data", "/var/lib/fleet"],
        keeps: Keeps::Folder("/var/lib/fleet"),
        ..GIVEN
    },
    Given {
        words: &["fleet", "run", "--memory", "--log=debug", "--port=007"],
        port: 7,
        level: LogLevel::Debug,
        keeps: Keeps::Nothing,
        ..GIVEN
    },
];

/// Tries: read_request
#[test]
fn options_to_run(rt: HostRuntime) {
    for given in &RUN {
        gives(&rt, rt.alloc(), given);
    }
}

/// Words that give an address to `run`.
static BOUND: [Given; 7] = [
    Given {
        words: &["fleet", "run", "--bind", "192.0.2.7"],
        bind: Host::V4([192, 0, 2, 7]),
        ..GIVEN
    },
    Given {
        words: &["fleet", "run", "--bind", "0.0.0.0"],
        bind: Host::V4([0, 0, 0, 0]),
        ..GIVEN
    },
    Given {
        words: &["fleet", "run", "--bind", "255.255.255.255"],
        bind: Host::V4([255, 255, 255, 255]),
        ..GIVEN
    },
    Given {
        words: &["fleet", "run", "--bind", "::"],
        bind: Host::V6([0, 0, 0, 0, 0, 0, 0, 0]),
        ..GIVEN
    },
    Given {
        words: &["fleet", "run", "--bind", "::1"],
        bind: Host::V6([0, 0, 0, 0, 0, 0, 0, 1]),
        ..GIVEN
    },
    Given {
        words: &["fleet", "run", "--bind", "2001:DB8::ff00:42:8329"],
        bind: Host::V6([0x2001, 0xdb8, 0, 0, 0, 0xff00, 0x42, 0x8329]),
        ..GIVEN
    },
    Given {
        words: &["fleet", "run", "--bind", "::ffff:192.0.2.7"],
        bind: Host::V6([0, 0, 0, 0, 0, 0xffff, 0xc000, 0x0207]),
        ..GIVEN
    },
];

/// Tries: read_request
#[test]
fn addresses_to_run(rt: HostRuntime) {
    for given in &BOUND {
        gives(&rt, rt.alloc(), given);
    }
}

/// Words that give a stream of Redis.
static SHARED: [Given; 16] = [
    Given {
        words: &["fleet", "run", "--redis", "127.0.0.1:6379"],
        keeps: Keeps::Redis(RedisOptions {
            host: "127.0.0.1",
            port: 6379,
            ..REDIS
        }),
        ..GIVEN
    },
    Given {
        words: &["fleet", "run", "--redis=[::1]:6379"],
        keeps: Keeps::Redis(RedisOptions {
            host: "::1",
            port: 6379,
            ..REDIS
        }),
        ..GIVEN
    },
    Given {
        words: &["fleet", "run", "--redis=redis.example.org:1"],
        keeps: Keeps::Redis(RedisOptions {
            host: "redis.example.org",
            port: 1,
            ..REDIS
        }),
        ..GIVEN
    },
    Given {
        words: &["fleet", "run", "--redis=r:65535"],
        keeps: Keeps::Redis(RedisOptions {
            host: "r",
            port: 65535,
            ..REDIS
        }),
        ..GIVEN
    },
    Given {
        words: &["fleet", "run", "--redis=r:0006379"],
        keeps: Keeps::Redis(RedisOptions {
            host: "r",
            port: 6379,
            ..REDIS
        }),
        ..GIVEN
    },
    Given {
        words: &["fleet", "run", "--redis=[fe80::2%3]:80"],
        keeps: Keeps::Redis(RedisOptions {
            host: "fe80::2%3",
            port: 80,
            ..REDIS
        }),
        ..GIVEN
    },
    Given {
        words: &["fleet", "run", "--redis=[redis]:80"],
        keeps: Keeps::Redis(RedisOptions {
            host: "redis",
            port: 80,
            ..REDIS
        }),
        ..GIVEN
    },
    Given {
        words: &["fleet", "run", "--redis-login", "l", "--redis=r:1"],
        keeps: Keeps::Redis(RedisOptions {
            host: "r",
            port: 1,
            login_file: Some("l"),
            ..REDIS
        }),
        ..GIVEN
    },
    Given {
        words: &["fleet", "run", "--redis=r:1", "--redis-login= "],
        keeps: Keeps::Redis(RedisOptions {
            host: "r",
            port: 1,
            login_file: Some(" "),
            ..REDIS
        }),
        ..GIVEN
    },
    Given {
        words: &["fleet", "run", "--stream", "{a}:b", "--redis=r:1"],
        keeps: Keeps::Redis(RedisOptions {
            host: "r",
            port: 1,
            stream: "{a}:b",
            ..REDIS
        }),
        ..GIVEN
    },
    Given {
        words: &["fleet", "run", "--redis=r:1", "--skew", "0"],
        keeps: Keeps::Redis(RedisOptions {
            host: "r",
            port: 1,
            skew: 0,
            ..REDIS
        }),
        ..GIVEN
    },
    Given {
        words: &["fleet", "run", "--skew=3600", "--redis=r:1"],
        keeps: Keeps::Redis(RedisOptions {
            host: "r",
            port: 1,
            skew: 3600,
            ..REDIS
        }),
        ..GIVEN
    },
    Given {
        words: &["fleet", "run", "--redis=r:1", "--skew=0000060"],
        keeps: Keeps::Redis(RedisOptions {
            host: "r",
            port: 1,
            skew: 60,
            ..REDIS
        }),
        ..GIVEN
    },
    Given {
        words: &["fleet", "run", "--redis=r:1", "--found"],
        keeps: Keeps::Redis(RedisOptions {
            host: "r",
            port: 1,
            found: true,
            ..REDIS
        }),
        ..GIVEN
    },
    Given {
        words: &["fleet", "run", "--found", "--stream=s", "--redis=r:1"],
        keeps: Keeps::Redis(RedisOptions {
            host: "r",
            port: 1,
            stream: "s",
            found: true,
            ..REDIS
        }),
        ..GIVEN
    },
    Given {
        words: &[
            "fleet",
            "run",
            "--redis=[2001:db8::7]:6380",
            "--redis-login=/etc/fleet/login",
            "--stream=devices",
            "--skew=2",
        ],
        keeps: Keeps::Redis(RedisOptions {
            host: "2001:db8::7",
            port: 6380,
            login_file: Some("/etc/fleet/login"),
            stream: "devices",
            skew: 2,
            ..REDIS
        }),
        ..GIVEN
    },
];

/// Tries: read_request
#[test]
fn redis_to_run(rt: HostRuntime) {
    for given in &SHARED {
        gives(&rt, rt.alloc(), given);
    }
}

/// Words that give a stream of Redis and an address for HTTP.
static SHARED_AND_SERVED: Given = Given {
    words: &[
        "fleet",
        "run",
        "--http=127.0.0.1:8080",
        "--redis=127.0.0.1:6379",
    ],
    keeps: Keeps::Redis(REDIS),
    http: Some(HTTP),
    ..GIVEN
};

/// Tries: read_request
#[test]
fn redis_beside_http(rt: HostRuntime) {
    gives(&rt, rt.alloc(), &SHARED_AND_SERVED);
}

/// Words that have something served over HTTP at an IPv4 address.
static SERVED: [Given; 14] = [
    Given {
        words: &["fleet", "run", "--http", "127.0.0.1:8080"],
        http: Some(Http { port: 8080, ..HTTP }),
        ..GIVEN
    },
    Given {
        words: &["fleet", "run", "--http=127.0.0.0:0"],
        http: Some(Http {
            host: Host::V4([127, 0, 0, 0]),
            port: 0,
            ..HTTP
        }),
        ..GIVEN
    },
    Given {
        words: &["fleet", "run", "--http=127.255.255.255:65535"],
        http: Some(Http {
            host: Host::V4([127, 255, 255, 255]),
            port: 65535,
            ..HTTP
        }),
        ..GIVEN
    },
    Given {
        words: &["fleet", "run", "--memory", "--http=127.0.0.1:0080"],
        keeps: Keeps::Nothing,
        http: Some(Http { port: 80, ..HTTP }),
        ..GIVEN
    },
    Given {
        words: &[
            "fleet",
            "run",
            "--http-token-file",
            "t",
            "--http=127.0.0.1:1",
        ],
        http: Some(Http {
            port: 1,
            token_file: Some("t"),
            ..HTTP
        }),
        ..GIVEN
    },
    Given {
        words: &[
            "fleet",
            "run",
            "--http=127.0.0.1:1",
            "--http-host",
            "example",
        ],
        http: Some(Http {
            port: 1,
            name: Some("example"),
            ..HTTP
        }),
        ..GIVEN
    },
    Given {
        words: &["fleet", "run", "--page", "p", "--http=127.0.0.1:1"],
        http: Some(Http {
            port: 1,
            page_file: Some("p"),
            ..HTTP
        }),
        ..GIVEN
    },
    Given {
        words: &["fleet", "run", "--http=127.0.0.1:1", "--page= "],
        http: Some(Http {
            port: 1,
            page_file: Some(" "),
            ..HTTP
        }),
        ..GIVEN
    },
    Given {
        words: &["fleet", "run", "--http=0.0.0.0:80", "--http-token-file= "],
        http: Some(Http {
            host: Host::V4([0, 0, 0, 0]),
            port: 80,
            token_file: Some(" "),
            ..HTTP
        }),
        ..GIVEN
    },
    Given {
        words: &["fleet", "run", "--http=127.0.0.1:1", "--http-commands"],
        http: Some(Http {
            port: 1,
            commands: true,
            ..HTTP
        }),
        ..GIVEN
    },
    Given {
        words: &["fleet", "run", "--http-commands", "--http=127.0.0.1:1"],
        http: Some(Http {
            port: 1,
            commands: true,
            ..HTTP
        }),
        ..GIVEN
    },
    Given {
        words: &[
            "fleet",
            "run",
            "--page=p",
            "--http-commands",
            "--memory",
            "--http=127.0.0.1:1",
        ],
        keeps: Keeps::Nothing,
        http: Some(Http {
            port: 1,
            commands: true,
            page_file: Some("p"),
            ..HTTP
        }),
        ..GIVEN
    },
    Given {
        words: &[
            "fleet",
            "run",
            "--http=192.0.2.7:443",
            "--http-token-file=/etc/fleet/token",
            "--http-host=fleet.example.org",
            "--page=/usr/share/fleet/index.html",
        ],
        http: Some(Http {
            host: Host::V4([192, 0, 2, 7]),
            port: 443,
            token_file: Some("/etc/fleet/token"),
            name: Some("fleet.example.org"),
            page_file: Some("/usr/share/fleet/index.html"),
            ..HTTP
        }),
        ..GIVEN
    },
    Given {
        words: &[
            "fleet",
            "run",
            "--http-commands",
            "--http=192.0.2.7:443",
            "--http-token-file=/etc/fleet/token",
            "--http-host=fleet.example.org",
            "--page=/usr/share/fleet/index.html",
        ],
        http: Some(Http {
            host: Host::V4([192, 0, 2, 7]),
            port: 443,
            token_file: Some("/etc/fleet/token"),
            name: Some("fleet.example.org"),
            commands: true,
            page_file: Some("/usr/share/fleet/index.html"),
            ..HTTP
        }),
        ..GIVEN
    },
];

/// Tries: read_request
#[test]
fn http_to_run(rt: HostRuntime) {
    for given in &SERVED {
        gives(&rt, rt.alloc(), given);
    }
}

/// Words that have something served over HTTP at an IPv6 address, beside a token.
static SERVED_V6: [Given; 4] = [
    Given {
        words: &[
            "fleet",
            "run",
            "--http-token-file=t",
            "--http",
            "[::1]:8080",
        ],
        http: Some(Http {
            host: Host::V6([0, 0, 0, 0, 0, 0, 0, 1]),
            port: 8080,
            token_file: Some("t"),
            ..HTTP
        }),
        ..GIVEN
    },
    Given {
        words: &["fleet", "run", "--http-token-file=t", "--http", "[::]:1"],
        http: Some(Http {
            host: Host::V6([0, 0, 0, 0, 0, 0, 0, 0]),
            port: 1,
            token_file: Some("t"),
            ..HTTP
        }),
        ..GIVEN
    },
    Given {
        words: &[
            "fleet",
            "run",
            "--http-token-file=t",
            "--http",
            "[2001:DB8::7]:443",
        ],
        http: Some(Http {
            host: Host::V6([0x2001, 0xdb8, 0, 0, 0, 0, 0, 7]),
            port: 443,
            token_file: Some("t"),
            ..HTTP
        }),
        ..GIVEN
    },
    Given {
        words: &[
            "fleet",
            "run",
            "--http-token-file=t",
            "--http",
            "[fe80::2%3]:80",
        ],
        http: Some(Http {
            host: Host::V6([0xfe80, 0, 0, 0, 0, 0, 0, 2]),
            port: 80,
            scope: 3,
            token_file: Some("t"),
            ..HTTP
        }),
        ..GIVEN
    },
];

/// Tries: read_request
#[test]
fn ipv6_addresses_of_http(rt: HostRuntime) {
    for given in &SERVED_V6 {
        gives(&rt, rt.alloc(), given);
    }
}

/// Words that have something served over HTTP at the loopback of IPv6.
static LOOPBACK_V6: Given = Given {
    words: &["fleet", "run", "--http", "[::1]:8080"],
    http: Some(Http {
        host: Host::V6([0, 0, 0, 0, 0, 0, 0, 1]),
        ..HTTP
    }),
    ..GIVEN
};

/// Tries: read_request
#[test]
fn the_loopback_of_ipv6_without_a_token(rt: HostRuntime) {
    gives(&rt, rt.alloc(), &LOOPBACK_V6);
}

const RUN_HELP: &str = "\
Serves devices over UDP until it is killed, and keeps what is registered

Usage: fleet run [OPTIONS]

Options:
      --bind <IP>               IP address of the UDP socket [default: 127.0.0.1]
      --port <P>                UDP port, 0 to 65535 [default: 5683]
      --log <LEVEL>             What is logged to standard error: off, error, warn, info, debug [default: info]
      --memory                  Keeps nothing: a restart begins without registrations
      --data <DIR>              Folder that keeps what is registered; it is made where it is missing [default: fleet-data]
      --redis <HOST:PORT>       Redis server through which several servers share one fleet
      --redis-login <FILE>      File with the user and the password for Redis, on a line each
      --stream <KEY>            Key of the stream in Redis [default: fleet]
      --skew <S>                Seconds that the clocks of the servers may differ, 0 to 3600 [default: 10]
      --found                   Founds the fleet: once, for the first server over a stream that has none
      --http <ADDR>             Address and port that HTTP is served on, as 127.0.0.1:8080 or [::1]:8080 [default: none]
      --http-token-file <FILE>  File whose first line is the token that HTTP requests have to bring
      --http-host <NAME>        Name that HTTP requests may be for, beside IP addresses and localhost
      --http-commands           Takes POST and DELETE: observations are made and ended
      --page <FILE>             File that is served as the page at /
  -h, --help                    Print help
";

/// Tries: read_request, program
#[test]
fn help_of_run(rt: HostRuntime) {
    for words in [["fleet", "run", "--help"], ["fleet", "help", "run"]] {
        shows(&rt, rt.alloc(), &words, RUN_HELP);
    }
}
