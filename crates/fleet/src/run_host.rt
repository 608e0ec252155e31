//! A server over a real socket and a real log.

use crate::host::Host;
use crate::http::{HttpBinding, HttpConfig};
use crate::shared::{Shared, SharedLog};
use log::sink::Console;
use log::{LevelFilter, Log, Logged, info};
use lw_fleet::{Keeps, LogLevel, RunOptions, RunningFault, Runs};
use lw_log::{DeltaLog, FleetId, Nowhere};
use lw_redis_log::RedisClock;
use lw_replica::{Randomness, Replica};
use lw_server::{
    Clocks, Compaction, HostClock, HostClocks, Measured, Moment, RunFault, Server, TimedLog, run_on,
};
use lw_sockets::{Sockets, SystemStopwatch};
use lw_sqlite_log::{OpenFault, SqliteLog};
use lw_udp::SystemClock;
use std::net::{IpAddr, SocketAddr};
use std::random::RandomSource;
use std::sync::Wait;
use std::time::Duration;

/// How many milliseconds a server waits for a datagram before it makes a turn without one.
const WAIT: u64 = 1_000;

/// How many it waits where others may write into its log.
const WAIT_FOR_OTHERS: u64 = 100;

/// How many random bytes a start draws: a fleet, a tag and a number.
const CHANCE: usize = 26;

/// The clocks of the host.
pub(crate) type OwnClocks<'a> = HostClocks<
    SystemClock<'a, HostRuntime>,
    SystemStopwatch<'a, HostRuntime>,
>;

impl Runs for Host<'_, HostRuntime> {
    fn run<R: Wait>(&mut self, _rt: &R, options: &RunOptions<'_>) -> Result<(), RunningFault> {
        let host = self.host;
        let log = Logged::new(host, filter_of(options.level), Console(host));
        let http = match &options.http {
            None => None,
            Some(http) => Some(HttpConfig::of_options(host, http)?),
        };
        match &options.keeps {
            Keeps::Nothing => {
                let replica = begin(host, Nowhere::new(host.alloc()))?;
                let mut bound = BoundServer::open(host, &log, options, http)?;
                bound.serve_alone(replica, "nothing", options)
            }
            Keeps::Folder(folder) => {
                let replica = begin(host, SqliteLog::open(host, folder).map_err(fault_of_open)?)?;
                let mut bound = BoundServer::open(host, &log, options, http)?;
                bound.serve_alone(replica, "data", options)
            }
            Keeps::Redis(redis) => {
                let clock = RedisClock::new(host);
                let shared = Shared {
                    host,
                    log: &log,
                    options: redis,
                    clock: &clock,
                };
                let replica = shared.begin(redis.found)?;
                let mut bound = BoundServer::open(host, &log, options, http)?;
                serve_shared(&mut bound, replica, &shared, options).map_err(fault_of_redis)
            }
        }
    }
}

/// Serves a fleet that others serve as well. Where another start was faster with the same number, or made the fleet, it
/// begins anew: it has answered nobody yet.
fn serve_shared<'a, 'n, L: Log>(
    bound: &mut BoundServer<'a, L>,
    first: Replica<SharedLog<'a, 'n, L>>,
    shared: &Shared<'a, 'n, L>,
    options: &RunOptions<'_>,
) -> Result<(), RunningFault> {
    let mut replica = first;
    for _start in 0..u64::MAX {
        let now = shared.moment()?;
        let clocks = shared.clocks(now)?;
        match bound.serve(replica, clocks, now, "redis", options) {
            Err(RunningFault::NumberTaken) => {
                info!(bound.log; "number taken, another is drawn");
                replica = shared.begin(false)?;
            }
            ended => return ended,
        }
    }
    Ok(())
}

/// A replica over what the log keeps, which is read to its end.
fn begin<'a, G: DeltaLog>(
    host: &'a HostRuntime,
    kept: G,
) -> Result<Replica<TimedLog<G, SystemStopwatch<'a, HostRuntime>>>, RunningFault> {
    let timed = TimedLog::new(kept, stopwatch(host)?);
    let now = moment(host)?;
    match Replica::begin(host.alloc(), timed, &draw(host)?, now) {
        Ok(replica) => Ok(replica),
        Err(fault) => Err(fault_of_run(RunFault::from(fault))),
    }
}

/// The sockets of a server that are bound: for devices, and for HTTP, if it is asked for.
#[derive(Drop)]
struct BoundServer<'a, L: Log> {
    host: &'a HostRuntime,
    log: &'a L,
    sockets: Sockets<'a, HostRuntime, L>,
    http: Option<HttpBinding>,
}

impl<'a, L: Log> BoundServer<'a, L> {
    /// Binds the sockets.
    fn open(
        host: &'a HostRuntime,
        log: &'a L,
        options: &RunOptions<'_>,
        http: Option<HttpConfig>,
    ) -> Result<BoundServer<'a, L>, RunningFault> {
        let mut sockets = bind(host, log, options)?;
        let http = match http {
            None => None,
            Some(http) => Some(http.listen(host, &mut sockets)?),
        };
        Ok(BoundServer {
            host,
            log,
            sockets,
            http,
        })
    }

    /// Serves devices and HTTP clients by the host's own clock.
    fn serve_alone<G: DeltaLog + Measured>(
        &mut self,
        replica: Replica<G>,
        keeps: &str,
        options: &RunOptions<'_>,
    ) -> Result<(), RunningFault> {
        let now = moment(self.host)?;
        let clocks = host_clocks(self.host, now)?;
        self.serve(replica, clocks, now, keeps, options)
    }

    /// Serves devices and HTTP clients, from the moment on that is now.
    fn serve<G: DeltaLog + Measured, C: Clocks>(
        &mut self,
        replica: Replica<G>,
        clocks: C,
        now: Moment,
        keeps: &str,
        options: &RunOptions<'_>,
    ) -> Result<(), RunningFault> {
        let host = self.host;
        if let Ok(address) = self.sockets.local_address() {
            let number = replica.start().number;
            info!(self.log; "serving address={address} number={number} keeps={keeps}");
        }
        if let Some(http) = &self.http {
            info!(self.log; "http address={}", http.address);
        }
        let (skew, page) = (skew_of(&options.keeps), self.page()?);
        let server = Server::new(host.alloc(), replica, clocks, skew, now, page);
        let (wait, compaction) = (wait_of(&options.keeps), compaction_of(&options.keeps));
        run_on(&mut self.sockets, server, self.log, wait, compaction).map_err(fault_of_run)
    }

    /// The page that HTTP clients see, if there is one.
    fn page(&self) -> Result<Option<String>, RunningFault> {
        let Some(http) = &self.http else {
            return Ok(None);
        };
        match http.page.clone() {
            Ok(page) => Ok(page),
            Err(_) => Err(RunningFault::NoMemory),
        }
    }
}

/// The clocks of the host, of which one begins at the moment.
pub(crate) fn host_clocks(
    host: &HostRuntime,
    start: Moment,
) -> Result<OwnClocks<'_>, RunningFault> {
    let clock = SystemClock { clock: host };
    Ok(HostClocks::new(clock, stopwatch(host)?, start))
}

/// The moment that it is, by the host's clock.
pub(crate) fn moment(host: &HostRuntime) -> Result<Moment, RunningFault> {
    let mut clock = SystemClock { clock: host };
    match clock.now() {
        Some(now) => Ok(now),
        None => Err(RunningFault::ClockRefused),
    }
}

pub(crate) fn stopwatch(
    host: &HostRuntime,
) -> Result<SystemStopwatch<'_, HostRuntime>, RunningFault> {
    match SystemStopwatch::start(host) {
        Ok(stopwatch) => Ok(stopwatch),
        Err(_) => Err(RunningFault::ClockRefused),
    }
}

/// The socket that devices send to. An address of one link alone is refused: its link is not known.
fn bind<'a, L: Log>(
    host: &'a HostRuntime,
    log: &'a L,
    options: &RunOptions<'_>,
) -> Result<Sockets<'a, HostRuntime, L>, RunningFault> {
    if is_link_local(options.bind) {
        return Err(RunningFault::LinkLocalRefused);
    }
    let address = SocketAddr::new(options.bind, options.port);
    match Sockets::bind(host, host, log, host.alloc(), address) {
        Ok(sockets) => Ok(sockets),
        Err(_) => Err(RunningFault::BindFailed),
    }
}

fn is_link_local(address: IpAddr) -> bool {
    match address {
        IpAddr::V4(_) => false,
        IpAddr::V6(ip) => ip.is_unicast_link_local(),
    }
}

fn compaction_of(keeps: &Keeps<'_>) -> Compaction {
    match keeps {
        Keeps::Nothing => Compaction::Never,
        Keeps::Folder(_) | Keeps::Redis(_) => Compaction::WhereDue,
    }
}

/// How long a server waits for a datagram before it makes a turn without one.
fn wait_of(keeps: &Keeps<'_>) -> Duration {
    match keeps {
        Keeps::Nothing | Keeps::Folder(_) => Duration::from_millis(WAIT),
        Keeps::Redis(_) => Duration::from_millis(WAIT_FOR_OTHERS),
    }
}

/// How many seconds the clocks of the fleet's servers may differ.
fn skew_of(keeps: &Keeps<'_>) -> u32 {
    match keeps {
        Keeps::Nothing | Keeps::Folder(_) => 0,
        Keeps::Redis(redis) => redis.skew,
    }
}

/// What a start draws by lot.
pub(crate) fn draw<S: RandomSource>(source: &S) -> Result<Randomness, RunningFault> {
    let mut bytes = [0; CHANCE];
    if source.fill_bytes(&mut bytes).is_err() {
        return Err(RunningFault::RandomFailed);
    }
    let mut fleet = [0; 16];
    fleet.copy_from_slice(&bytes[..16]);
    let mut tag = [0; 8];
    tag.copy_from_slice(&bytes[16..24]);
    Ok(Randomness {
        fleet: FleetId { bytes: fleet },
        tag: u64::from_be_bytes(tag),
        number: u16::from_be_bytes([bytes[24], bytes[25]]),
    })
}

fn filter_of(level: LogLevel) -> LevelFilter {
    match level {
        LogLevel::Off => LevelFilter::Off,
        LogLevel::Error => LevelFilter::Error,
        LogLevel::Warn => LevelFilter::Warn,
        LogLevel::Info => LevelFilter::Info,
        LogLevel::Debug => LevelFilter::Debug,
    }
}

fn fault_of_open(fault: OpenFault) -> RunningFault {
    match fault {
        OpenFault::InUse => RunningFault::DataInUse,
        OpenFault::Damaged => RunningFault::DataDamaged,
        OpenFault::Failed => RunningFault::DataFailed,
        OpenFault::NoMemory => RunningFault::NoMemory,
    }
}

pub(crate) fn fault_of_run(fault: RunFault) -> RunningFault {
    match fault {
        RunFault::ReceiveFailed => RunningFault::ReceiveFailed,
        RunFault::ClockRefused => RunningFault::ClockRefused,
        RunFault::NoMemory => RunningFault::NoMemory,
        RunFault::LogRefused => RunningFault::DataFailed,
        RunFault::LogNewer => RunningFault::DataNewer,
        RunFault::LogCut => RunningFault::DataCut,
        RunFault::AnotherFleet => RunningFault::AnotherFleet,
        RunFault::NumberTaken => RunningFault::NumberTaken,
        RunFault::NumbersEnded => RunningFault::NumbersEnded,
    }
}

/// What a run over Redis ended by.
fn fault_of_redis(fault: RunningFault) -> RunningFault {
    match fault {
        RunningFault::DataFailed => RunningFault::RedisRefused,
        fault => fault,
    }
}
