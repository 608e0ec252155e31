//! A server that shares its fleet with others, over a stream of Redis.

use crate::file_front::read_front;
use crate::run_host::{OwnClocks, draw, fault_of_run, host_clocks, moment, stopwatch};
use log::{Log, info};
use lw_fleet::{RedisOptions, RunningFault};
use lw_log::{DeltaLog, FleetId, LogFault};
use lw_redis_log::{Login, LoginFault, RedisClock, RedisLog, TcpRedis};
use lw_replica::{Call, Randomness, Replica, ReplicaFault};
use lw_server::{FleetClock, Moment, RunFault, SharedClocks, Stopwatch, TimedLog};
use lw_sockets::SystemStopwatch;
use std::thread;
use std::time::Duration;

/// How long a start waits for Redis, in microseconds.
const PATIENCE: u64 = 10_000_000;

/// How long it waits before it asks again, in milliseconds.
const PAUSE: u64 = 100;

/// How many bytes of a file with a login are read: two lines fit.
const LOGIN_ROOM: usize = 1_024;

/// A log over the stream, which is timed.
pub(crate) type SharedLog<'a, 'n, L> = TimedLog<
    RedisLog<TcpRedis<'a, 'n, HostRuntime, L>>,
    SystemStopwatch<'a, HostRuntime>,
>;

/// The clock of the fleet, as Redis tells it.
#[derive(Drop)]
pub(crate) struct RedisMoments<'a> {
    clock: &'a RedisClock<'a, HostRuntime>,
}

impl FleetClock for RedisMoments<'_> {
    fn moment(&self) -> Option<Moment> {
        Moment::new(self.clock.milliseconds()?)
    }
}

/// Where the servers of a fleet meet: a stream of a Redis, whose clock they go by.
#[derive(Drop)]
pub(crate) struct Shared<'a, 'n, L: Log> {
    pub(crate) host: &'a HostRuntime,
    pub(crate) log: &'a L,
    pub(crate) options: &'a RedisOptions<'n>,
    pub(crate) clock: &'a RedisClock<'a, HostRuntime>,
}

impl<'a, 'n, L: Log> Shared<'a, 'n, L> {
    /// The moment that it is: by the host's clock where Redis has told none.
    pub(crate) fn moment(&self) -> Result<Moment, RunningFault> {
        match (RedisMoments { clock: self.clock }).moment() {
            Some(moment) => Ok(moment),
            None => moment(self.host),
        }
    }

    /// The clocks of a server that is started at the moment.
    pub(crate) fn clocks(
        &self,
        start: Moment,
    ) -> Result<SharedClocks<OwnClocks<'a>, RedisMoments<'a>>, RunningFault> {
        let fleet = RedisMoments { clock: self.clock };
        Ok(SharedClocks::new(host_clocks(self.host, start)?, fleet))
    }

    /// A replica of the fleet that the stream has, or that it founds where that is asked for. Where Redis is
    /// unavailable, or the stream has no fleet yet, it is asked again, for ten seconds.
    pub(crate) fn begin(
        &self,
        founds: bool,
    ) -> Result<Replica<SharedLog<'a, 'n, L>>, RunningFault> {
        let waited = stopwatch(self.host)?;
        // One for all attempts: what one has founded, though it was not told so, the next knows as its own.
        let own = draw(self.host)?.fleet;
        let mut told = false;
        for _attempt in 0..u64::MAX {
            let fault = match self.attempt(founds, own)? {
                Ok(replica) => return Ok(replica),
                Err(fault) => fault,
            };
            if fault == RunningFault::NoFleet && !told {
                info!(self.log; "no fleet in the stream yet: its first server begins with --found");
                told = true;
            }
            if is_over(&waited) {
                return Err(fault);
            }
            thread::sleep(self.host, Duration::from_millis(PAUSE));
        }
        Err(RunningFault::RedisAway)
    }

    /// A replica of the fleet that the stream has. Where it has none, and that is asked for, it founds its own. Else it
    /// is what the start ends by where the time is over.
    fn attempt(
        &self,
        founds: bool,
        own: FleetId,
    ) -> Result<Result<Replica<SharedLog<'a, 'n, L>>, RunningFault>, RunningFault> {
        let mut replica = match self.try_begin(own)? {
            Ok(replica) => replica,
            Err(fault) => return Ok(Err(passing(fault)?)),
        };
        match replica.fleet() {
            None if founds => {}
            None => return Ok(Err(RunningFault::NoFleet)),
            Some(fleet) if founds && fleet != own => return Err(RunningFault::FleetExists),
            Some(_) => return Ok(Ok(replica)),
        }
        match self.found(&mut replica)? {
            Ok(()) => {
                info!(self.log; "fleet founded");
                Ok(Ok(replica))
            }
            // Another was faster.
            Err(ReplicaFault::NumberTaken | ReplicaFault::AnotherFleet) => {
                Err(RunningFault::FleetExists)
            }
            Err(fault) => Ok(Err(passing(fault)?)),
        }
    }

    /// Founds the fleet: a round that changes nothing has the replica write into the stream, whose first entry tells
    /// the fleet.
    fn found<G: DeltaLog>(
        &self,
        replica: &mut Replica<G>,
    ) -> Result<Result<(), ReplicaFault>, RunningFault> {
        let now = self.moment()?;
        match replica.round(&[Call::Sweep { now }]) {
            Ok(_) => Ok(Ok(())),
            Err(fault) => Ok(Err(fault)),
        }
    }

    /// A replica over the stream, which is read to its end. Redis is asked for the moment before.
    fn try_begin(
        &self,
        own: FleetId,
    ) -> Result<Result<Replica<SharedLog<'a, 'n, L>>, ReplicaFault>, RunningFault> {
        let host = self.host;
        let login = match self.options.login_file {
            None => None,
            Some(path) => Some(login_of_file(host, path)?),
        };
        let redis = TcpRedis::new(
            host,
            self.log,
            self.options.host,
            self.options.port,
            self.clock,
        );
        let stream = self.options.stream.as_bytes();
        let Ok(mut kept) = RedisLog::new(host.alloc(), redis, login, stream) else {
            return Err(RunningFault::NoMemory);
        };
        if let Err(fault) = kept.connect() {
            return Ok(Err(ReplicaFault::Log(fault)));
        }
        let timed = TimedLog::new(kept, stopwatch(host)?);
        let now = self.moment()?;
        let randomness = Randomness {
            fleet: own,
            ..draw(host)?
        };
        Ok(Replica::begin(host.alloc(), timed, &randomness, now))
    }
}

/// Whether a start has waited as long as it does.
fn is_over<S: Stopwatch>(waited: &S) -> bool {
    match waited.microseconds() {
        Some(passed) => passed >= PATIENCE,
        None => true,
    }
}

/// What a start ends by where the fault of its replica does not pass in time. One that does not pass ends it now.
fn passing(fault: ReplicaFault) -> Result<RunningFault, RunningFault> {
    match fault {
        ReplicaFault::Log(LogFault::Unavailable | LogFault::Lost) => Ok(RunningFault::RedisAway),
        ReplicaFault::Log(LogFault::Refused) => Err(RunningFault::RedisRefused),
        fault => Err(fault_of_run(RunFault::from(fault))),
    }
}

/// The user and the password in the file.
fn login_of_file(host: &HostRuntime, path: &str) -> Result<Login, RunningFault> {
    let mut room = [0; LOGIN_ROOM];
    let Ok(count) = read_front(host, path, &mut room) else {
        return Err(RunningFault::LoginRefused);
    };
    match Login::read(host.alloc(), &room[..count.min(LOGIN_ROOM)]) {
        Ok(login) => Ok(login),
        Err(LoginFault::Malformed) => Err(RunningFault::LoginRefused),
        Err(LoginFault::NoMemory) => Err(RunningFault::NoMemory),
    }
}
