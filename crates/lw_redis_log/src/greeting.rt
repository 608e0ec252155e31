//! What is asked at a new connection.

ghost use Rattle.std.specs.Prelude.{◌≢◌, IfErr};

use crate::commands::{info_command, login_command, ping_command, time_command};
use crate::connects::{Connects, Notice};
use crate::errors::error_prefix;
use crate::outcomes::RedisFault;
use crate::redis_log::RedisLog;
use crate::replies::{said, settings};
use crate::settings::Settings;
use crate::times::time_told;
use lw_log::LogFault;
use lw_stamp::NoMemory;

impl<C: Connects> RedisLog<C> {
    /// Makes the connection where there is none, and so learns what time it is by the server's clock. Want of memory
    /// is as unavailable.
    pub fn connect(&mut self) -> Result<(), LogFault>
        ensures asked { IfErr result (λ fault. fault ≢ LogFault.NoMemory) }
    {
        self.make_ready()
    }

    /// Makes a connection where there is none.
    pub(crate) fn make_ready(&mut self) -> Result<(), LogFault>
        ensures asked { IfErr result (λ fault. fault ≢ LogFault.NoMemory) }
    {
        if self.line.is_open() {
            return Ok(());
        }
        if self.line.open().is_err() {
            return Err(LogFault::Unavailable);
        }
        self.greet()
    }

    fn greet(&mut self) -> Result<(), LogFault>
        ensures asked { IfErr result (λ fault. fault ≢ LogFault.NoMemory) }
    {
        self.log_in()?;
        self.ping()?;
        self.learn_settings()?;
        self.timing.begin();
        self.learn_time()?;
        self.is_new = true;
        Ok(())
    }

    /// The connection is of no use.
    fn give_up(&mut self, fault: RedisFault<'_>) -> LogFault
        ensures asked { result ≢ LogFault.NoMemory }
    {
        let fault = self.fail(fault);
        if self.line.is_open() {
            self.line.close();
        }
        fault
    }

    /// The bytes of the reply to a command, if there was memory to make it.
    fn ask_made(&mut self, command: Result<Vec<u8>, NoMemory>) -> Result<Vec<u8>, LogFault>
        ensures asked { IfErr result (λ fault. fault ≢ LogFault.NoMemory) }
    {
        match command {
            Ok(command) => self.ask(&command),
            Err(_) => Err(self.fail(RedisFault::Unavailable)),
        }
    }

    /// Logs in. Of a refusal only the first word is told: a server that does not know the command repeats the password.
    fn log_in(&mut self) -> Result<(), LogFault>
        ensures asked { IfErr result (λ fault. fault ≢ LogFault.NoMemory) }
    {
        let Some(login) = &self.login else {
            return Ok(());
        };
        let command = login_command(self.alloc, &login.user, &login.password);
        let bytes = self.ask_made(command)?;
        match said(b"OK", self.alloc, &bytes) {
            Ok(()) => Ok(()),
            Err(RedisFault::Refused(text)) => {
                Err(self.give_up(RedisFault::Refused(error_prefix(text))))
            }
            Err(fault) => Err(self.give_up(fault)),
        }
    }

    fn ping(&mut self) -> Result<(), LogFault>
        ensures asked { IfErr result (λ fault. fault ≢ LogFault.NoMemory) }
    {
        let bytes = self.ask_made(ping_command(self.alloc))?;
        match said(b"PONG", self.alloc, &bytes) {
            Ok(()) => Ok(()),
            Err(fault) => Err(self.give_up(fault)),
        }
    }

    /// Asks what the server is. One that does not tell is used nevertheless.
    fn learn_settings(&mut self) -> Result<(), LogFault>
        ensures asked { IfErr result (λ fault. fault ≢ LogFault.NoMemory) }
    {
        let bytes = self.ask_made(info_command(self.alloc))?;
        match settings(self.alloc, &bytes) {
            Ok(settings) => {
                self.warn(settings);
                Ok(())
            }
            Err(RedisFault::Refused(_)) => Ok(()),
            Err(fault) => Err(self.give_up(fault)),
        }
    }

    /// Asks what time it is, where the stopwatch tells how long that takes. A server that does not tell is used
    /// nevertheless, and is not asked again over the connection.
    pub(crate) fn learn_time(&mut self) -> Result<(), LogFault>
        ensures asked { IfErr result (λ fault. fault ≢ LogFault.NoMemory) }
    {
        let Some(asked) = self.line.world.milliseconds() else {
            return Ok(());
        };
        self.timing.note(asked);
        let bytes = self.ask_made(time_command(self.alloc))?;
        match time_told(&bytes) {
            Ok(told) => {
                self.tell_time(told, asked);
                Ok(())
            }
            Err(RedisFault::Refused(_)) => {
                self.note_silence();
                Ok(())
            }
            Err(fault) => Err(self.give_up(fault)),
        }
    }

    /// Tells what time it is, which was asked for at a moment of the stopwatch.
    fn tell_time(&mut self, told: u64, asked: u64) {
        if let Some(now) = self.line.world.milliseconds() {
            let took = now.saturating_sub(asked);
            self.line.world.hear(Notice::Time { told, took });
        }
    }

    /// The server does not tell the time, which is told once.
    fn note_silence(&mut self) {
        if self.timing.note_refusal() {
            self.line.world.hear(Notice::TellsNoTime);
        }
    }

    /// Tells of what may lose the stream, of each once.
    fn warn(&mut self, settings: Settings) {
        if settings.keeps_nothing && !self.warned.keeps_nothing {
            self.warned.keeps_nothing = true;
            self.line.world.hear(Notice::KeepsNothing);
        }
        if settings.is_replica && !self.warned.is_replica {
            self.warned.is_replica = true;
            self.line.world.hear(Notice::IsReplica);
        }
        if settings.evicts && !self.warned.evicts {
            self.warned.evicts = true;
            self.line.world.hear(Notice::Evicts);
        }
    }
}
