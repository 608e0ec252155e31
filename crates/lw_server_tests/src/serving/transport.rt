//! A transport and a clock in memory.

ghost use Rattle.std.specs.Prelude.{◌≤◌, length, IfOk};
ghost use Rattle.lw_server.specs.Transport.{IsWithin};

use super::*;
use lw_path::read_path;
use lw_route::{Api, ApiQuery, ApiResponse, Command};
use lw_stamp::{Stamp, Text};
use std::time::Duration;

/// What an HTTP client asks for.
pub(super) enum Question {
    Page,
    Health,
    Node,
    Metrics,
    /// All that devices told.
    Notifications,
}

/// What a transport gives.
pub(super) enum Coming {
    /// A datagram from the port of 127.0.0.1, in hex, when it is waited for.
    Datagram(u16, &'static str),
    /// One that is there with what came before.
    AtOnce(u16, &'static str),
    /// The time is over.
    Nothing,
    /// A fault.
    Fault,
    /// An HTTP client has the path of `a` observed.
    Observe(&'static str),
    /// An HTTP client has the observation end whose token is made by node 1 and has the counter.
    Cancel(u8),
    /// An HTTP client asks for these in turn.
    Asks(&'static [Question]),
    /// The same, so many times.
    Times(u32, &'static Coming),
}

/// A transport in memory. Where all has come it is over. Two HTTP clients have asked for what is not there, and seven
/// datagrams were dropped.
#[derive(Drop)]
pub(super) struct MemoryTransport {
    alloc: Global,
    comings: &'static [Coming],
    /// How many have come.
    taken: usize,
    /// How often the next one has come that is to come several times.
    again: u32,
    /// Whether each send fails.
    send_fails: bool,
    /// What was sent, to which ports, and what HTTP clients were told, a line each.
    sent: String,
}

impl MemoryTransport {
    pub(super) fn new(alloc: Global, stage: &Stage) -> MemoryTransport {
        MemoryTransport {
            alloc,
            comings: stage.comings,
            taken: 0,
            again: 0,
            send_fails: stage.send_fails,
            sent: String::new(alloc),
        }
    }

    pub(super) fn into_sent(self) -> String {
        self.sent
    }

    /// What comes next.
    fn next(&self) -> Option<&'static Coming> {
        match self.comings.get(self.taken)? {
            Coming::Times(_, coming) => Some(*coming),
            coming => Some(coming),
        }
    }

    /// Goes on behind what came.
    fn go_on(&mut self) {
        self.again = self.again.wrapping_add(1);
        if let Some(Coming::Times(times, _)) = self.comings.get(self.taken)
            && self.again < *times
        {
            return;
        }
        self.again = 0;
        self.taken = self.taken.wrapping_add(1);
    }

    fn put(&self, buffer: &mut [u8], port: u16, datagram: &str) -> Result<(usize, Addr), WireFault>
        ensures { IfOk result (λ taken. taken.0 ≤ length buffer.new) }
    {
        let bytes = hex::decode(self.alloc, datagram).ok().ok_or(WireFault)?;
        let count = bytes.len().min(buffer.len());
        buffer[..count].copy_from_slice(&bytes[..count]);
        let address = [127, 0, 0, 1];
        Ok((count, Addr::V4 { address, port }))
    }

    /// Hears what comes next.
    fn hear<A: Api>(&mut self, api: &mut A, buffer: &mut [u8]) -> Result<Incoming, WireFault>
        ensures { IfOk result (IsWithin (length buffer.new)) }
    {
        let Some(coming) = self.next() else {
            return Ok(Incoming::Closed);
        };
        self.go_on();
        match *coming {
            Coming::Datagram(port, datagram) | Coming::AtOnce(port, datagram) => {
                let (count, from) = self.put(buffer, port, datagram)?;
                Ok(Incoming::Datagram(count, from))
            }
            Coming::Fault => Err(WireFault),
            _ => {
                self.serve_http(api, coming)?;
                Ok(Incoming::Nothing)
            }
        }
    }

    /// Adds what an HTTP client is told, if one comes.
    fn serve_http<A: Api>(&mut self, api: &mut A, coming: &Coming) -> Result<(), WireFault> {
        match *coming {
            Coming::Observe(path) => self.command(api, observe(self.alloc, path)),
            Coming::Cancel(counter) => self.command(api, cancel(counter)),
            Coming::Asks(asked) => self.ask(api, asked),
            _ => Ok(()),
        }
    }

    /// Has a command carried out, and adds a line where the API then has nothing to send.
    fn command<A: Api>(&mut self, api: &mut A, command: Option<Command>) -> Result<(), WireFault> {
        let command = command.ok_or(WireFault)?;
        self.put_answer(api.carry_out(&command))?;
        if api.wants_to_send() {
            return Ok(());
        }
        self.put_line("nothing to send")
    }

    fn put_line(&mut self, line: &str) -> Result<(), WireFault> {
        writeln!(self.sent, "{line}").ok().ok_or(WireFault)
    }

    fn ask<A: Api>(&mut self, api: &A, questions: &[Question]) -> Result<(), WireFault> {
        for question in questions {
            let answer = api.answer(&asked_by(question)).ok();
            self.put_answer(answer)?;
        }
        Ok(())
    }

    fn put_answer(&mut self, answer: Option<ApiResponse>) -> Result<(), WireFault> {
        let ApiResponse {
            status,
            media,
            body,
        } = answer.ok_or(WireFault)?;
        writeln!(self.sent, "{status:?} {media:?} {body}")
            .ok()
            .ok_or(WireFault)
    }

    /// Adds a line, if there is memory for it.
    fn put_sent(&mut self, to: Addr, bytes: &[u8]) -> Option<()> {
        let (Addr::V4 { port, .. } | Addr::V6 { port, .. }) = to;
        let bytes = hex::encode(self.alloc, bytes).ok()?;
        writeln!(self.sent, "{port} {bytes}").ok()
    }
}

/// The command that has the path of `a` observed.
fn observe(alloc: Global, path: &str) -> Option<Command> {
    Some(Command::Observe {
        path: read_path(path)?,
        endpoint: Text::copy_of(alloc, "a").ok()?,
        accept: None,
    })
}

fn asked_by(question: &Question) -> ApiQuery {
    match question {
        Question::Page => ApiQuery::Page,
        Question::Health => ApiQuery::Health,
        Question::Node => ApiQuery::Node,
        Question::Metrics => ApiQuery::Metrics,
        Question::Notifications => ApiQuery::Notifications {
            from: 0,
            start: None,
            limit: 64,
        },
    }
}

fn cancel(counter: u8) -> Option<Command> {
    let token = Stamp::from_bytes([0, 0, 0, 0, 0, counter, 0, 1])?;
    Some(Command::Cancel { token })
}

impl Transport for MemoryTransport {
    fn poll<A: Api + Drop>(
        &mut self,
        api: A,
        buffer: &mut [u8],
        _time: Duration,
    ) -> (A, Result<Incoming, WireFault>) {
        let mut api = api;
        let incoming = self.hear(&mut api, buffer);
        (api, incoming)
    }

    fn more(&mut self, buffer: &mut [u8]) -> Result<Option<(usize, Addr)>, WireFault> {
        let Some(Coming::AtOnce(port, datagram)) = self.next() else {
            return Ok(None);
        };
        self.go_on();
        Ok(Some(self.put(buffer, *port, datagram)?))
    }

    fn send(&mut self, to: Addr, bytes: &[u8]) -> Result<(), WireFault> {
        if self.send_fails {
            return Err(WireFault);
        }
        self.put_sent(to, bytes).ok_or(WireFault)
    }

    fn responses(&self) -> Responses {
        let mut responses = Responses::new();
        responses.count(404);
        responses.count(404);
        responses
    }

    fn drops(&self) -> u64 {
        7
    }
}

/// A clock in memory. It gives the moments in turn, in milliseconds, and the last of them from then on. The host's own
/// stands so to it.
#[derive(Drop)]
pub(super) struct Ticks {
    moments: &'static [u64],
    offset: Offset,
    readings: usize,
}

impl Ticks {
    pub(super) fn new(moments: &'static [u64], offset: Offset) -> Ticks {
        Ticks {
            moments,
            offset,
            readings: 0,
        }
    }
}

impl Clocks for Ticks {
    fn read(&mut self) -> Option<Times> {
        let ms = self.moments.get(self.readings).or(self.moments.last())?;
        self.readings = self.readings.wrapping_add(1);
        let moment = Moment::new(*ms)?;
        Some(Times {
            moment,
            steady: moment,
        })
    }

    fn offset(&self) -> Offset {
        self.offset
    }
}
