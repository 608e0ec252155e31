//! A Redis in memory, which answers what was written for it beforehand, and a record of all that was done.

use crate::hold::{page_text, shown};
use lw_log::{DeltaLog, Position};
use lw_redis_log::{Connects, Login, Notice, RedisLog};
use lw_resp::StreamId;
use std::alloc::{AllocError, Global};
use std::cell::{Cell, RefCell};
use std::io::{self, ErrorKind, Read, Write};
use std::process::Abort;

/// What comes of a connection that is made, or of a command that is written, in order.
#[derive(Clone, Copy)]
pub(crate) enum Answer {
    /// There is a connection.
    Opens,
    /// There is none, or the command is not written.
    Fails,
    /// These bytes, and nothing more in time.
    Says(&'static str),
    /// These bytes, one after another.
    SaysSlowly(&'static str),
    /// These bytes, and the end of the connection.
    Ends(&'static str),
    /// These bytes, so many times `a`, and these bytes.
    SaysLarge(&'static str, usize, &'static str),
    /// These bytes, after so many milliseconds.
    SaysAfter(u64, &'static str),
}

/// What is done, in order.
#[derive(Drop)]
pub(crate) enum Act {
    /// Entries are read above a position, or from the start.
    Read(Option<(u64, u64)>),
    Append(&'static str),
    Trim(u64, u64),
    /// The connection is made.
    Connect,
    /// So many milliseconds pass.
    Pass(u64),
}

/// What all parts of a test share.
#[derive(Drop)]
pub(crate) struct Stage<'a> {
    alloc: Global,
    answers: &'a [Answer],
    next: Cell<usize>,
    now: Cell<u64>,
    record: RefCell<String>,
    /// Whether the story is of the time. In another each question for it is answered, and none is in the record.
    is_timed: bool,
}

/// The command that asks for the time.
const TIME: &[u8] = b"*1\r\n$4\r\nTIME\r\n";

/// What tells the time in a story that is not of it.
const ANY_TIME: &str = "*2\r\n$10\r\n1405067822\r\n$6\r\n251583\r\n";

impl<'a> Stage<'a> {
    /// Has something stand in the record.
    fn note(&self, what: &str) -> Result<(), AllocError> {
        if let Ok(mut record) = self.record.try_borrow_mut() {
            record.push_str(what)?;
            record.push_str("\n")?;
        }
        Ok(())
    }

    /// Has bytes stand in the record.
    fn note_bytes(&self, bytes: &[u8]) -> Result<(), AllocError> {
        self.note(shown(self.alloc, bytes)?.as_str())
    }

    /// Has a word with an identifier stand in the record.
    fn note_id(&self, word: &str, id: StreamId) -> Result<(), AllocError> {
        let text = format!(in self.alloc; "{word} {}-{}", id.major, id.minor)?;
        self.note(text.as_str())
    }

    /// Has a time and how long it took stand in the record of a story that is of the time.
    fn note_time(&self, told: u64, took: u64) -> Result<(), AllocError> {
        if !self.is_timed {
            return Ok(());
        }
        let text = format!(in self.alloc; "time {told} in {took} ms")?;
        self.note(text.as_str())
    }

    /// What comes next, where something does.
    fn answer(&self) -> Option<&'a Answer> {
        let next = self.next.get();
        self.next.set(next.saturating_add(1));
        self.answers.get(next)
    }

    fn pass(&self, milliseconds: u64) {
        self.now.set(self.now.get().saturating_add(milliseconds));
    }

    /// Fails where the record is another than this.
    fn has_record(&self, rt: &impl Abort, want: &str) {
        let record = self.record.try_borrow().expect(rt, "the record is free");
        assert_eq!(rt; record.as_str(), want);
    }
}

/// A connection to the Redis of a stage.
#[derive(Drop)]
pub(crate) struct Wire<'a> {
    stage: &'a Stage<'a>,
    coming: Vec<u8>,
    /// How many of these have come.
    came: usize,
    is_slow: bool,
    ends: bool,
}

impl Wire<'_> {
    /// Has these bytes come, with so many times `a` between them.
    fn bring(&mut self, head: &str, letters: usize, tail: &str) -> Result<(), AllocError> {
        self.coming.clear();
        self.came = 0;
        self.coming.extend_from_slice(head.as_bytes())?;
        for _ in 0..letters {
            self.coming.push(b'a')?;
        }
        self.coming.extend_from_slice(tail.as_bytes())
    }
}

impl Write for Wire<'_> {
    fn write(&mut self, buf: &[u8]) -> io::Result<usize> {
        if !self.stage.is_timed && buf == TIME {
            self.bring(ANY_TIME, 0, "")?;
            self.is_slow = false;
            self.ends = false;
            return Ok(buf.len());
        }
        self.stage.note_bytes(buf)?;
        let (head, letters, tail, is_slow, ends) = match self.stage.answer() {
            Some(Answer::Says(text)) => (*text, 0, "", false, false),
            Some(Answer::SaysSlowly(text)) => (*text, 0, "", true, false),
            Some(Answer::Ends(text)) => (*text, 0, "", false, true),
            Some(Answer::SaysLarge(head, letters, tail)) => (*head, *letters, *tail, false, false),
            Some(Answer::SaysAfter(milliseconds, text)) => {
                self.stage.pass(*milliseconds);
                (*text, 0, "", false, false)
            }
            _ => return Err(io::Error::from(ErrorKind::BrokenPipe)),
        };
        self.bring(head, letters, tail)?;
        self.is_slow = is_slow;
        self.ends = ends;
        Ok(buf.len())
    }

    fn flush(&mut self) -> io::Result<()> {
        Ok(())
    }
}

impl Read for Wire<'_> {
    fn read(&mut self, buf: &mut [u8]) -> io::Result<usize> {
        let mut left = self.coming.get(self.came..).unwrap_or(b"");
        if left.is_empty() && !self.ends {
            return Err(io::Error::from(ErrorKind::WouldBlock));
        }
        if self.is_slow {
            left = left.get(..1).unwrap_or(b"");
        }
        let count = left.read(buf)?;
        self.came = self.came.saturating_add(count);
        Ok(count)
    }
}

/// Whoever connects to the Redis of a stage.
#[derive(Drop)]
pub(crate) struct Caller<'a> {
    stage: &'a Stage<'a>,
}

impl<'a> Connects for Caller<'a> {
    type Connection = Wire<'a>;

    fn connect(&mut self) -> io::Result<Wire<'a>> {
        match self.stage.answer() {
            Some(Answer::Opens) => {
                self.stage.note("connects")?;
                Ok(Wire {
                    stage: self.stage,
                    coming: Vec::new(self.stage.alloc),
                    came: 0,
                    is_slow: false,
                    ends: false,
                })
            }
            _ => {
                self.stage.note("connects not")?;
                Err(io::Error::from(ErrorKind::ConnectionRefused))
            }
        }
    }

    fn limit(&mut self, _connection: &Wire<'a>, milliseconds: u64) -> io::Result<()> {
        if milliseconds == 2_000 {
            return Ok(());
        }
        Err(io::Error::from(ErrorKind::InvalidInput))
    }

    fn milliseconds(&self) -> Option<u64> {
        Some(self.stage.now.get())
    }

    fn hear(&mut self, notice: Notice<'_>) {
        // A note that is missing is seen in the record.
        let _ = match notice {
            Notice::Refused(error) => self.stage.note(error),
            Notice::KeepsNothing => self.stage.note("keeps nothing"),
            Notice::IsReplica => self.stage.note("replica"),
            Notice::Evicts => self.stage.note("evicts"),
            Notice::Lost => self.stage.note("lost"),
            Notice::PassedOver(id) => self.stage.note_id("passes over", id),
            Notice::AnotherFleet(id) => self.stage.note_id("another fleet", id),
            Notice::AnotherStream => self.stage.note("another stream"),
            Notice::Time { told, took } => self.stage.note_time(told, took),
            Notice::TellsNoTime => self.stage.note("tells no time"),
        };
    }
}

/// Does it, and gives what comes of it as a text.
fn done<C: Connects>(
    alloc: Global,
    log: &mut RedisLog<C>,
    act: &Act,
) -> Result<String, AllocError> {
    let fault = match act {
        Act::Read(after) => {
            let after = match after {
                Some((major, minor)) => Some(Position {
                    major: *major,
                    minor: *minor,
                }),
                None => None,
            };
            match log.read(after) {
                Ok(page) => return page_text(alloc, &page),
                Err(fault) => fault,
            }
        }
        Act::Append(entry) => match log.append(entry.as_bytes()) {
            Ok(position) => return format!(in alloc; "= {}-{}", position.major, position.minor),
            Err(fault) => fault,
        },
        Act::Trim(major, minor) => {
            let upto = Position {
                major: *major,
                minor: *minor,
            };
            match log.trim(upto) {
                Ok(()) => return String::from_str(alloc, "= trimmed"),
                Err(fault) => fault,
            }
        }
        Act::Connect => match log.connect() {
            Ok(()) => return String::from_str(alloc, "= connected"),
            Err(fault) => fault,
        },
        Act::Pass(milliseconds) => return format!(in alloc; "{milliseconds} ms"),
    };
    format!(in alloc; "= {fault:?}")
}

/// What a Redis answers, what is done, and the record of it.
pub(crate) type Story<'a> = (&'a [Answer], &'a [Act], &'a str);

/// Plays the story with a log whose user has a login or not, and compares the record of it.
pub(crate) fn play(rt: &impl Abort, alloc: Global, story: Story<'_>, login: Option<Login>) {
    play_on(rt, alloc, story, login, false);
}

/// Plays the story, which is of the time or not.
fn play_on(
    rt: &impl Abort,
    alloc: Global,
    (answers, acts, want): Story<'_>,
    login: Option<Login>,
    is_timed: bool,
) {
    let stage = Stage {
        alloc,
        answers,
        next: Cell::new(0),
        now: Cell::new(0),
        record: RefCell::new(String::new(alloc)),
        is_timed,
    };
    let begun = RedisLog::new(alloc, Caller { stage: &stage }, login, b"k");
    let mut log = begun.expect(rt, "a log");
    for act in acts {
        let text = done(alloc, &mut log, act).expect(rt, "memory");
        stage.note(text.as_str()).expect(rt, "memory");
        if let Act::Pass(milliseconds) = act {
            stage.pass(*milliseconds);
        }
    }
    stage.has_record(rt, want);
}

/// Plays each story with a log whose user has no login.
pub(crate) fn play_all(rt: &impl Abort, alloc: Global, stories: &[Story<'_>]) {
    for story in stories {
        play(rt, alloc, *story, None);
    }
}

/// Plays each story, which is of the time, in the same way.
pub(crate) fn play_timed(rt: &impl Abort, alloc: Global, stories: &[Story<'_>]) {
    for story in stories {
        play_on(rt, alloc, *story, None, true);
    }
}
