//! What is logged of a request: its method and its target, as they came.

use std::fmt::{self, Display, Formatter, Write};

/// How many bytes of a method are logged, and of a target.
const MAX_LOGGED: usize = 200;

/// A word that came, as far as it is logged.
#[derive(Clone, Copy)]
pub(crate) struct Word {
    bytes: [u8; MAX_LOGGED],
    count: usize,
}

impl Word {
    fn new() -> Word {
        Word {
            bytes: [0; MAX_LOGGED],
            count: 0,
        }
    }

    fn put(&mut self, byte: u8) {
        if let Some(place) = self.bytes.get_mut(self.count) {
            *place = byte;
            self.count = self.count.saturating_add(1);
        }
    }
}

/// Each byte that is no visible character of ASCII is escaped, so that nobody forges a line.
impl Display for Word {
    fn fmt<W: Write>(&self, f: &mut Formatter<W>) -> fmt::Result {
        match self.bytes.get(..self.count) {
            None | Some([]) => f.write_str("-"),
            Some(bytes) => write!(f, "{}", bytes.escape_ascii()),
        }
    }
}

/// Of what the next byte is.
#[derive(Clone, Copy)]
enum Part {
    Method,
    Target,
    /// Of what is not logged.
    Rest,
}

/// The first line of a request.
#[derive(Drop)]
pub(crate) struct RequestLine {
    pub(crate) method: Word,
    pub(crate) target: Word,
    part: Part,
}

impl RequestLine {
    /// Of which nothing has come.
    pub(crate) fn new() -> RequestLine {
        RequestLine {
            method: Word::new(),
            target: Word::new(),
            part: Part::Method,
        }
    }

    /// Notes what has come behind the bytes before.
    pub(crate) fn note(&mut self, bytes: &[u8]) {
        for byte in bytes {
            self.take(*byte);
        }
    }

    fn take(&mut self, byte: u8) {
        match (self.part, byte) {
            (Part::Rest, _) => {}
            (_, b'\r' | b'\n') => self.end(),
            (Part::Method, b' ') => self.part = Part::Target,
            (Part::Target, b' ') => self.part = Part::Rest,
            (Part::Method, _) => self.method.put(byte),
            (Part::Target, _) => self.target.put(byte),
        }
    }

    /// A line ends. Empty ones before the first are none (RFC 9112, section 2.2).
    fn end(&mut self) {
        if self.method.count > 0 {
            self.part = Part::Rest;
        }
    }
}
