//! A run with what comes of it.

use super::*;
use std::alloc::AllocError;
use std::process::Abort;

/// A piece of a text.
pub(super) enum Piece {
    /// A text as it stands.
    Text(&'static str),
    /// A text that ends its line.
    Line(&'static str),
    /// The line of a datagram that is sent: to which port, and in hex.
    Sent(u16, &'static str),
    /// A text, so many times.
    Times(u32, &'static str),
}

impl Piece {
    fn put(&self, text: &mut String) -> Result<(), AllocError> {
        match *self {
            Piece::Text(part) => text.push_str(part),
            Piece::Line(line) => writeln!(text, "{line}"),
            Piece::Sent(port, bytes) => writeln!(text, "{port} {bytes}"),
            Piece::Times(times, part) => put_times(text, times, part),
        }
    }
}

fn put_times(text: &mut String, times: u32, part: &str) -> Result<(), AllocError> {
    for _time in 0..times {
        text.push_str(part)?;
    }
    Ok(())
}

/// A run, and the text of what comes of it: the whole, or all but the first line, which has how the run ended and what
/// was asked of its log.
pub(super) struct Run {
    pub(super) name: &'static str,
    pub(super) stage: Stage,
    pub(super) want: &'static [Piece],
}

/// Fails at a run of which something else comes.
pub(super) fn plays(rt: &impl Abort, alloc: Global, runs: &[Run]) {
    for run in runs {
        let text = run.stage.play(rt, alloc).expect(rt, run.name);
        let want = run.want(rt, alloc);
        assert!(rt;
            is_wanted(text.as_str(), want.as_str()),
            "{}: {text}",
            run.name
        );
    }
}

/// Whether it is the wanted text, or that is all behind its first line.
fn is_wanted(text: &str, want: &str) -> bool {
    match text.split_once('\n') {
        Some((_, rest)) => text == want || rest == want,
        None => text == want,
    }
}

impl Run {
    fn want(&self, rt: &impl Abort, alloc: Global) -> String {
        let mut text = String::new(alloc);
        for piece in self.want {
            piece.put(&mut text).expect(rt, self.name);
        }
        text
    }
}
