//! The lines of outcomes that have no text, or one of a length or with numbers that no script has. The others are
//! tested as scripts.

use super::*;
use lw_world::{Answer, ClockEnd, DeltaFault, MergeFault, ObserveFault, Outcome, Sending};

/// Outcomes that hold no text, and their lines.
const PLAIN: [(Outcome, &str); 17] = [
    (Outcome::NoSuchNode, "no node\n"),
    (Outcome::NoSuchMessage, "no message\n"),
    (Outcome::Taken(Err(NoMemory)), "no memory\n"),
    (
        Outcome::Observed(Err(ObserveFault::NotFound)),
        "refused 1\n",
    ),
    (
        Outcome::Observed(Err(ObserveFault::ClockEnd)),
        "refused 2\n",
    ),
    (
        Outcome::Observed(Err(ObserveFault::NoMemory)),
        "no memory\n",
    ),
    (
        Outcome::Cancelled(Err(ObserveFault::NotFound)),
        "refused 1\n",
    ),
    (
        Outcome::Cancelled(Err(ObserveFault::ClockEnd)),
        "refused 2\n",
    ),
    (
        Outcome::Cancelled(Err(ObserveFault::NoMemory)),
        "no memory\n",
    ),
    (Outcome::Swept(Ok(Some(LAST))), "swept ffffffffffffffff\n"),
    (Outcome::Swept(Ok(None)), "none\n"),
    (Outcome::Swept(Err(ClockEnd)), "refused 1\n"),
    (Outcome::Answered(Err(NoMemory)), "no memory\n"),
    (Outcome::Sent(Err(NoMemory)), "no memory\n"),
    (
        Outcome::Delivered(Err(MergeFault::NoMemory { joined: 3 })),
        "no memory\n",
    ),
    (Outcome::Delivered(Ok(0)), "joined 0\n"),
    (Outcome::Delivered(Ok(4_294_967_295)), "joined 4294967295\n"),
];

/// No run has one of these.
const MALFORMED: [(Outcome, &str); 8] = [
    (
        Outcome::Delivered(Err(MergeFault::Malformed(DeltaFault::Magic))),
        "malformed 1\n",
    ),
    (
        Outcome::Delivered(Err(MergeFault::Malformed(DeltaFault::Truncated))),
        "malformed 2\n",
    ),
    (
        Outcome::Delivered(Err(MergeFault::Malformed(DeltaFault::Order))),
        "malformed 3\n",
    ),
    (
        Outcome::Delivered(Err(MergeFault::Malformed(DeltaFault::Range))),
        "malformed 4\n",
    ),
    (
        Outcome::Delivered(Err(MergeFault::Malformed(DeltaFault::Text))),
        "malformed 5\n",
    ),
    (
        Outcome::Delivered(Err(MergeFault::Malformed(DeltaFault::ClockBelow))),
        "malformed 6\n",
    ),
    (
        Outcome::Delivered(Err(MergeFault::Malformed(DeltaFault::Trailing))),
        "malformed 7\n",
    ),
    (
        Outcome::Delivered(Err(MergeFault::Malformed(DeltaFault::NoMemory))),
        "malformed 8\n",
    ),
];

/// Of an answer that found nothing, and of change numbers.
const NOT_FOUND: [(Outcome, &str); 5] = [
    (Outcome::Answered(Ok(Answer::Registration(None))), "none\n"),
    (Outcome::Answered(Ok(Answer::Watched(None))), "none\n"),
    (Outcome::Answered(Ok(Answer::Expired(None))), "none\n"),
    (Outcome::Answered(Ok(Answer::Changed(0))), "0\n"),
    (
        Outcome::Answered(Ok(Answer::Changed(18_446_744_073_709_551_615))),
        "18446744073709551615\n",
    ),
];

/// Messages that were sent, their bytes, and the lines.
const SENT: [(Outcome, Option<&[u8]>, &str); 2] = [
    (
        Outcome::Sent(Ok(Sending {
            message: 4_294_967_295,
            change: 18_446_744_073_709_551_615,
        })),
        Some(&[0, 255]),
        "message 4294967295 18446744073709551615 00ff\n",
    ),
    (
        Outcome::Sent(Ok(Sending {
            message: 10,
            change: 2,
        })),
        None,
        "message 10 2 \n",
    ),
];

fn has_line(rt: &impl Abort, alloc: Global, outcome: &Outcome, message: Option<&[u8]>, text: &str) {
    let line = outcome_line(alloc, outcome, message).expect(rt, "memory");
    assert!(rt;
        line.as_slice() == text.as_bytes(),
        "another line than {text}"
    );
}

/// Each outcome has the line, whether or not bytes are lent.
fn have_lines(rt: &impl Abort, alloc: Global, rows: &[(Outcome, &str)]) {
    for (outcome, text) in rows {
        has_line(rt, alloc, outcome, None, text);
        has_line(rt, alloc, outcome, Some(b"1"), text);
    }
}

/// Tries: outcome_line
#[test]
fn outcomes_have_lines(rt: HostRuntime) {
    have_lines(&rt, rt.alloc(), &PLAIN);
    have_lines(&rt, rt.alloc(), &MALFORMED);
    have_lines(&rt, rt.alloc(), &NOT_FOUND);
    for (outcome, bytes, text) in &SENT {
        has_line(&rt, rt.alloc(), outcome, *bytes, text);
    }
}

/// Tries: put_outcome
#[test]
fn lines_one_behind_another(rt: HostRuntime) {
    let mut lines = Vec::new(rt.alloc());
    for (outcome, _) in &NOT_FOUND {
        put_outcome(&mut lines, rt.alloc(), outcome, None).expect(&rt, "memory");
    }
    let want = b"none\nnone\nnone\n0\n18446744073709551615\n";
    assert!(rt; lines.as_slice() == want.as_slice(), "the lines");
}

/// The line of a message of a million bytes 0xfa.
fn long_line(rt: &impl Abort, alloc: Global) -> String {
    let digits = "fa".repeat(alloc, 1_000_000).expect(rt, "memory");
    format!(in alloc; "message 7 8 {digits}\n").expect(rt, "memory")
}

/// Tries: outcome_line
#[test]
fn a_long_message(rt: HostRuntime) {
    let bytes = vec![in rt.alloc(); 0xfa; 1_000_000].expect(&rt, "memory");
    let text = long_line(&rt, rt.alloc());
    let outcome = Outcome::Sent(Ok(Sending {
        message: 7,
        change: 8,
    }));
    has_line(&rt, rt.alloc(), &outcome, Some(&bytes), text.as_str());
}
