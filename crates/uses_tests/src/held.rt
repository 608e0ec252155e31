//! Callers of nodes behind locks, and of journals.

use crate::given::{HOME, REGISTER};
use lw_call::{Call, Question, Reply};
use lw_held::{Held, Part, Pass, Volume, set_up};
use lw_node::{Answer, Bytes};
use lw_stamp::{Moment, Text};
use std::alloc::Global;
use std::process::Abort;
use uses::{ask_from_threads, call_and_cut, clocks, stands_in};

/// Asks for the endpoint `a` at the start.
fn question(rt: &impl Abort, alloc: Global) -> Call {
    let endpoint = Text::copy_of(alloc, "a").expect(rt, "memory");
    Call::Ask {
        now: Moment::START,
        question: Question::ByEndpoint(endpoint),
    }
}

/// Takes the datagram at the start.
fn taking(rt: &impl Abort, alloc: Global, datagram: &[u8]) -> Call {
    let bytes = Bytes::copy_from_slice(alloc, datagram).expect(rt, "memory");
    Call::Take {
        now: Moment::START,
        from: HOME,
        bytes,
    }
}

/// Tries: ask_from_threads
#[test]
fn two_threads_ask(rt: HostRuntime) {
    let (shelves, mut passes) = set_up(rt.alloc(), 1, 2).expect(&rt, "memory");
    let second = passes.pop().expect(&rt, "a second pass");
    let first = passes.pop().expect(&rt, "a first pass");
    assert!(rt; first.number() != second.number());
    let shelf = shelves.first().expect(&rt, "a shelf");
    let call = taking(&rt, rt.alloc(), REGISTER);
    let asks = question(&rt, rt.alloc());
    let asked = ask_from_threads(&rt, &shelves, shelf, (first, &call), (second, &asks));
    let passes = asked.expect(&rt, "settled");
    let counts = (passes[0].len(), passes[1].len());
    assert!(rt; counts == (1, 1), "a part each");
}

/// The volume of a node whose journal is cut behind a Register.
fn registered(rt: &impl Abort, alloc: Global, held: &mut Held, pass: &mut Pass) -> Volume {
    let call = taking(rt, alloc, REGISTER);
    let cut = call_and_cut(1, held, pass, &call).expect(rt, "memory");
    cut.expect(rt, "a volume")
}

/// Asks the node for the endpoint.
fn ask(rt: &impl Abort, alloc: Global, held: &mut Held, pass: &mut Pass) {
    let asks = question(rt, alloc);
    pass.step(1, held, &asks).expect(rt, "memory");
}

fn are_clocks(volume: &Volume, want: (u64, u64)) -> bool {
    clocks(volume) == want
}

/// Whether the part is of a question by which a registration was found.
fn has_found(part: &Part) -> bool {
    match &part.entry.reply {
        Reply::Ask(answered) => match answered {
            Ok(answer) => is_registration(answer),
            Err(_) => false,
        },
        _ => false,
    }
}

fn is_registration(answer: &Answer) -> bool {
    match answer {
        Answer::Registration(found) => found.is_some(),
        _ => false,
    }
}

/// The call of the one pass is in the volume, and that of the other is not, which has found what registered.
fn is_read(rt: &impl Abort, volume: &Volume, pass: &Pass, other: &Pass) {
    let part = pass.part(0).expect(rt, "a part");
    assert!(rt; stands_in(volume, part), "the call is in it");
    let later = other.part(0).expect(rt, "a part");
    assert!(rt; !stands_in(volume, later), "the later one is not");
    assert!(rt; has_found(later), "found");
}

/// A node is cut behind a Register that is made with one pass, and then asked with another.
/// Tries: call_and_cut, clocks, stands_in
#[test]
fn a_volume_is_read(rt: HostRuntime) {
    let mut held = Held::new(rt.alloc(), 1);
    let (_shelves, mut passes) = set_up(rt.alloc(), 1, 2).expect(&rt, "memory");
    let mut other = passes.pop().expect(&rt, "a second pass");
    let mut pass = passes.pop().expect(&rt, "a first pass");
    let volume = registered(&rt, rt.alloc(), &mut held, &mut pass);
    ask(&rt, rt.alloc(), &mut held, &mut other);
    assert!(rt; are_clocks(&volume, (0, 1)), "the clocks");
    is_read(&rt, &volume, &pass, &other);
}
