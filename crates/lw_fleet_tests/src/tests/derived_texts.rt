//! The line of each fault is the text that is derived for it, up to where that explains itself.

use super::telling::{AnyFault, is_derived};
use super::{FAULTS, running_server, serving};

/// Tries: Fault::tell
#[test]
fn faults_of_one_and_replay(rt: HostRuntime) {
    for (fault, line) in &FAULTS {
        is_derived(&rt, rt.alloc(), AnyFault::Common(*fault), line);
    }
}

/// Tries: ServingFault::tell, program
#[test]
fn faults_of_serve(rt: HostRuntime) {
    for (fault, line) in &serving::LINES {
        is_derived(&rt, rt.alloc(), AnyFault::Serving(*fault), line);
    }
}

/// Tries: RunningFault::tell
#[test]
fn faults_of_run(rt: HostRuntime) {
    for (fault, line) in &running_server::LINES {
        is_derived(&rt, rt.alloc(), AnyFault::Running(*fault), line);
    }
}
