mod calls;
mod changed;
mod copied;
mod counters;
mod deltas;
mod ended;
mod once;
mod refused;
mod swept;

use crate::steps::Step::{self, *};
use crate::steps::{Row, Run, call_of, play, text_of};
use lw_node::*;
use lw_stamp::Moment;
use std::alloc::Global;
use std::process::Abort;

/// A Register of `a` with the object list `</>`, message ID 4.
const REGISTER: &str = "take 1 0 127.0.0.1:5683 40020004b272644465703d61ff3c2f3e";

/// A Register of `b` with the object list `</>`, message ID 5.
const REGISTER_B: &str = "take 1 0 127.0.0.1:5683 40020005b272644465703d62ff3c2f3e";

/// The reply to the first Register with message ID 4 at node 1.
const CREATED: &str = "taken 604100048272640d0330303030303030303030303130303031 -";

/// What a first Register of `a` at node 1 shows.
const SHOWN: &str =
    r#"{"address":"127.0.0.1:5683","attributes":{},"binding":"U","endpoint":"a","id":"0000000000010001","lifetime":86400,"lwm2m":"1.0","objects":"</>","queue":false,"seen":0,"sms":null}"#;

/// Plays the run at a new node with number 1.
fn play_new(rt: &impl Abort, alloc: Global, run: Run<'_>) {
    let mut node = Node::new(alloc, 1);
    play(rt, alloc, &mut node, run);
}

/// Plays each of the runs at a node of its own.
fn play_each(rt: &impl Abort, alloc: Global, runs: &[Run<'_>]) {
    for run in runs {
        play_new(rt, alloc, *run);
    }
}
