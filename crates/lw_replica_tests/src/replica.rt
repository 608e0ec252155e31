//! Replicas over logs in memory.

mod acts;
mod asked;
mod compaction;
mod due;
mod ends;
mod failures;
mod poisoned;
mod refused;
mod restarts;
mod several;
mod stage;

use crate::compare::*;
use crate::shared::*;
use acts::Act::*;
use acts::Look::*;
use acts::{answers, begin};
use lw_log::{Bytes, DeltaLog, FleetId, LogFault, MemoryLog};
use lw_reg::Addr;
use lw_replica::{Moment, Randomness, Replica, ReplicaFault};
use stage::Entry::*;
use stage::Fate::*;
use stage::Step::*;
use stage::{ALONE, BESIDE, BOTH_WAYS, FIRST, SECOND, Step, Story, THIRD, play_all};
use std::alloc::Global;
use std::process::Abort;

const FLEET: FleetId = FleetId {
    bytes: [0, 1, 2, 3, 4, 5, 6, 7, 8, 9, 10, 11, 12, 13, 14, 15],
};

const OTHER_FLEET: FleetId = FleetId {
    bytes: [
        0xf0, 0xf1, 0xf2, 0xf3, 0xf4, 0xf5, 0xf6, 0xf7, 0xf8, 0xf9, 0xfa, 0xfb, 0xfc, 0xfd, 0xfe,
        0xff,
    ],
};

/// What the first start draws.
const FIRST_CHANCE: Randomness = Randomness {
    fleet: FLEET,
    tag: 0xa1a2_a3a4_a5a6_a7a8,
    number: 1,
};

/// What the second start draws: another fleet, another tag and another number.
const SECOND_CHANCE: Randomness = Randomness {
    fleet: OTHER_FLEET,
    tag: 0xb1b2_b3b4_b5b6_b7b8,
    number: 2,
};

/// The start entry of the first: magic, fleet, number 1, tag, sequence 1, kind 0.
const START: &str =
    "4c574531000102030405060708090a0b0c0d0e0f0001a1a2a3a4a5a6a7a8000000000000000100";

/// Its delta with the first Register of `a`, sequence 2.
const DELTA: &str = "4c574531000102030405060708090a0b0c0d0e0f0001a1a2a3a4a5a6a7a8000000000000000201\
4c57443300000000000101016100000000000100017f000000000000010001047f0000011633\
000000000001000100000000000000000000000100010001518000000000000100010155\
000000000001000100000000000001000100033c2f3e00000000";

/// A start entry of the first once more, sequence 2.
const START_AGAIN: &str =
    "4c574531000102030405060708090a0b0c0d0e0f0001a1a2a3a4a5a6a7a8000000000000000200";

/// The start entry of the second in the same fleet, over a log that has entries: sequence 2.
const SECOND_START: &str =
    "4c574531000102030405060708090a0b0c0d0e0f0002b1b2b3b4b5b6b7b8000000000000000200";

/// A Register of `a` with the object list `</>`, message ID 4.
const REGISTER: &str = "40020004b272644465703d61ff3c2f3e";

/// A Register of `b` with the object list `</>`, message ID 5.
const REGISTER_B: &str = "40020005b272644465703d62ff3c2f3e";

/// The reply to the first of them with counter 1 at node 1.
const CREATED: &str = "604100048272640d0330303030303030303030303130303031";

/// The reply to the second of them with counter 2 at node 1.
const CREATED_B: &str = "604100058272640d0330303030303030303030303230303031";

/// An Update of the first registration, message ID 17, and its reply where it is known, and where it is not.
const UPDATE: &str = "40020011b272640d0330303030303030303030303130303031";

const CHANGED: &str = "60440011";

const NOT_FOUND: &str = "60840011";

/// An Update of the registration with counter 2.
const UPDATE_OF_SECOND: &str = "40020011b272640d0330303030303030303030303230303031";

/// Where the devices are.
const HOME: Addr = Addr::V4 {
    address: [127, 0, 0, 1],
    port: 5683,
};

/// What a replica answers while its log is unavailable.
const UNAVAILABLE: ReplicaFault = ReplicaFault::Log(LogFault::Unavailable);

/// A failure of the next call, which finds the log unavailable.
const NEXT_UNAVAILABLE: Failure = (0, LogFault::Unavailable, false);

/// The entries of the first replica behind its first Register.
const WRITTEN: &[&str] = &[START, DELTA];

/// What the device of the first registration tells of its observation, whose payload is `1`, and the reply.
const TOLD: &str = "4845003100000000000200016101ff31";

const TOLD_REPLY: &str = "60000031, and 2.1 tells [49]";
