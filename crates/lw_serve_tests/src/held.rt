mod agreeing;
mod entries;
mod largest;
mod refused;
mod settling;
mod shelves;
mod steps;
mod volumes;

use crate::calls::What::*;
use crate::calls::{CREATED, REGISTER, What, reply_text, wants_memory};
use lw_held::{Entry, Held, NoGate, Pass, Settled, Shelf, Unsettled, Volume, set_up, settle};
use lw_node::{Call, Node};
use lw_stamp::NoMemory;
pub(crate) use settling::{calls, settles_so};
pub(crate) use shelves::settle_with;
use std::alloc::Global;
use std::process::Abort;
use std::sync::Wait;

/// The first identifier of node 1.
const ID: &str = "0000000000010001";

/// What a node shows of the first registration when it is asked for it.
const SHOWN: &str = "a 0000000000010001 127.0.0.1:5683 0 86400 U false </>";
