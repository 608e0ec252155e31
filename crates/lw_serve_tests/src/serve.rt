mod keeping;
mod many;
mod moments;
mod refused;
mod runs;
mod udp;
mod wire;

use log::sink::Discard;
use lw_reg::Addr;
use lw_serve::{
    HostClock, Plan, ServeFault, SystemClock, UdpWire, VolumeSink, Wire, WireFault, serve_into,
    serve_on,
};
use lw_stamp::{Moment, NoMemory};
use std::alloc::Global;
use std::process::Abort;
use std::sync::Wait;
use std::thread::Threads;
use wire::Coming::{self, Alone, AtOnce, BehindFault};
use wire::{Arrival, FewWrites, MemoryWire, Ticks};

/// An empty message, message ID 7.
const PING: &[u8] = &[0x40, 0, 0, 7];

/// A Register of `a` with the object list `</>`, message ID 4.
const REGISTER: &[u8] = b"\x40\x02\x00\x04\xb2rd\x44ep=a\xff</>";

/// A Register of `b` with the object list `</>`, message ID 5.
const OTHER_REGISTER: &[u8] = b"\x40\x02\x00\x05\xb2rd\x44ep=b\xff</>";

/// An Update of lifetime 120 of what node 1 registers first, message ID 16.
const UPDATE: &[u8] = b"\x40\x02\x00\x10\xb2rd\x0d\x030000000000010001\x46lt=120";
