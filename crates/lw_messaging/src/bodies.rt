ghost use Rattle.std.specs.Prelude.{◌≡◌, [], length, IfOk, OnErr};
ghost use Rattle.lw_stamp.specs.Moment.{ms_of};

use crate::body::{Arrival, Body};
use crate::piece::Piece;
use crate::reading::read_lent;
use crate::taking::take_message;
use lw_reg::Addr;
use lw_stamp::{Moment, NoMemory};
use std::alloc::Global;
use std::marker::Model;

/// The bodies whose blocks have not all come, by the source and the options of these; that whose last block is oldest
/// comes first.
///
/// At most 1,024 bodies are kept, with 4,194,304 bytes; where a block needs room, the first go. A body ends 247 s
/// after its last block.
#[derive(Drop)]
pub struct Bodies {
    alloc: Global,
    bodies: Vec<Body>,
}

impl Model for Bodies {
    ghost use Rattle.std.specs.Prelude.{List};
    ghost use Rattle.lw_messaging.specs.Kept.{BodyContent, AreBounded};

    ghost Value = { List BodyContent };

    ghost view = { λ b. b.bodies.items };

    ghost invariant = { λ b. AreBounded b.bodies.items };
}

impl Bodies {
    ghost use Rattle.lw_messaging.specs.Kept.{AreBounded};
    ghost use Rattle.lw_messaging.specs.Bodies.{IsTaken};

    /// None yet.
    pub fn new(alloc: Global) -> Bodies
        ensures { result ≡ [] }
    {
        Bodies {
            alloc,
            bodies: Vec::new(alloc),
        }
    }

    /// How many bodies are kept, with those that have ended and were not let go yet.
    pub fn count(&self) -> usize
        ensures { result ≡ length self.now }
    {
        self.bodies.len()
    }

    /// Takes a datagram that came from a source at a moment.
    ///
    /// One with a block is answered, or makes the message whole; any other passes.
    pub fn take(&mut self, now: Moment, from: Addr, bytes: &[u8]) -> Result<Piece, NoMemory>
        ensures taken { IfOk result (λ piece. IsTaken self.old (ms_of now) from bytes.now piece self.new) }
        ensures memory { OnErr result (self.new ≡ self.old) }
        ensures bounded { AreBounded self.new }
    {
        match read_lent(self.alloc, bytes)? {
            None => Ok(Piece::Through),
            Some(message) => {
                let arrival = Arrival { now, from };
                take_message(self.alloc, &mut self.bodies, arrival, &message)
            }
        }
    }
}
