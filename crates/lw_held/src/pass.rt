ghost use Rattle.std.specs.Prelude.{◌≡◌, [], length, slice_get, option_copied, IfOk, OnErr, IsTrue, ◌↔◌};

use crate::agreeing;
use crate::entry::{Entry, Part};
use crate::held::Held;
use crate::volume::Volume;
use lw_node::Call;
use lw_stamp::NoMemory;
use std::alloc::Global;
use std::marker::Model;

/// The right to make calls one after another, and the transcript of those that were made. It cannot be copied, so that
/// the calls of one pass have an order.
#[derive(Drop)]
pub struct Pass {
    number: u32,
    parts: Vec<Part>,
}

impl Model for Pass {
    ghost use Rattle.lw_held.specs.Transcript.{Transcript};

    ghost Value = { Transcript };

    ghost use Rattle.lw_held.specs.Transcript.{IsNumbered};

    ghost view = { λ x. record { number = x.number; parts = x.parts.items } };

    ghost invariant = { λ x. IsNumbered (record { number = x.number; parts = x.parts.items }) };
}

impl Pass {
    ghost use Rattle.lw_held.specs.declared.entry.Entry.{Entry as Entered};
    ghost use Rattle.lw_held.specs.Agree.{IsFirstBreak};
    ghost use Rattle.lw_held.specs.History.{Enters};
    ghost use Rattle.lw_held.specs.inner.Looks.{Has, FitBelow};
    ghost use Rattle.lw_held.specs.Transcript.{IsNumbered, with_part};

    /// A pass that no call was made with.
    pub(crate) fn new(alloc: Global, number: u32) -> Pass
        ensures { result ≡ record { number = number; parts = [] } }
    {
        Pass {
            number,
            parts: Vec::new(alloc),
        }
    }

    /// Does nothing: its contract says that each part has the pass's number, and its own.
    pub(crate) fn lawful(&self)
        ensures { IsNumbered self.now }
    {
        let _length = self.parts.len();
    }

    /// Its number among the passes of a run, from 0.
    pub fn number(&self) -> u32
        ensures { result ≡ self.now.number }
    {
        self.number
    }

    /// How many calls were made.
    pub fn len(&self) -> u64
        ensures { result ≡ length self.now.parts }
    {
        self.parts.len() as u64
    }

    /// The part of the number, from 0.
    pub fn part(&self, number: u64) -> Option<&Part>
        ensures { option_copied result ≡ slice_get self.now.parts number }
    {
        self.parts.get(number as usize)
    }

    /// Makes the call of the lent node, which is known by the number, and gives its place in the journal there.
    pub fn step(&mut self, node: u16, held: &mut Held, call: &Call) -> Result<u64, NoMemory>
        ensures entered { IfOk result (λ place. (entry : Entered)
            × Enters held.old self.old.number (length self.old.parts) call.now entry place held.new
            × (self.new ≡ with_part self.old node place entry)) }
        ensures unchanged { OnErr result ((self.new ≡ self.old) × (held.new ≡ held.old)) }
    {
        self.parts.reserve(1)?;
        let (entry, place) = held.step(self.number, self.parts.len() as u64, call)?;
        self.parts.push_reserved(Part { node, place, entry });
        Ok(place)
    }

    /// Whether the entry is of this pass, and the part of its number is for that node and place.
    pub(crate) fn has(&self, node: u16, place: u64, entry: &Entry) -> bool
        ensures { IsTrue result ↔ Has node place entry.now self.now }
    {
        if self.number() != entry.pass {
            return false;
        }
        match self.part(entry.number) {
            Some(part) => agreeing::is_of(node, place, part),
            None => false,
        }
    }

    /// The least place for the node at which a part does not fit.
    pub(crate) fn first_stray(&self, node: u16, volumes: &[Volume], held: &Held) -> Option<u64>
        ensures { IsFirstBreak (FitBelow node volumes.now held.now self.now.parts (length self.now.parts)) result }
    {
        agreeing::first_stray(node, volumes, held, self.parts.as_slice())
    }
}
