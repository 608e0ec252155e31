ghost use Rattle.std.specs.Prelude.{◌≡◌, ◌<◌, ◌+◌, ◌-◌, ◌^◌, ◌↔◌, IsNone, IfSome, OnSome, IfNone, max};

use crate::stamp::Stamp;

/// The counter of a node: no stamp that the node knows of has a greater one. It is at most 2^48 - 1.
#[derive(Clone, Copy, Debug, PartialEq, Eq)]
pub struct Clock {
    counter: u64,
    pub ghost in_range: { counter < 2 ^ 48 },
}

impl Clock {
    ghost use Rattle.lw_stamp.specs.Clock.{counter_of};

    /// The last counter.
    const END: u64 = (1 << 48) - 1;

    /// The clock of a node that knows of no stamp.
    pub fn new() -> Clock
        ensures { counter_of result ≡ 0 }
    {
        Clock { counter: 0 }
    }

    /// The greatest counter that the node knows of, or 0.
    pub fn counter(&self) -> u64
        ensures { result ≡ counter_of self.now }
    {
        self.counter
    }

    /// Raises the counter by one and gives the stamp. There is none at 2^48 - 1.
    pub fn next(&mut self, node: u16) -> Option<Stamp>
        ensures end { IsNone result ↔ (counter_of self.old ≡ 2 ^ 48 - 1) }
        ensures stamp { IfSome result (λ s. (s.counter ≡ counter_of self.old + 1) × (s.node ≡ node)) }
        ensures raised { OnSome result (counter_of self.new ≡ counter_of self.old + 1) }
        ensures unchanged { IfNone result (self.new ≡ self.old) }
    {
        if self.counter == Clock::END {
            return None;
        }
        self.counter += 1;
        Some(Stamp {
            counter: self.counter,
            node,
        })
    }

    /// Raises the counter to the number, where that is greater.
    pub fn raise(&mut self, counter: u64)
        requires { counter < 2 ^ 48 }
        ensures { counter_of self.new ≡ max (counter_of self.old) counter }
    {
        self.counter = self.counter.max(counter);
    }
}

impl Default for Clock {
    ghost use Rattle.lw_stamp.specs.Clock.{counter_of};

    ghost is_default = { λ clock. counter_of clock ≡ 0 };

    fn default() -> Clock {
        Clock::new()
    }
}
