ghost use Rattle.std.specs.Prelude.{◌≡◌, ◌<◌, ◌^◌, ◌↔◌, IsSome, IfSome};

/// A moment in milliseconds, from 0 to 2^48 - 1.
#[derive(Clone, Copy, Debug, PartialEq, Eq, PartialOrd, Ord)]
pub struct Moment {
    ms: u64,
    pub ghost in_range: { ms < 2 ^ 48 },
}

impl Moment {
    ghost use Rattle.lw_stamp.specs.Moment.{ms_of};

    /// The moment 0.
    pub const START: Moment = Moment { ms: 0 };

    /// The last moment, in milliseconds.
    pub const LAST_MS: u64 = (1 << 48) - 1;

    /// The moment so many milliseconds after the start. There is none past 2^48 - 1.
    pub fn new(ms: u64) -> Option<Moment>
        ensures in_range { IsSome result ↔ (ms < 2 ^ 48) }
        ensures value { IfSome result (λ m. ms_of m ≡ ms) }
    {
        if ms > Moment::LAST_MS {
            return None;
        }
        Some(Moment { ms })
    }

    /// Its milliseconds.
    pub fn ms(&self) -> u64
        ensures value { result ≡ ms_of self.now }
        ensures in_range { result < 2 ^ 48 }
    {
        self.ms
    }
}
