ghost use Rattle.std.specs.Prelude.{◌≡◌, ◌%◌, ◌^◌, [], length, find, option_copied, IfOk, IfSome, OnErr};
ghost use Rattle.lw_stamp.specs.Moment.{ms_of};
ghost use Rattle.lw_coap.specs.Fits.{Fits};
ghost use Rattle.lw_messaging.specs.FetchMessages.{acknowledgement_of};
ghost use Rattle.lw_messaging.specs.Fetches.{FetchesContent, AreBounded, IsDone, IsTaken, IsCut, outcome, has_number};
ghost use Rattle.lw_messaging.specs.inner.Fetches.{AreKept, IsDecided};

use crate::fetch::Fetch;
use crate::fetch_answers::{Decision, answered};
use crate::fetch_changes::{carry_out, forget};
use crate::notifications::{block_of, notified};
use crate::parcel::Parcel;
use crate::reading::read;
use crate::responses::may_respond;
use lw_coap::{Message, encode};
use lw_reg::{Addr, Watch};
use lw_stamp::{Moment, NoMemory};
use std::alloc::Global;
use std::marker::Model;

/// How many fetches there are at most.
pub const MAX_FETCHES: usize = 512;

/// Notifications in blocks, of which the rest is fetched.
///
/// The fetch whose last block is oldest comes first, and goes where one more begins than there may be. A fetch ends
/// 247 s after its last block.
#[derive(Drop)]
pub struct Fetches {
    alloc: Global,
    /// The number that the next fetch has.
    next: u32,
    fetches: Vec<Fetch>,
}

impl Model for Fetches {
    ghost use Rattle.lw_messaging.specs.Fetches.{FetchesContent, AreBounded};

    ghost Value = { FetchesContent };

    ghost view = { λ f. record { next = f.next; fetches = f.fetches.items } };

    ghost invariant = { λ f. AreBounded f.fetches.items };
}

impl Fetches {
    /// None yet. Their numbers count on from the low 32 bits of the moment, in milliseconds.
    pub fn new(alloc: Global, start: Moment) -> Fetches
        ensures { result ≡ record { next = ms_of start % 2 ^ 32; fetches = [] } }
    {
        Fetches {
            alloc,
            next: (start.ms() % (1 << 32)) as u32,
            fetches: Vec::new(alloc),
        }
    }

    /// How many fetches there are, with those that have ended and were not let go yet.
    pub fn count(&self) -> usize
        ensures { result ≡ length self.now.fetches }
    {
        self.fetches.len()
    }

    /// Takes a datagram that came from an address at a moment, with the watch that its token names, if that lives.
    ///
    /// A notification in blocks begins a fetch. A response to one brings its next block, or ends it. Any other datagram
    /// passes.
    pub fn take(
        &mut self,
        now: Moment,
        from: Addr,
        watch: Option<Watch>,
        bytes: &[u8],
    ) -> Result<Parcel, NoMemory>
        ensures taken { IfOk result (λ parcel.
            IsTaken self.old (ms_of now) from watch bytes.now parcel self.new) }
        ensures memory { OnErr result (self.new ≡ self.old) }
        ensures bounded { AreBounded self.new.fetches }
    {
        let alloc = self.alloc;
        if !may_respond(bytes) {
            return Ok(Parcel::Through);
        }
        match read(alloc, bytes)? {
            None => Ok(Parcel::Through),
            Some(message) => self.take_message(now, from, watch, message),
        }
    }

    fn take_message(
        &mut self,
        now: Moment,
        from: Addr,
        watch: Option<Watch>,
        message: Message,
    ) -> Result<Parcel, NoMemory>
        requires { Fits message }
        ensures done { IfOk result (λ parcel. IsDone self.old (acknowledgement_of message)
            (outcome self.old (ms_of now) from watch message) parcel self.new) }
        ensures memory { OnErr result (self.new ≡ self.old) }
        ensures bounded { AreBounded self.new.fetches }
    {
        let decision = decide(
            self.alloc,
            self.next,
            &self.fetches,
            now,
            from,
            watch,
            message,
        )?;
        carry_out(&mut self.next, &mut self.fetches, decision.change)?;
        Ok(decision.parcel)
    }

    /// What has come of a fetch that will not go on, as the message for the store. The fetch is over then.
    pub fn cut(&mut self, fetch: u32) -> Result<Option<Vec<u8>>, NoMemory>
        ensures cut { IfOk result (λ message. IsCut self.old fetch message self.new) }
        ensures memory { OnErr result (self.new ≡ self.old) }
        ensures bounded { AreBounded self.new.fetches }
    {
        let Some(over) = with_number(&self.fetches, fetch) else {
            return Ok(None);
        };
        let message = encode(self.alloc, &over.message)?;
        forget(&mut self.fetches, fetch);
        Ok(Some(message))
    }
}

fn with_number(fetches: &[Fetch], number: u32) -> Option<&Fetch>
    requires { AreKept fetches.now }
    ensures found { option_copied result ≡ find (has_number number) fetches.now }
    ensures kept { IfSome result (λ fetch. Fits fetch.now.message) }
{
    fetches.iter().find(|fetch| fetch.has_number(number))
}

fn decide(
    alloc: Global,
    next: u32,
    fetches: &[Fetch],
    now: Moment,
    from: Addr,
    watch: Option<Watch>,
    message: Message,
) -> Result<Decision, NoMemory>
    requires kept { AreKept fetches.now }
    requires fits { Fits message }
    ensures { IfOk result (λ d. IsDecided (acknowledgement_of message)
        (outcome (record { next = next; fetches = fetches.now }) (ms_of now) from watch message) d.parcel d.change) }
{
    let Some(watch) = watch else {
        return answered(alloc, fetches, now, from, &message);
    };
    match block_of(&watch, &message) {
        None => answered(alloc, fetches, now, from, &message),
        Some(block) => notified(alloc, next, now, from, watch, message, &block),
    }
}
