//! What a slot shows at a moment.

ghost use Rattle.std.specs.Prelude.{◌≡◌, ◌↔◌, ◌≤◌, ℕ, ◌+◌, ◌*◌, ◌==◌, List, [], Some, None, if◌then◌else◌, IsTrue, IsSomeAnd};
ghost use Rattle.lw_stamp.specs.Moment.{ms_of};
ghost use Rattle.lw_reg.specs.Marks.{Mark, among};
ghost use Rattle.lw_reg.specs.Reading.{registered_in, view_in, in_time, end_of, is_late, lasting, ended_of, seen_of, deadline_in, shown_by, IsSlotOf};
ghost use Rattle.lw_reg.specs.Showing.{ShownOf, HasExpired};

use crate::{AttributesView, Slot, View};
use lw_stamp::{Moment, Stamp};

impl Slot {
    /// What is shown of the endpoint whose slot this is: there is none where its registration was removed or has
    /// ended, where a field is not known yet, or once its lifetime is over.
    pub fn view<'a>(&'a self, endpoint: &'a str, now: Moment) -> Option<View<'a>>
        ensures value { result ≡ view_in (ms_of now) endpoint.now self.now }
        // It is what the marks say that can be read from the slot,
        ensures read { ShownOf (shown_by endpoint.now self.now) (ms_of now) endpoint.now result }
        // and what every set of marks says whose state has this slot for the endpoint.
        ensures marks { (ms : List Mark) → IsSlotOf ms endpoint.now self.now
            → ShownOf (among ms) (ms_of now) endpoint.now result }
    {
        self.shown(endpoint, now)
    }

    /// Whether the registration is complete, was not removed and has not ended, and its lifetime is over.
    pub fn expired(&self, now: Moment) -> bool
        ensures value { result ≡ is_late (ms_of now) (registered_in [] self.now) }
        ensures read { (e : List ℕ) → IsTrue result ↔ HasExpired (shown_by e self.now) (ms_of now) e }
        ensures marks { (ms : List Mark) (e : List ℕ) → IsSlotOf ms e self.now
            → (IsTrue result ↔ HasExpired (among ms) (ms_of now) e) }
    {
        self.is_late(now)
    }

    /// From which moment on the registration has expired, in milliseconds. There is none where it was removed or has
    /// ended, where a field is not known yet, or where it never expires.
    pub fn deadline(&self) -> Option<u64>
        ensures value { result ≡ deadline_in self.now }
        ensures expires { (now : ℕ) → IsSomeAnd result (λ d. d ≤ now)
            ↔ IsTrue (is_late now (registered_in [] self.now)) }
    {
        let _ = self.base()?;
        let _ = self.address()?;
        let (_, last) = self.lasting()?;
        let (_, lifetime) = self.lifetime()?;
        let _ = self.binding()?;
        let _ = self.sms()?;
        let _ = self.objects()?;
        end_at(last, lifetime)
    }

    fn shown<'a>(&'a self, endpoint: &'a str, now: Moment) -> Option<View<'a>>
        ensures { result ≡ view_in (ms_of now) endpoint.now self.now }
    {
        let view = self.registered(endpoint)?;
        if is_in_time(&view, now) {
            Some(view)
        } else {
            None
        }
    }

    fn is_late(&self, now: Moment) -> bool
        ensures { result ≡ is_late (ms_of now) (registered_in [] self.now) }
    {
        match self.registered("") {
            Some(view) => !is_in_time(&view, now),
            None => false,
        }
    }

    fn registered<'a>(&'a self, endpoint: &'a str) -> Option<View<'a>>
        ensures { result ≡ registered_in endpoint.now self.now }
    {
        let base = self.base()?;
        let (_, address) = self.address()?;
        let (_, seen) = self.lasting()?;
        let (_, lifetime) = self.lifetime()?;
        let (_, binding) = self.binding()?;
        let (_, sms) = self.sms()?;
        let (_, objects) = self.objects()?;
        Some(View {
            endpoint,
            id: self.stamp(),
            address,
            seen,
            lifetime,
            version: base.version,
            binding,
            queue: base.queue || binding.asks_for_queue(),
            sms: sms.map(|sms| sms.as_str()),
            objects,
            attributes: AttributesView::of_writes(self.attributes()),
        })
    }

    /// What was seen last, unless it was over by then.
    fn lasting(&self) -> Option<(Stamp, Moment)>
        ensures { result ≡ lasting (ended_of self.now) (seen_of self.now) }
    {
        let seen = self.seen()?;
        let Some(upto) = self.ended() else {
            return Some(seen);
        };
        if seen.0 > upto { Some(seen) } else { None }
    }
}

fn is_in_time(view: &View<'_>, now: Moment) -> bool
    ensures { result ≡ in_time (ms_of now) view.now }
{
    match end_of(view) {
        Some(end) => now.ms() < end,
        None => true,
    }
}

fn end_of(view: &View<'_>) -> Option<u64>
    ensures { result ≡ end_of view.now }
{
    end_at(view.seen, view.lifetime)
}

/// When what was seen then is over, by its lifetime in seconds.
fn end_at(seen: Moment, lifetime: u32) -> Option<u64>
    ensures { result ≡ (if lifetime == 0 then None else Some (ms_of seen + 1000 * lifetime)) }
{
    if lifetime == 0 {
        None
    } else {
        Some(seen.ms() + 1000 * u64::from(lifetime))
    }
}
