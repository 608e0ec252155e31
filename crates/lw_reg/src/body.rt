use crate::object_list::ObjectList;
use crate::{Addr, Base, Binding, Path, SmsNumber};
use lw_join::{Both, Calm, Join, Last, Lex, Lww, Once, OrGone};
use lw_stamp::{Moment, NoMemory, Stamp, Text};

/// The last watch of a path: its token, and the Content-Format that it accepts, if it names one, or gone once
/// it was cancelled.
pub type Watching = Lex<OrGone<Once<u16>>>;

/// What is known of a registration that was not removed.
#[derive(Drop)]
pub(crate) struct Body {
    pub(crate) base: Once<Base>,
    pub(crate) address: Lww<Addr>,
    pub(crate) seen: Lww<Moment>,
    pub(crate) lifetime: Lww<u32>,
    pub(crate) binding: Lww<Binding>,
    pub(crate) sms: Lww<Option<SmsNumber>>,
    pub(crate) objects: Lww<ObjectList>,
    /// What was seen of it up to this stamp is over.
    pub(crate) ended: Once<Stamp>,
    /// The last write of each attribute, and the last watch of each path.
    pub(crate) maps: Both<Text, Last<Text>, Path, Watching>,
}

impl Body {
    ghost use Rattle.std.specs.Prelude.{◌≡◌, ◌↔◌, IsTrue, Some, None};
    ghost use Rattle.lw_stamp.specs.declared.moment.Moment.{Moment as Moments};
    ghost use Rattle.lw_stamp.specs.declared.stamp.Stamp.{Stamp as Stamps};
    ghost use Rattle.lw_reg.specs.Body.{nothing, ended_alone, body_join};
    ghost use Rattle.lw_reg.specs.inner.BodyOrGone.{has_no_fields};

    /// Whether nothing is known.
    pub(crate) fn is_nothing(&self) -> bool
        ensures { IsTrue result ↔ (self.now ≡ nothing) }
    {
        self.has_no_fields() && self.maps.is_empty()
    }

    fn has_no_fields(&self) -> bool
        ensures { result ≡ has_no_fields self.now }
    {
        self.base.value.is_none()
            && self.address.write.is_none()
            && self.seen.write.is_none()
            && self.lifetime.write.is_none()
            && self.binding.write.is_none()
            && self.sms.write.is_none()
            && self.objects.write.is_none()
            && self.ended.value.is_none()
    }

    /// Tells that what was seen of it is over. Where nothing was seen, nothing is told.
    pub(crate) fn lift(&mut self)
        ensures lifted { (at : Stamps) (v : Moments) → self.old.seen.write ≡ Some (at, v)
            → self.new ≡ body_join self.old (ended_alone at) }
        ensures unseen { self.old.seen.write ≡ None → self.new ≡ self.old }
        ensures maps { self.new.maps ≡ self.old.maps }
    {
        if let Some((upto, _)) = self.seen.write {
            self.ended.join_calm(Once { value: Some(upto) });
        }
    }
}

impl Join for Body {
    ghost use Rattle.lw_reg.specs.Body.{BodyBelow, body_join, body_in_place};
    ghost use Rattle.lw_reg.specs.BodyLaws.{body_laws};

    ghost below = { BodyBelow };

    ghost join = { body_join };

    ghost in_place = { body_in_place };

    ghost laws = { body_laws };

    fn le(&self, other: &Body) -> bool {
        self.base.le(&other.base)
            && self.address.le(&other.address)
            && self.seen.le(&other.seen)
            && self.lifetime.le(&other.lifetime)
            && self.binding.le(&other.binding)
            && self.sms.le(&other.sms)
            && self.objects.le(&other.objects)
            && self.ended.le(&other.ended)
            && self.maps.le(&other.maps)
    }

    /// The maps alone may want memory, so they come first.
    fn join_with(&mut self, other: Body) -> Result<(), NoMemory> {
        self.maps.join_with(other.maps)?;
        self.base.join_calm(other.base);
        self.address.join_calm(other.address);
        self.seen.join_calm(other.seen);
        self.lifetime.join_calm(other.lifetime);
        self.binding.join_calm(other.binding);
        self.sms.join_calm(other.sms);
        self.objects.join_calm(other.objects);
        self.ended.join_calm(other.ended);
        Ok(())
    }
}
