ghost use Rattle.std.specs.Prelude.{◌≡◌, ◌↔◌, IsTrue, IsOk, IfOk, IfSome, None};
ghost use Rattle.std.specs.List.{AllByRecursion};
ghost use Rattle.std.specs.Option.{option_copied, option_map};
ghost use Rattle.lw_stamp.specs.TextOrder.{text_cmp};
ghost use Rattle.lw_join.specs.declared.or_gone.OrGone.TheVariants.{Here};
ghost use Rattle.lw_join.specs.Entries.{Rises};
ghost use Rattle.lw_reg.specs.Attribute.{IsAttribute};
ghost use Rattle.lw_reg.specs.Body.{nothing};
ghost use Rattle.lw_reg.specs.Fields.{fields_body, told_fields, slot_of_fields};
ghost use Rattle.lw_reg.specs.Orders.{path_cmp};
ghost use Rattle.lw_reg.specs.BodyOrGone.{KeepsAttributes};
ghost use Rattle.lw_reg.specs.inner.BodyOrGone.{body_or_nothing};
ghost use Rattle.lw_reg.specs.Reading.{known_of, stamp_of, IsRemoved, base_of, address_of, seen_of, lifetime_of, binding_of, sms_of, objects_of, attributes_of, ended_of, watches_of};

use crate::body::Body;
use crate::object_list::ObjectList;
use crate::told::Told;
use crate::{Addr, Base, Binding, FieldWrites, Fields, Path, SmsNumber, Watching};
use lw_join::{Both, Join, Last, Lex, Lww, Once};
use lw_link::LinkText;
use lw_stamp::{Moment, NoMemory, Stamp, Text};
use std::alloc::Global;
use std::mem::size_of;

/// What is known of an endpoint: the stamp of its current registration, and what is known of that, or
/// gone once it was removed.
#[derive(Drop)]
pub struct Slot {
    pub(crate) registration: Lex<Told>,
}

const _: () = prove!(size_of::<Slot>() <= 32);

impl Slot {
    /// The slot with these fields, or of a removed registration. It takes memory only where something is known.
    /// What is written under a name must be an attribute.
    pub fn from_parts(alloc: Global, stamp: Stamp, fields: Option<Fields>) -> Result<Slot, NoMemory>
        requires { KeepsAttributes (told_fields fields) }
        ensures slot { IfOk result (λ slot. slot ≡ slot_of_fields stamp fields) }
        ensures removed { fields ≡ None → IsOk result }
        ensures unknown { told_fields fields ≡ Here nothing → IsOk result }
    {
        let value = match fields {
            None => Told::removed(),
            Some(fields) => Told::of(alloc, body_of_fields(fields))?,
        };
        Ok(Slot {
            registration: Lex { stamp, value },
        })
    }

    pub(crate) fn body(&self) -> Option<&Body>
        ensures known { body_or_nothing (option_copied result) ≡ known_of self.now }
        ensures keeps { IfSome result (λ body. KeepsAttributes (Here body.now)) }
    {
        self.registration.value.body()
    }

    /// The stamp of the registration, which its Register had.
    pub fn stamp(&self) -> Stamp
        ensures { result ≡ stamp_of self.now }
    {
        self.registration.stamp
    }

    /// Whether the registration was removed. Then nothing else is kept of it.
    pub fn is_removed(&self) -> bool
        ensures { IsTrue result ↔ IsRemoved self.now }
    {
        self.registration.value.is_removed()
    }

    /// The version and the queue mode that the Register asked for.
    pub fn base(&self) -> Option<Base>
        ensures { result ≡ base_of self.now }
    {
        self.body()?.base.value
    }

    /// The last address, with the stamp that wrote it.
    pub fn address(&self) -> Option<(Stamp, Addr)>
        ensures { result ≡ address_of self.now }
    {
        self.body()?.address.write
    }

    /// The moment of the last Register or Update, with the stamp that wrote it.
    pub fn seen(&self) -> Option<(Stamp, Moment)>
        ensures { result ≡ seen_of self.now }
    {
        self.body()?.seen.write
    }

    /// The last lifetime in seconds, with the stamp that wrote it.
    pub fn lifetime(&self) -> Option<(Stamp, u32)>
        ensures { result ≡ lifetime_of self.now }
    {
        self.body()?.lifetime.write
    }

    /// The last binding, with the stamp that wrote it.
    pub fn binding(&self) -> Option<(Stamp, Binding)>
        ensures { result ≡ binding_of self.now }
    {
        self.body()?.binding.write
    }

    /// The last SMS number or none, with the stamp that wrote it.
    pub fn sms(&self) -> Option<(Stamp, Option<&SmsNumber>)>
        ensures { option_map (λ w. (w.0, option_copied w.1)) result ≡ sms_of self.now }
    {
        let (stamp, sms) = self.body()?.sms.write.as_ref()?;
        Some((*stamp, sms.as_ref()))
    }

    /// The last object list, with the stamp that wrote it.
    pub fn objects(&self) -> Option<(Stamp, &LinkText)>
        ensures { option_map (λ w. (w.0, w.1.now)) result ≡ objects_of self.now }
    {
        let (stamp, objects) = self.body()?.objects.write.as_ref()?;
        Some((*stamp, &objects.text))
    }

    /// The last write of each attribute, names rising.
    pub fn attributes(&self) -> &[(Text, Last<Text>)]
        ensures attributes { result.now ≡ attributes_of self.now }
        ensures rise { Rises text_cmp result.now }
        ensures within { AllByRecursion (λ w. IsAttribute w.0 w.1.write.1) result.now }
    {
        match self.body() {
            None => &[],
            Some(body) => body.maps.left.entries(),
        }
    }

    /// The stamp up to which what was seen of the registration is over.
    pub fn ended(&self) -> Option<Stamp>
        ensures { result ≡ ended_of self.now }
    {
        self.body()?.ended.value
    }

    /// The last watch of each path, paths rising.
    pub fn watches(&self) -> &[(Path, Watching)]
        ensures watches { result.now ≡ watches_of self.now }
        ensures rise { Rises path_cmp result.now }
    {
        match self.body() {
            None => &[],
            Some(body) => body.maps.right.entries(),
        }
    }
}

fn body_of_fields(fields: Fields) -> Body
    ensures { result ≡ fields_body fields }
{
    let Fields {
        writes,
        attributes,
        ended,
        watches,
    } = fields;
    let FieldWrites {
        base,
        address,
        seen,
        lifetime,
        binding,
        sms,
        objects,
    } = writes;
    Body {
        base: Once { value: base },
        address: Lww { write: address },
        seen: Lww { write: seen },
        lifetime: Lww { write: lifetime },
        binding: Lww { write: binding },
        sms: Lww { write: sms },
        objects: Lww {
            write: objects.map(|(stamp, text)| (stamp, ObjectList { text })),
        },
        ended: Once { value: ended },
        maps: Both {
            left: attributes,
            right: watches,
        },
    }
}

impl Slot {
    ghost use Rattle.std.specs.Prelude.{Some};
    ghost use Rattle.lw_stamp.specs.declared.moment.Moment.{Moment as Moments};
    ghost use Rattle.lw_stamp.specs.declared.stamp.Stamp.{Stamp as Stamps};
    ghost use Rattle.lw_reg.specs.Slot.{slot_join, ending};

    /// Tells that the registration is over, as it was last seen: the join with the slot of an Expire up to the stamp
    /// of that, in place. Where nothing was seen, nothing is told.
    pub fn lift(&mut self)
        ensures lifted { (at : Stamps) (v : Moments) → seen_of self.old ≡ Some (at, v)
            → self.new ≡ slot_join self.old (ending (stamp_of self.old) at) }
        ensures unseen { seen_of self.old ≡ None → self.new ≡ self.old }
    {
        self.registration.value.lift();
    }
}

impl Join for Slot {
    ghost use Rattle.lw_reg.specs.Slot.{slot_below, slot_join, slot_in_place};
    ghost use Rattle.lw_reg.specs.SlotLaws.{slot_laws};

    ghost below = { slot_below };

    ghost join = { slot_join };

    ghost in_place = { slot_in_place };

    ghost laws = { slot_laws };

    fn le(&self, other: &Slot) -> bool {
        self.registration.le(&other.registration)
    }

    fn join_with(&mut self, other: Slot) -> Result<(), NoMemory> {
        self.registration.join_with(other.registration)
    }
}
