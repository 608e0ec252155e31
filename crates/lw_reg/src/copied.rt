//! Copies of what a slot keeps.

ghost use Rattle.std.specs.Prelude.{◌≡◌, IfOk};

use crate::body::Body;
use crate::object_list::ObjectList;
use crate::{Addr, Base, Binding, Path, Slot, SmsNumber};
use lw_join::Copied;
use lw_stamp::NoMemory;
use std::alloc::Global;

impl Copied for Addr {
    fn copy(&self, _alloc: Global) -> Result<Addr, NoMemory> {
        Ok(*self)
    }
}

impl Copied for Base {
    fn copy(&self, _alloc: Global) -> Result<Base, NoMemory> {
        Ok(*self)
    }
}

impl Copied for Binding {
    fn copy(&self, _alloc: Global) -> Result<Binding, NoMemory> {
        Ok(*self)
    }
}

impl Copied for Path {
    fn copy(&self, _alloc: Global) -> Result<Path, NoMemory> {
        Ok(*self)
    }
}

impl Copied for SmsNumber {
    fn copy(&self, alloc: Global) -> Result<SmsNumber, NoMemory> {
        SmsNumber::copy_of(alloc, self.as_str())
    }
}

impl Copied for ObjectList {
    fn copy(&self, alloc: Global) -> Result<ObjectList, NoMemory> {
        Ok(ObjectList {
            text: self.text.copy_of(alloc)?,
        })
    }
}

impl Copied for Body {
    fn copy(&self, alloc: Global) -> Result<Body, NoMemory> {
        Ok(Body {
            base: self.base.copy(alloc)?,
            address: self.address.copy(alloc)?,
            seen: self.seen.copy(alloc)?,
            lifetime: self.lifetime.copy(alloc)?,
            binding: self.binding.copy(alloc)?,
            sms: self.sms.copy(alloc)?,
            objects: self.objects.copy(alloc)?,
            ended: self.ended.copy(alloc)?,
            maps: self.maps.copy(alloc)?,
        })
    }
}

impl Copied for Slot {
    fn copy(&self, alloc: Global) -> Result<Slot, NoMemory> {
        Ok(Slot {
            registration: self.registration.copy(alloc)?,
        })
    }
}
