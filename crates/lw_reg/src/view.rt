ghost use Rattle.std.specs.Prelude.{◌≡◌, IfOk};

use crate::{Addr, AttributesView, Binding, Seen, Text, Version};
use lw_link::LinkText;
use lw_stamp::{Moment, NoMemory, Stamp};
use std::alloc::Global;
use std::marker::Model;

/// What is shown of a registration, lent.
#[derive(Drop)]
pub struct View<'a> {
    pub endpoint: &'a str,
    pub id: Stamp,
    pub address: Addr,
    /// The moment of the last Register or Update.
    pub seen: Moment,
    /// In seconds; 0 never expires.
    pub lifetime: u32,
    pub version: Version,
    pub binding: Binding,
    pub queue: bool,
    pub sms: Option<&'a str>,
    pub objects: &'a LinkText,
    pub attributes: AttributesView<'a>,
}

impl<'a> Model for View<'a> {
    ghost use Rattle.std.specs.Prelude.{option_map};
    ghost use Rattle.lw_reg.specs.Registration.{Registration};

    ghost Value = { Registration };

    ghost view = { λ v. record {
      endpoint = v.endpoint.now;
      id = v.id;
      address = v.address;
      seen = v.seen;
      lifetime = v.lifetime;
      version = v.version;
      binding = v.binding;
      queue = v.queue;
      sms = option_map (λ s. s.now) v.sms;
      objects = v.objects.now;
      attributes = v.attributes;
    } };
}

impl View<'_> {
    /// A copy that owns its texts.
    pub fn to_seen(&self, alloc: Global) -> Result<Seen, NoMemory>
        ensures { IfOk result (λ seen. seen ≡ self.now) }
    {
        let sms = match self.sms {
            Some(sms) => Some(Text::copy_of(alloc, sms)?),
            None => None,
        };
        Ok(Seen {
            endpoint: Text::copy_of(alloc, self.endpoint)?,
            id: self.id,
            address: self.address,
            seen: self.seen,
            lifetime: self.lifetime,
            version: self.version,
            binding: self.binding,
            queue: self.queue,
            sms,
            objects: self.objects.copy_of(alloc)?,
            attributes: self.attributes.to_attributes(alloc)?,
        })
    }
}
