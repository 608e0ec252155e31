ghost use Rattle.std.specs.Prelude.{◌≡◌};

use crate::{Addr, Attributes, Binding, Text, Version, View};
use lw_link::LinkText;
use lw_stamp::{Moment, Stamp};
use std::marker::Model;

/// What is shown of a registration, owned.
#[derive(Drop)]
pub struct Seen {
    pub endpoint: Text,
    pub id: Stamp,
    pub address: Addr,
    /// The moment of the last Register or Update.
    pub seen: Moment,
    /// In seconds; 0 never expires.
    pub lifetime: u32,
    pub version: Version,
    pub binding: Binding,
    pub queue: bool,
    pub sms: Option<Text>,
    pub objects: LinkText,
    pub attributes: Attributes,
}

impl Model for Seen {
    ghost use Rattle.lw_reg.specs.Registration.{Registration};

    ghost Value = { Registration };

    ghost view = { λ s. record {
      endpoint = s.endpoint;
      id = s.id;
      address = s.address;
      seen = s.seen;
      lifetime = s.lifetime;
      version = s.version;
      binding = s.binding;
      queue = s.queue;
      sms = s.sms;
      objects = s.objects;
      attributes = s.attributes;
    } };
}

impl Seen {
    /// The same registration, lent.
    pub fn as_view(&self) -> View<'_>
        ensures { result ≡ self.now }
    {
        View {
            endpoint: self.endpoint.as_str(),
            id: self.id,
            address: self.address,
            seen: self.seen,
            lifetime: self.lifetime,
            version: self.version,
            binding: self.binding,
            queue: self.queue,
            sms: self.sms.as_ref().map(|sms| sms.as_str()),
            objects: &self.objects,
            attributes: self.attributes.as_view(),
        }
    }
}
