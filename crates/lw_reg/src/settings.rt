use crate::{Attributes, Binding, SmsNumber};
use lw_link::LinkText;

/// What a Register sets, beside its base, its address and its moment.
#[derive(Drop)]
pub struct Settings {
    /// In seconds; 0 never expires.
    pub lifetime: u32,
    pub binding: Binding,
    pub sms: Option<SmsNumber>,
    pub objects: LinkText,
    pub attributes: Attributes,
}

/// The settings that an Update gives. What it does not give is kept.
#[derive(Drop)]
pub struct GivenSettings {
    /// In seconds; 0 never expires.
    pub lifetime: Option<u32>,
    pub binding: Option<Binding>,
    pub sms: Option<SmsNumber>,
    pub objects: Option<LinkText>,
    /// The attributes that it gives; a name that it does not give keeps its value.
    pub attributes: Attributes,
}
