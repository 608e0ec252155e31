use crate::{Addr, Base, Binding, Path, SmsNumber, Watching};
use lw_join::{Last, Parts};
use lw_link::LinkText;
use lw_stamp::{Moment, Stamp, Text};

/// The base of a registration, and the last write of each of its fields, with the stamp of the operation that wrote it.
#[derive(Drop)]
pub struct FieldWrites<Number, Objects> {
    pub base: Option<Base>,
    pub address: Option<(Stamp, Addr)>,
    pub seen: Option<(Stamp, Moment)>,
    /// In seconds; 0 never expires.
    pub lifetime: Option<(Stamp, u32)>,
    pub binding: Option<(Stamp, Binding)>,
    pub sms: Option<(Stamp, Option<Number>)>,
    pub objects: Option<(Stamp, Objects)>,
}

/// What a slot keeps of a registration that was not removed: its fields, the last write of each attribute, up to which
/// stamp what was seen of it is over, and the last watch of each path.
#[derive(Drop)]
pub struct Fields {
    pub writes: FieldWrites<SmsNumber, LinkText>,
    pub attributes: Parts<Text, Last<Text>>,
    pub ended: Option<Stamp>,
    pub watches: Parts<Path, Watching>,
}
