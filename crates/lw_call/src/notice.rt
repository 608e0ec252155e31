use lw_reg::{Path, Text};
use lw_stamp::Stamp;
use std::marker::Model;

/// What a device tells of an observation (RFC 7641, section 3).
#[derive(Drop)]
pub struct Notice {
    /// The token of the observation.
    pub token: Stamp,
    /// The registration's identifier.
    pub id: Stamp,
    pub endpoint: Text,
    pub path: Path,
    /// The code of the message: class in the upper three bits, detail in the lower five.
    pub code: u8,
    /// The number of its Observe option, if it has one of at most three bytes.
    pub observe: Option<u32>,
    /// The number of its Content-Format, if it has one of at most two bytes.
    pub format: Option<u16>,
    /// Whether the observation has ended by it.
    pub ended: bool,
    pub payload: Vec<u8>,
}

impl Model for Notice {
    ghost use Rattle.lw_call.specs.Contents.{NoticeContent};

    ghost Value = { NoticeContent };

    ghost view = { λ n. record {
      token = n.token;
      id = n.id;
      endpoint = n.endpoint;
      path = n.path;
      code = n.code;
      observe = n.observe;
      format = n.format;
      ended = n.ended;
      payload = n.payload.items;
    } };
}
