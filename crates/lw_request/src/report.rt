ghost use Rattle.std.specs.Prelude.{◌≡◌, IfOk};
ghost use Rattle.lw_request.specs.Report.{report_of};

use crate::options::{content_format, observe_number};
use lw_coap::{Kind, LentMessage};
use lw_stamp::NoMemory;
use std::alloc::Global;
use std::marker::Model;

/// A response: a notification of an observation, or its end (RFC 7641, section 3).
#[derive(Drop)]
pub struct Report {
    pub kind: Kind,
    /// The message ID.
    pub mid: u16,
    pub token: Vec<u8>,
    /// Class in the upper three bits, detail in the lower five.
    pub code: u8,
    /// The number of the Observe option.
    pub observe: Option<u32>,
    /// The number of the Content-Format.
    pub format: Option<u16>,
    pub payload: Vec<u8>,
}

impl Model for Report {
    ghost use Rattle.lw_request.specs.Report.{ReportContent};

    ghost Value = { ReportContent };

    ghost view = { λ r. record {
      kind = r.kind;
      mid = r.mid;
      token = r.token.items;
      code = r.code;
      observe = r.observe;
      format = r.format;
      payload = r.payload.items;
    } };
}

impl Report {
    /// What a response says.
    pub(crate) fn of(alloc: Global, message: &LentMessage<'_>) -> Result<Report, NoMemory>
        ensures { IfOk result (λ report. report ≡ report_of message.now) }
    {
        Ok(Report {
            kind: message.kind,
            mid: message.mid,
            token: Vec::from_slice(alloc, message.token)?,
            code: message.code,
            observe: observe_number(&message.options),
            format: content_format(&message.options),
            payload: Vec::from_slice(alloc, message.payload)?,
        })
    }
}
