ghost use Rattle.std.specs.Prelude.{◌≡◌, ◌≤◌, ◌+◌, length, sum_by};
ghost use Rattle.lw_stamp.specs.Moment.{ms_of};
ghost use Rattle.lw_messaging.specs.Kept.{option_weight, options_weight, same_option, same_options as are_same};
ghost use Rattle.lw_messaging.specs.Kept.{is_live};
ghost use Rattle.lw_messaging.specs.Kept.{is_of, is_other, weight_of};
ghost use Rattle.lw_messaging.specs.Bodies.{continues};

use lw_coap::CoapOption;
use lw_reg::Addr;
use lw_stamp::Moment;
use std::marker::Model;

/// For how long a body is kept behind its last block, in milliseconds: EXCHANGE_LIFETIME (RFC 7252, section 4.8.2).
const LIFETIME_MS: u64 = 247_000;

/// What an option takes beside its value.
const OPTION_WEIGHT: usize = 32;

/// When a block came, and where from.
#[derive(Clone, Copy)]
pub(crate) struct Arrival {
    pub now: Moment,
    pub from: Addr,
}

/// A body as far as it has come.
#[derive(Drop)]
pub(crate) struct Body {
    from: Addr,
    last: Moment,
    options: Vec<CoapOption>,
    payload: Vec<u8>,
    weight: usize,
}

impl Model for Body {
    ghost use Rattle.std.specs.Prelude.{◌≡◌, ◌+◌, length};
    ghost use Rattle.lw_stamp.specs.Moment.{ms_of};
    ghost use Rattle.lw_messaging.specs.Kept.{BodyContent, options_weight};

    ghost Value = { BodyContent };

    ghost view = { λ b. record {
      from = b.from;
      last = ms_of b.last;
      options = b.options.items;
      payload = b.payload.items;
    } };

    ghost invariant = { λ b. b.weight ≡ options_weight b.options.items + length b.payload.items };
}

impl Body {
    pub(crate) fn new(arrival: Arrival, options: Vec<CoapOption>, payload: Vec<u8>) -> Body
        requires { options_weight options.items + length payload.items ≤ 4194304 }
        ensures { result ≡ record {
          from = arrival.from;
          last = ms_of arrival.now;
          options = options.items;
          payload = payload.items;
        } }
    {
        let weight = weight_of_options(&options) + payload.len();
        Body {
            from: arrival.from,
            last: arrival.now,
            options,
            payload,
            weight,
        }
    }

    /// How much it takes.
    pub(crate) fn weight(&self) -> usize
        ensures { result ≡ weight_of self.now }
    {
        self.weight
    }

    pub(crate) fn payload(&self) -> &[u8]
        ensures { result.now ≡ self.now.payload }
    {
        &self.payload
    }

    fn is_live(&self, now: Moment) -> bool
        ensures { result ≡ is_live (ms_of now) self.now }
    {
        now.ms() <= self.last.ms() + LIFETIME_MS
    }

    fn is_of(&self, from: Addr, options: &[CoapOption]) -> bool
        ensures { result ≡ is_of from options.now self.now }
    {
        self.from == from && same_options(&self.options, options)
    }

    /// Whether the block that begins at the offset follows.
    pub(crate) fn continues(&self, arrival: Arrival, options: &[CoapOption], offset: usize) -> bool
        ensures { result ≡ continues (ms_of arrival.now) arrival.from options.now offset self.now }
    {
        self.is_live(arrival.now)
            && self.is_of(arrival.from, options)
            && self.payload.len() == offset
    }

    /// Whether it stays where a block of another body comes.
    pub(crate) fn is_other(&self, arrival: Arrival, options: &[CoapOption]) -> bool
        ensures { result ≡ is_other (ms_of arrival.now) arrival.from options.now self.now }
    {
        self.is_live(arrival.now) && !self.is_of(arrival.from, options)
    }
}

fn weight_of_options(options: &[CoapOption]) -> usize
    requires { options_weight options.now ≤ 4194304 }
    ensures { result ≡ options_weight options.now }
{
    let mut weight = 0;
    for option in options {
        weight += OPTION_WEIGHT + option.value.len();
    }
    weight
}

fn same_option(left: &CoapOption, right: &CoapOption) -> bool
    ensures { result ≡ same_option left.now right.now }
{
    left.number == right.number && left.value.as_slice() == right.value.as_slice()
}

fn same_options(left: &[CoapOption], right: &[CoapOption]) -> bool
    ensures { result ≡ are_same left.now right.now }
{
    if left.len() != right.len() {
        return false;
    }
    for place in 0..left.len() {
        if !same_option(&left[place], &right[place]) {
            return false;
        }
    }
    true
}
