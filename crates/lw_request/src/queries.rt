//! The Uri-Queries of a request (LwM2M 1.1 Core, section 6.2.1).

ghost use Rattle.std.specs.Prelude.{◌≡◌, ◌≤◌, ◌⊎◌, ℕ, [], ◌∷◌, length, IsSome, IfSome, IfNone, IfOk, OnOk, OnErr, option_copied, option_map};
ghost use Rattle.std.specs.List.{AllByRecursion};
ghost use Rattle.lw_reg.specs.Binding.{binding_text};
ghost use Rattle.lw_request.specs.Options.{values_of};
ghost use Rattle.lw_request.specs.Queries.{Parameter, IsDigit, IsLifetime, decimal_value, name_of, value_of, later_or, given, AreTexts, IsGiven};
ghost use Rattle.lw_request.specs.inner.Queries.{IsNotAccepted, IsWithin};
ghost use Rattle.lw_request.specs.Queries.Parameter.{Lt, B, Sms};
ghost use Rattle.lw_request.specs.inner.Parameters.{value_in};

use lw_coap::option_numbers::URI_QUERY;
use lw_coap::{LentOption, Options};
use lw_reg::{Binding, SmsNumber};
use lw_stamp::NoMemory;
use std::alloc::Global;
use std::str;

/// The value of a parameter is not accepted.
#[derive(Clone, Copy)]
pub(crate) struct BadQuery;

/// The last value of each parameter, lent by the message: what is absent was not given.
#[derive(Clone, Copy)]
pub(crate) struct Parameters<'a> {
    pub endpoint: Option<&'a str>,
    pub lifetime: Option<&'a str>,
    pub version: Option<&'a str>,
    pub binding: Option<&'a str>,
    pub queue: Option<&'a str>,
    pub sms: Option<&'a str>,
}

/// The parameters of the queries, of which each has to be UTF-8.
pub(crate) fn parameters_of<'a>(options: &Options<'a>) -> Result<Parameters<'a>, BadQuery>
    ensures texts { OnOk result (AreTexts (values_of 15 options.now)) }
    ensures given { IfOk result (λ found. (parameter : Parameter)
        → value_in found parameter ≡ given parameter (values_of 15 options.now)) }
    ensures err { OnErr result (¬ AreTexts (values_of 15 options.now)) }
{
    let mut parameters = Parameters {
        endpoint: None,
        lifetime: None,
        version: None,
        binding: None,
        queue: None,
        sms: None,
    };
    let mut rest = options.walk();
    while let Some(option) = rest.next() {
        parameters = parameters.with(&option)?;
    }
    Ok(parameters)
}

impl<'a> Parameters<'a> {
    /// The parameters with what a further option gives.
    fn with(self, option: &LentOption<'a>) -> Result<Parameters<'a>, BadQuery>
        ensures texts { OnOk result (AreTexts (values_of 15 (option.now ∷ []))) }
        ensures given { IfOk result (λ found. (parameter : Parameter)
            → value_in found parameter ≡ later_or (given parameter (values_of 15 (option.now ∷ []))) (value_in self.entry parameter)) }
        ensures err { OnErr result (¬ AreTexts (values_of 15 (option.now ∷ []))) }
    {
        if option.number != URI_QUERY {
            return Ok(self);
        }
        match str::from_utf8(option.value) {
            Ok(query) => Ok(self.with_query(query)),
            Err(_) => Err(BadQuery),
        }
    }

    fn with_query(self, query: &'a str) -> Parameters<'a>
        ensures { (parameter : Parameter)
            → value_in result parameter ≡ later_or (given parameter (query.now ∷ [])) (value_in self.entry parameter) }
    {
        let (name, value) = split_query(query);
        let value = Some(value);
        match name {
            "ep" => Parameters {
                endpoint: value,
                ..self
            },
            "lt" => Parameters {
                lifetime: value,
                ..self
            },
            "lwm2m" => Parameters {
                version: value,
                ..self
            },
            "b" => Parameters {
                binding: value,
                ..self
            },
            "Q" => Parameters {
                queue: value,
                ..self
            },
            "sms" => Parameters { sms: value, ..self },
            _ => self,
        }
    }
}

/// The name and the value of a query.
pub(crate) fn split_query(query: &str) -> (&str, &str)
    ensures name { result.0.now ≡ name_of query.now }
    ensures value { result.1.now ≡ value_of query.now }
{
    query.split_once('=').unwrap_or((query, ""))
}

/// What a Register and an Update may both say, lent by the message: what is absent was not given.
#[derive(Clone, Copy)]
pub(crate) struct LentSettings<'a> {
    /// In seconds; 0 never expires.
    pub lifetime: Option<u32>,
    pub binding: Option<Binding>,
    pub sms: Option<&'a str>,
}

pub(crate) fn settings_of<'a>(parameters: &Parameters<'a>) -> Result<LentSettings<'a>, BadQuery>
    ensures lifetime { IfOk result (λ s. IsGiven IsLifetime (value_in parameters.now Lt) s.lifetime) }
    ensures binding { IfOk result (λ s. option_map binding_text s.binding ≡ value_in parameters.now B) }
    ensures sms { IfOk result (λ s. option_copied s.sms ≡ value_in parameters.now Sms) }
    ensures err { OnErr result (IsNotAccepted Lt (value_in parameters.now Lt)
        ⊎ IsNotAccepted B (value_in parameters.now B)) }
{
    Ok(LentSettings {
        lifetime: lifetime_in(parameters.lifetime)?,
        binding: binding_in(parameters.binding)?,
        sms: parameters.sms,
    })
}

/// The lifetime in seconds, where one is given.
fn lifetime_in(given: Option<&str>) -> Result<Option<u32>, BadQuery>
    ensures ok { IfOk result (IsGiven IsLifetime (option_copied given.entry)) }
    ensures err { OnErr result (IsNotAccepted Lt (option_copied given.entry)) }
{
    let Some(text) = given else {
        return Ok(None);
    };
    match read_lifetime(text) {
        Some(lifetime) => Ok(Some(lifetime)),
        None => Err(BadQuery),
    }
}

/// The binding, where one is given.
fn binding_in(given: Option<&str>) -> Result<Option<Binding>, BadQuery>
    ensures ok { IfOk result (λ binding. option_map binding_text binding ≡ option_copied given.entry) }
    ensures err { OnErr result (IsNotAccepted B (option_copied given.entry)) }
{
    let Some(text) = given else {
        return Ok(None);
    };
    match Binding::read(text) {
        Some(binding) => Ok(Some(binding)),
        None => Err(BadQuery),
    }
}

fn read_lifetime(text: &str) -> Option<u32>
    ensures some { IfSome result (IsLifetime text.now) }
    ensures none { IfNone result ((lifetime : ℕ) → IsLifetime text.now lifetime → ⊥) }
{
    if text.is_empty() || text.len() > 10 {
        return None;
    }
    let lifetime = read_decimal(text.as_bytes())?;
    u32::try_from(lifetime).ok()
}

/// The number that the digits stand for, where they are digits.
fn read_decimal(digits: &[u8]) -> Option<u64>
    requires { length digits.now ≤ 10 }
    ensures some { IfSome result (λ n. AllByRecursion IsDigit digits.now × (n ≡ decimal_value digits.now)) }
    ensures none { IfNone result (¬ AllByRecursion IsDigit digits.now) }
{
    let mut number: u64 = 0;
    for digit in digits {
        if !digit.is_ascii_digit() {
            return None;
        }
        number = 10 * number + u64::from(*digit - b'0');
    }
    Some(number)
}

/// The SMS number of a text of at most 251 bytes.
pub(crate) fn sms_number(alloc: Global, text: Option<&str>) -> Result<Option<SmsNumber>, NoMemory>
    requires { IsWithin 251 (option_copied text) }
    ensures ok { IfOk result (λ sms. sms ≡ option_copied text.entry) }
    ensures err { OnErr result (IsSome text.entry) }
{
    match text {
        None => Ok(None),
        Some(text) => Ok(Some(SmsNumber::copy_of(alloc, text)?)),
    }
}
