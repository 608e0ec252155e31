//! The options of a message, as a request or a report takes them (RFC 7252, section 5.4).

ghost use Rattle.std.specs.Prelude.{◌≡◌, ◌≢◌, ◌↔◌, ℕ, IsTrue, Some, slice_get, option_copied, nat_lt, length};
ghost use Rattle.std.specs.List.{list_any};
ghost use Rattle.lw_request.specs.Options.{values_of, is_critical, has_critical, is_unrecognised, has_unrecognised, is_proxy, has_proxy, content_format as format_of, observe_number as number_observed, admits, rules, is_repeated};

use lw_coap::option_numbers::{
    ACCEPT, CONTENT_FORMAT, OBSERVE, PROXY_SCHEME, PROXY_URI, URI_HOST, URI_PATH, URI_PORT,
    URI_QUERY,
};
use lw_coap::{LentOption, Options, uint};

/// The Content-Format application/link-format (RFC 7252, section 12.3).
const LINK_FORMAT: u16 = 40;

/// The value of the option of the number that has this many of that number before it.
pub(crate) fn value_at<'a>(options: &Options<'a>, number: u16, place: usize) -> Option<&'a [u8]>
    ensures { option_copied result ≡ slice_get (values_of number options.now) place }
{
    let mut left = place;
    let mut rest = options.walk();
    while let Some(option) = rest.next() {
        if option.number == number {
            if left == 0 {
                return Some(option.value);
            }
            left -= 1;
        }
    }
    None
}

fn is_critical(option: &LentOption<'_>) -> bool
    ensures { result ≡ is_critical option.now }
{
    option.number % 2 == 1
}

/// Whether there is an option that may not be ignored.
pub(crate) fn has_critical(options: &Options<'_>) -> bool
    ensures { result ≡ has_critical options.now }
{
    let mut rest = options.walk();
    while let Some(option) = rest.next() {
        if is_critical(&option) {
            return true;
        }
    }
    false
}

fn is_proxy(option: &LentOption<'_>) -> bool
    ensures { result ≡ is_proxy option.now }
{
    option.number == PROXY_URI || option.number == PROXY_SCHEME
}

/// Whether there is a Proxy-Uri or a Proxy-Scheme.
pub(crate) fn has_proxy(options: &Options<'_>) -> bool
    ensures { result ≡ has_proxy options.now }
{
    let mut rest = options.walk();
    while let Some(option) = rest.next() {
        if is_proxy(&option) {
            return true;
        }
    }
    false
}

/// Whether a request may have the option: it is known, and its value has a length that is allowed.
fn is_recognised(option: &LentOption<'_>) -> bool
    ensures { result ≡ list_any (admits option.now) rules }
{
    let length = option.value.len();
    match option.number {
        URI_HOST => 1 <= length && length <= 255,
        URI_PORT | ACCEPT => length <= 2,
        URI_PATH | URI_QUERY => length <= 255,
        _ => false,
    }
}

fn is_unrecognised(option: &LentOption<'_>) -> bool
    ensures { result ≡ is_unrecognised option.now }
{
    is_critical(option) && !is_recognised(option)
}

fn any_unrecognised(options: &Options<'_>) -> bool
    ensures { result ≡ list_any is_unrecognised options.now }
{
    let mut rest = options.walk();
    while let Some(option) = rest.next() {
        if is_unrecognised(&option) {
            return true;
        }
    }
    false
}

/// Whether there is a second option of the number.
fn stands_twice(options: &Options<'_>, number: u16) -> bool
    ensures { result ≡ nat_lt 1 (length (values_of number options.now)) }
{
    value_at(options, number, 1).is_some()
}

/// Whether an option that may stand once stands twice.
fn has_repeated(options: &Options<'_>) -> bool
    ensures { result ≡ list_any (is_repeated options.now) rules }
{
    stands_twice(options, URI_HOST)
        || stands_twice(options, URI_PORT)
        || stands_twice(options, ACCEPT)
}

/// Whether there is a critical option that a request may not have, or not once more.
pub(crate) fn has_unrecognised(options: &Options<'_>) -> bool
    ensures { result ≡ has_unrecognised options.now }
{
    any_unrecognised(options) || has_repeated(options)
}

/// The number of the first Content-Format; one of more than two bytes counts as none.
pub(crate) fn content_format(options: &Options<'_>) -> Option<u16>
    ensures { result ≡ format_of options.now }
{
    match value_at(options, CONTENT_FORMAT, 0)? {
        [] => Some(0),
        [a] => Some(u16::from(*a)),
        [a, b] => Some(u16::from_be_bytes([*a, *b])),
        _ => None,
    }
}

/// Whether there is a Content-Format other than application/link-format.
pub(crate) fn has_other_format(options: &Options<'_>) -> bool
    ensures { IsTrue result ↔ ((format : ℕ) × (format_of options.now ≡ Some format) × (format ≢ 40)) }
{
    content_format(options).is_some_and(|format| format != LINK_FORMAT)
}

/// The number of the first Observe; one of more than three bytes counts as none.
pub(crate) fn observe_number(options: &Options<'_>) -> Option<u32>
    ensures { result ≡ number_observed options.now }
{
    let value = value_at(options, OBSERVE, 0)?;
    if value.len() > 3 {
        return None;
    }
    uint(value)
}
