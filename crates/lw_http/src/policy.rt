//! Who may ask.

ghost use Rattle.std.specs.Prelude.{◌≡◌, ◌≤◌, ◌==◌, ◌++◌, ◌↔◌, not, length, IsTrue, Some, codes, option_copied};
ghost use Rattle.std.specs.List.{prefix_len};
ghost use Rattle.http_server.specs.Host.{is_bracketed as bracketed};
ghost use Rattle.lw_http.specs.AccessPolicy.{before_port as text_before_port, host_of as named, host_name, only_of};
ghost use Rattle.lw_http.specs.AccessPolicy.{token_of, tokens_in, HasToken, IsForUs, IsSameOrigin, IsHostServed};
ghost use Rattle.lw_http.specs.AccessPolicy.{IsIpv4, IsNameServed, IsOpen, IsOurs, IsOurSite, IsSiteOf, HasAccess};
ghost use Rattle.lw_http.specs.AccessPolicy.{Presents};
ghost use Rattle.http.specs.Request.{head_of};
ghost use Rattle.http_header.specs.HeaderMap.{get as value_of, get_all as values_of};

use bytes::Bytes;
use http::Request;
use http_header::{HeaderValue, ValueIter};
use lw_route::Commands;
use std::net::Ipv4Addr;

/// What stands before a token in its field.
const SCHEME: &[u8] = b"bearer ";

/// What requests are held against.
#[derive(Drop)]
pub struct AccessPolicy {
    /// The token that a request has to bring, if it has to.
    pub token: Option<Vec<u8>>,
    /// The name that a request may be for, beside IP addresses and `localhost`.
    pub host: Option<String>,
    /// Whether requests are taken that change something.
    pub commands: Commands,
}

impl AccessPolicy {
    /// Whether the request names no host, or one that is served.
    pub(crate) fn is_for_us(&self, request: &Request<Bytes>) -> bool
        ensures { IsTrue result ↔ IsForUs self.now request.now }
    {
        match host_of(request) {
            Some(host) => self.is_host_served(host),
            None => true,
        }
    }

    fn is_host_served(&self, text: &[u8]) -> bool
        ensures { IsTrue result ↔ IsHostServed self.now text.now }
    {
        is_bracketed(text) || self.is_name_served(before_port(text))
    }

    fn is_name_served(&self, name: &[u8]) -> bool
        ensures { IsTrue result ↔ IsNameServed self.now name.now }
    {
        is_ipv4(name) || name.eq_ignore_ascii_case(b"localhost") || self.is_ours(name)
    }

    fn is_ours(&self, name: &[u8]) -> bool
        ensures { IsTrue result ↔ IsOurs (host_name self.now) name.now }
    {
        match &self.host {
            Some(host) => name.eq_ignore_ascii_case(host.as_bytes()),
            None => false,
        }
    }

    /// Whether the request may be answered.
    pub(crate) fn has_access(&self, request: &Request<Bytes>) -> bool
        ensures { IsTrue result ↔ HasAccess self.now request.now }
    {
        is_open(request.uri().path()) || self.has_token(request)
    }

    fn has_token(&self, request: &Request<Bytes>) -> bool
        ensures { IsTrue result ↔ HasToken (token_of self.now) (tokens_in request.now) }
    {
        match &self.token {
            Some(token) => brings(request, token),
            None => true,
        }
    }
}

#[tactic(auto, using(crate::proofs::TokenLemmas::brought, crate::proofs::TokenLemmas::not_brought))]
/// Whether the request brings the token, in one field.
fn brings(request: &Request<Bytes>, token: &[u8]) -> bool
    ensures { IsTrue result ↔ HasToken (Some token.now) (tokens_in request.now) }
{
    match only_token(request) {
        Some(value) => presents(token, value.as_bytes()),
        None => false,
    }
}

/// The field that presents a token, where there is exactly one.
fn only_token(request: &Request<Bytes>) -> Option<&HeaderValue>
    ensures { option_copied result ≡ only_of (tokens_in request.now) }
{
    only(request.headers().get_all("authorization").iter())
}

/// The value, where there is exactly one.
fn only(values: ValueIter<'_, HeaderValue>) -> Option<&HeaderValue>
    ensures { option_copied result ≡ only_of values.entry }
{
    let mut values = values;
    let first = values.next()?;
    match values.next() {
        Some(_) => None,
        None => Some(first),
    }
}

/// The host that the request names, if it does.
fn host_of(request: &Request<Bytes>) -> Option<&[u8]>
    ensures { option_copied result ≡ named request.now }
{
    match request.uri().host() {
        Some(host) => Some(host.as_bytes()),
        None => Some(request.headers().get("host")?.as_bytes()),
    }
}

fn is_bracketed(text: &[u8]) -> bool
    ensures { result ≡ bracketed text.now }
{
    !text.is_empty() && text[0] == b'['
}

/// How many bytes stand before the first colon.
fn name_length(text: &[u8]) -> usize
    ensures value { result ≡ prefix_len (λ byte. not (byte == 58)) text.now }
    ensures within { result ≤ length text.now }
{
    text.iter().take_while(|byte| **byte != b':').count()
}

/// What stands before the first colon.
fn before_port(text: &[u8]) -> &[u8]
    ensures { result.now ≡ text_before_port text.now }
{
    &text[..name_length(text)]
}

fn is_ipv4(name: &[u8]) -> bool
    ensures { IsTrue result ↔ IsIpv4 name.now }
{
    match Ipv4Addr::parse_ascii(name) {
        Ok(_) => true,
        Err(_) => false,
    }
}

fn is_open(path: &str) -> bool
    ensures { IsTrue result ↔ IsOpen path.now }
{
    path == "/" || path == "/v1/health"
}

/// Whether the value of the field presents the token.
fn presents(token: &[u8], value: &[u8]) -> bool
    ensures { IsTrue result ↔ Presents token.now value.now }
{
    if value.len() < SCHEME.len() {
        return false;
    }
    let (scheme, given) = value.split_at(SCHEME.len());
    scheme.eq_ignore_ascii_case(SCHEME) && is_same(given, token)
}

/// Whether the texts are the same. Where they are of one length each byte is looked at, wherever they differ first.
fn is_same(one: &[u8], other: &[u8]) -> bool
    ensures { IsTrue result ↔ (one.now ≡ other.now) }
{
    if one.len() != other.len() {
        return false;
    }
    let mut same = true;
    for place in 0..one.len() {
        same &= one[place] == other[place];
    }
    same
}

/// Whether no other site made the request, as far as is told.
pub(crate) fn is_same_origin(request: &Request<Bytes>) -> bool
    ensures { IsTrue result ↔ IsSameOrigin request.now }
{
    request.headers().get("origin").is_none() || is_from_our_site(request)
}

fn is_from_our_site(request: &Request<Bytes>) -> bool
    ensures { IsTrue result ↔ IsOurSite (values_of (head_of request.now).headers (codes "origin"))
        (value_of (head_of request.now).headers (codes "host")) }
{
    let headers = request.headers();
    match (only(headers.get_all("origin").iter()), headers.get("host")) {
        (Some(origin), Some(host)) => is_site_of(host.as_bytes(), origin.as_bytes()),
        _ => false,
    }
}

/// Whether the host is the site, by either scheme.
fn is_site_of(host: &[u8], origin: &[u8]) -> bool
    ensures { IsTrue result ↔ IsSiteOf host.now origin.now }
{
    is_joined(origin, b"http://", host) || is_joined(origin, b"https://", host)
}

/// Whether the text is the front with the back behind it.
fn is_joined(text: &[u8], front: &[u8], back: &[u8]) -> bool
    ensures { IsTrue result ↔ (text.now ≡ front.now ++ back.now) }
{
    match text.strip_prefix(front) {
        Some(behind) => behind == back,
        None => false,
    }
}
