//! Laws of the message grammar and of its numbers, each the contract of a function that does nothing.

ghost use Rattle.std.specs.Prelude.{◌≡◌, ℕ, ◌<◌, ◌⊎◌, List, slice_index};
ghost use Rattle.lw_coap.specs.Code.{code_of};
ghost use Rattle.lw_coap.specs.declared.fault.Fault.{Fault};
ghost use Rattle.lw_coap.specs.Message.{MessageContent};
ghost use Rattle.lw_coap.specs.Grammar.{IsSpelling};
ghost use Rattle.lw_coap.specs.Faults.{IsFault};
ghost use Rattle.lw_coap.specs.Fits.{Fits};

use crate::codes::{
    BAD_OPTION, BAD_REQUEST, CHANGED, CONTENT, CREATED, DELETE, DELETED, EMPTY, GET,
    METHOD_NOT_ALLOWED, NOT_FOUND, POST, PRECONDITION_FAILED, PROXYING_NOT_SUPPORTED,
    REQUEST_ENTITY_TOO_LARGE, SERVICE_UNAVAILABLE, UNSUPPORTED_CONTENT_FORMAT,
};
use crate::limits::{HEADER_LENGTH, MAX_LENGTH, MAX_TOKEN, PAYLOAD_MARKER, VERSION};
use crate::option_numbers::{
    ACCEPT, CONTENT_FORMAT, LOCATION_PATH, OBSERVE, PROXY_SCHEME, PROXY_URI, URI_HOST, URI_PATH,
    URI_PORT, URI_QUERY,
};

/// A message that fits has a spelling, and what has a spelling fits.
pub fn messages_that_fit_are_spelled()
    ensures spelled { (message : MessageContent) → Fits message → (bytes : List ℕ) × IsSpelling bytes message }
    ensures fits { (bytes : List ℕ) (message : MessageContent) → IsSpelling bytes message → Fits message }
{}

/// A message has one spelling, and bytes spell one message.
pub fn spellings_are_one()
    ensures bytes { (a b : List ℕ) (message : MessageContent) → IsSpelling a message → IsSpelling b message → a ≡ b }
    ensures message { (bytes : List ℕ) (a b : MessageContent) → IsSpelling bytes a → IsSpelling bytes b → a ≡ b }
{}

/// Bytes spell a message or have one first fault, never both.
pub fn bytes_are_a_message_or_a_fault()
    ensures some { (bytes : List ℕ) → ((i : ℕ) → slice_index bytes i < 256) → ((message : MessageContent) × IsSpelling bytes message) ⊎ ((fault : Fault) × IsFault bytes fault) }
    ensures apart { (bytes : List ℕ) (message : MessageContent) (fault : Fault) → IsSpelling bytes message → IsFault bytes fault → ⊥ }
    ensures one { (bytes : List ℕ) (a b : Fault) → IsFault bytes a → IsFault bytes b → a ≡ b }
{}

/// Codes are those of the registry (RFC 7252, section 12.1).
pub fn codes_are_registered()
    ensures empty { EMPTY ≡ code_of 0 0 }
    ensures get { GET ≡ code_of 0 1 }
    ensures post { POST ≡ code_of 0 2 }
    ensures delete { DELETE ≡ code_of 0 4 }
    ensures created { CREATED ≡ code_of 2 1 }
    ensures deleted { DELETED ≡ code_of 2 2 }
    ensures changed { CHANGED ≡ code_of 2 4 }
    ensures content { CONTENT ≡ code_of 2 5 }
    ensures bad_request { BAD_REQUEST ≡ code_of 4 0 }
    ensures bad_option { BAD_OPTION ≡ code_of 4 2 }
    ensures not_found { NOT_FOUND ≡ code_of 4 4 }
    ensures method_not_allowed { METHOD_NOT_ALLOWED ≡ code_of 4 5 }
    ensures precondition_failed { PRECONDITION_FAILED ≡ code_of 4 12 }
    ensures request_entity_too_large { REQUEST_ENTITY_TOO_LARGE ≡ code_of 4 13 }
    ensures unsupported_content_format { UNSUPPORTED_CONTENT_FORMAT ≡ code_of 4 15 }
    ensures service_unavailable { SERVICE_UNAVAILABLE ≡ code_of 5 3 }
    ensures proxying_not_supported { PROXYING_NOT_SUPPORTED ≡ code_of 5 5 }
{}

/// Option numbers are those of the registry (RFC 7252, section 12.2; Observe: RFC 7641, section 2).
pub fn option_numbers_are_registered()
    ensures uri_host { URI_HOST ≡ 3 }
    ensures observe { OBSERVE ≡ 6 }
    ensures uri_port { URI_PORT ≡ 7 }
    ensures location_path { LOCATION_PATH ≡ 8 }
    ensures uri_path { URI_PATH ≡ 11 }
    ensures content_format { CONTENT_FORMAT ≡ 12 }
    ensures uri_query { URI_QUERY ≡ 15 }
    ensures accept { ACCEPT ≡ 17 }
    ensures proxy_uri { PROXY_URI ≡ 35 }
    ensures proxy_scheme { PROXY_SCHEME ≡ 39 }
{}

/// The lengths and the marker of a message (RFC 7252, section 3; at most 8,192 bytes).
pub fn limits_are_stated()
    ensures max_length { MAX_LENGTH ≡ 8192 }
    ensures max_token { MAX_TOKEN ≡ 8 }
    ensures header_length { HEADER_LENGTH ≡ 4 }
    ensures payload_marker { PAYLOAD_MARKER ≡ 255 }
    ensures version { VERSION ≡ 1 }
{}
