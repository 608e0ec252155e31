//! The Registers that are measured with, as clients send them.

use lw_stamp::Stamp;
use std::alloc::{AllocError, Global};

/// An object list of 72 bytes: the printing of ten links.
pub(crate) const OBJECTS: &[u8] =
    b"</1/0>,</2/0>,</3/0>,</4/0>,</5/0>,</6/0>,</7/0>,</16/0>,</19/0>,</25/0>";

/// How many links may follow those: an object list has at most 256.
pub(crate) const MORE_LINKS: u32 = 246;

/// How many empty queries nearly fill a message of 8,192 bytes.
const EMPTY_QUERIES: usize = 8000;

/// The endpoint of what is measured by itself.
pub(crate) const ENDPOINT: &str = "urn:dev:mac:0024be804ff1";

/// A Register up to its endpoint of 24 bytes (RFC 7252, section 3).
const BEFORE_NAME: &[u8] = &[
    0x48, 2, 0, 1, // version 1, confirmable, a token of 8 bytes, POST, message ID 1
    1, 2, 3, 4, 5, 6, 7, 8, // the token
    0xb2, b'r', b'd', // Uri-Path
    0x11, 40, // Content-Format: the link format
    0x3d, 14, b'e', b'p', b'=', // a Uri-Query of 27 bytes
];

/// Two queries behind the endpoint.
const BEHIND_NAME: &[u8] = b"\x06lt=300\x09lwm2m=1.1";

const PAYLOAD_MARKER: &[u8] = &[0xff];

/// An Update up to the identifier of 16 bytes.
const BEFORE_ID: &[u8] = b"\x40\x02\0\x01\xb2rd\x0d\x03";

/// A query behind the identifier.
const LIFETIME: &[u8] = b"\x46lt=300";

/// Puts the Register of an endpoint with ten objects in the place of what was there: 136 bytes. The queries stand
/// behind the others, and so many links behind those objects.
pub(crate) fn put_register(
    bytes: &mut Vec<u8>,
    name: &str,
    queries: &[u8],
    links: u32,
) -> Result<(), AllocError> {
    bytes.clear();
    put_parts(bytes, &[BEFORE_NAME, name.as_bytes(), BEHIND_NAME, queries])?;
    put_parts(bytes, &[PAYLOAD_MARKER, OBJECTS])?;
    put_often(bytes, b",</3303/0>", links)
}

/// Queries without a character, which nearly fill a message of 8,192 bytes.
pub(crate) fn empty_queries(alloc: Global) -> Result<Vec<u8>, AllocError> {
    vec![in alloc; 0; EMPTY_QUERIES]
}

/// Queries of 2,604 attributes without a value, whose names do not rise: they nearly fill a message of 8,192 bytes.
pub(crate) fn attribute_queries(alloc: Global) -> Result<Vec<u8>, AllocError> {
    let mut queries = Vec::new(alloc);
    for second in b'!'..=b'~' {
        if second != b'=' {
            put_names(&mut queries, second)?;
        }
    }
    Ok(queries)
}

/// The queries whose second byte is this one.
fn put_names(queries: &mut Vec<u8>, second: u8) -> Result<(), AllocError> {
    for first in b'A'..=b'\\' {
        queries.extend_from_slice(&[2, first, second])?;
    }
    Ok(())
}

/// Puts the Update of a registration's lifetime in the place of what was there.
pub(crate) fn put_update(bytes: &mut Vec<u8>, id: Stamp) -> Result<(), AllocError> {
    bytes.clear();
    put_parts(bytes, &[BEFORE_ID, &id.id_text(), LIFETIME])
}

/// Puts one part behind another.
pub(crate) fn put_parts(bytes: &mut Vec<u8>, parts: &[&[u8]]) -> Result<(), AllocError> {
    for part in parts {
        bytes.extend_from_slice(part)?;
    }
    Ok(())
}

fn put_often(bytes: &mut Vec<u8>, part: &[u8], times: u32) -> Result<(), AllocError> {
    for _ in 0..times {
        bytes.extend_from_slice(part)?;
    }
    Ok(())
}
