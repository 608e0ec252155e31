//! The names of the endpoints that are measured with.

use std::alloc::{AllocError, Global};

/// In which order names come, by their bytes.
#[derive(Clone, Copy)]
pub(crate) enum Order {
    Rising,
    /// Spread evenly over all names.
    Scattered,
    /// Each right behind the scattered one of its place, so that none is one of those.
    Beside,
}

/// Odd, so that no number below 2^48 comes twice.
const STEP: u128 = 173_961_102_589_771;

/// The numbers of 48 bits.
const NUMBERS: u128 = 1 << 48;

impl Order {
    /// The number of the name at this place.
    pub(crate) fn number_at(self, place: u32) -> u64 {
        match self {
            Order::Rising => u64::from(place),
            Order::Scattered => (u128::from(place) * STEP % NUMBERS) as u64,
            Order::Beside => ((u128::from(place) * STEP + 1) % NUMBERS) as u64,
        }
    }
}

/// The name of the number, of 24 bytes: the device with this MAC address (RFC 9039, section 4.1).
pub(crate) fn name_of(alloc: Global, number: u64) -> Result<String, AllocError> {
    let [_, _, a, b, c, d, e, f] = number.to_be_bytes();
    let address = hex::encode(alloc, [a, b, c, d, e, f])?;
    format!(in alloc; "urn:dev:mac:{address}")
}

/// The names at the first places.
pub(crate) fn names(alloc: Global, order: Order, count: u32) -> Result<Vec<String>, AllocError> {
    let mut names = Vec::new(alloc);
    for place in 0..count {
        names.push(name_of(alloc, order.number_at(place))?)?;
    }
    Ok(names)
}
