//! An index of endpoints and one of places: from each key to the endpoints, or to the places, that have it.
//!
//! Many may have one key, as an address. Keys are ordered by their `Ord`, endpoints by their bytes, places as numbers.
#![tactic(auto)]

mod endpoints;
mod index;
mod places;
mod places_of;
mod texts;

pub use endpoints::Endpoints;
pub use index::Index;
pub use places::Places;
pub use places_of::PlacesOf;
