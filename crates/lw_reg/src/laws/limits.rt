//! The bounds of what a registration has.

ghost use Rattle.std.specs.Prelude.{◌≡◌};

use crate::{Endpoint, Path, SmsNumber};

/// The bounds as numbers: of a path's numbers, and of the bytes of an endpoint and of an SMS number.
pub fn bounds_are_numbers()
    ensures path_length { Path.MAX_LENGTH ≡ 4 }
    ensures path_number { Path.MAX_NUMBER ≡ 65534 }
    ensures endpoint_length { Endpoint.MAX_LENGTH ≡ 252 }
    ensures sms_length { SmsNumber.MAX_LENGTH ≡ 251 }
{}
