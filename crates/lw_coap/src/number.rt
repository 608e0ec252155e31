ghost use Rattle.std.specs.Prelude.{◌≡◌, ◌<◌, ◌↔◌, length, IsNone, IfSome};
ghost use Rattle.lw_coap.specs.Number.{number_of};

/// The number of an option's value (RFC 7252, section 3.2): most significant byte first. Leading zero
/// bytes are accepted. There is none of more than 4 bytes.
pub fn uint(bytes: &[u8]) -> Option<u32>
    ensures none { IsNone result ↔ (4 < length bytes.now) }
    ensures value { IfSome result (λ number. number ≡ number_of bytes.now) }
{
    match bytes {
        [] => Some(0),
        [a] => Some(u32::from_be_bytes([0, 0, 0, *a])),
        [a, b] => Some(u32::from_be_bytes([0, 0, *a, *b])),
        [a, b, c] => Some(u32::from_be_bytes([0, *a, *b, *c])),
        [a, b, c, d] => Some(u32::from_be_bytes([*a, *b, *c, *d])),
        _ => None,
    }
}
