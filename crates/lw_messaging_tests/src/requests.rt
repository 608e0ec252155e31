//! Which datagrams are requests that are answered once (RFC 7252, section 3).

use lw_messaging::is_request;

/// The first four bytes of a datagram, and whether it is such a request.
type Row = (&'static [u8], bool);

static TABLE: [Row; 18] = [
    (&[0x40, 0x01, 0x00, 0x07], true),
    (&[0x44, 0x02, 0x00, 0x07], true),
    (&[0x4f, 0x1f, 0xff, 0xff], true),
    (&[0x50, 0x02, 0x00, 0x07], true),
    (&[0x5f, 0x1f, 0x00, 0x07], true),
    // An acknowledgement and a Reset.
    (&[0x60, 0x02, 0x00, 0x07], false),
    (&[0x70, 0x00, 0x00, 0x07], false),
    // Empty, a code of class 1, and responses: 2.05, confirmable and not.
    (&[0x40, 0x00, 0x00, 0x07], false),
    (&[0x40, 0x20, 0x00, 0x07], false),
    (&[0x40, 0x45, 0x00, 0x07], false),
    (&[0x50, 0x45, 0x00, 0x07], false),
    // Versions 0, 2 and 3.
    (&[0x04, 0x02, 0x00, 0x07], false),
    (&[0x84, 0x02, 0x00, 0x07], false),
    (&[0xc4, 0x02, 0x00, 0x07], false),
    // Fewer than four bytes.
    (&[0x44, 0x02, 0x00], false),
    (&[0x44, 0x02], false),
    (&[0x44], false),
    (&[], false),
];

/// Tries: lw_messaging::is_request
#[test]
fn requests_are_known(rt: HostRuntime) {
    for (bytes, want) in &TABLE {
        assert!(rt; is_request(bytes) == *want, "{bytes:?}");
    }
}
