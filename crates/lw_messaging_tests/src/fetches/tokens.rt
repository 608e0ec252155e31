//! The tokens of notifications in blocks.

use super::*;
use lw_messaging::token_in_blocks;

/// Whether that is the token of a notification in blocks.
fn is_token(rt: &impl Abort, alloc: Global, bytes: &[u8], want: Option<Stamp>) -> bool {
    token_in_blocks(alloc, bytes).expect(rt, "memory") == want
}

/// Tries: token_in_blocks
#[test]
fn the_token_of_a_notification_in_blocks_is_found(rt: HostRuntime) {
    let alloc = rt.alloc();
    for kind in [CON, NON, ACK] {
        for block in [0x08, 0x10, 0x0f] {
            let came = Came {
                kind,
                ..told_of!(1, block, 3)
            };
            let bytes = datagram(alloc, &came).expect(&rt, "memory");
            let is_so = is_token(&rt, alloc, &bytes, Stamp::from_bytes(TOKEN));
            assert!(rt; is_so, "{kind} {block}");
        }
    }
}

/// No Block2; two, and one of four bytes; a token of four bytes, of none, and one whose counter is 0; a 2.04, a GET and
/// a Reset; bytes that are no message.
static WITHOUT: [&[u8]; 11] = [
    b"\x48\x45\x00\x01\x00\x00\x00\x00\x00\x07\x00\x01\x61\x09\xffabc",
    b"\x48\x45\x00\x01\x00\x00\x00\x00\x00\x07\x00\x01\xd0\x0a\x00\xffabc",
    b"\x48\x45\x00\x01\x00\x00\x00\x00\x00\x07\x00\x01\xd4\x0a\x00\x00\x00\x00\xffabc",
    b"\x44\x45\x00\x01\x00\x00\x00\x05\xd0\x0a\xffabc",
    b"\x40\x45\x00\x01\xd0\x0a\xffabc",
    b"\x48\x45\x00\x01\x00\x00\x00\x00\x00\x00\x00\x01\xd0\x0a\xffabc",
    b"\x48\x44\x00\x01\x00\x00\x00\x00\x00\x07\x00\x01\xd0\x0a\xffabc",
    b"\x48\x01\x00\x01\x00\x00\x00\x00\x00\x07\x00\x01\xd0\x0a\xffabc",
    b"\x78\x45\x00\x01\x00\x00\x00\x00\x00\x07\x00\x01\xd0\x0a\xffabc",
    b"\x48\x45\x00\x01\x00\x00\x00\x00\x00\x07\x00\x01\xd0\x0a\xff",
    b"\x48\x45",
];

/// Tries: token_in_blocks
#[test]
fn other_datagrams_have_none(rt: HostRuntime) {
    for bytes in &WITHOUT {
        assert!(rt; is_token(&rt, rt.alloc(), bytes, None), "{bytes:?}");
    }
}
