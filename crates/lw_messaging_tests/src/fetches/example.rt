//! The first example of RFC 7959, section 3.4, with a token and a path of this server.

use super::*;

/// 0/1/128 with Observe 62354 and ETag 6f00f392, message ID af9c.
const NOTIFICATION: &[u8] =
    b"\x48\x45\xaf\x9c\x00\x00\x00\x00\x00\x07\x00\x01\x44\x6f\x00\xf3\x92\x22\xf3\x92\xd1\x04\x0b\xff";

/// 1/1/128, and 2/0/128.
const SECOND: &[u8] = b"\x64\x45\x16\x37\x00\x00\x00\x05\x44\x6f\x00\xf3\x92\xd1\x06\x1b\xff";

const THIRD: &[u8] = b"\x64\x45\x16\x38\x00\x00\x00\x05\x44\x6f\x00\xf3\x92\xd1\x06\x23\xff";

/// The GETs of 1/0/128 and 2/0/128.
const GET_SECOND: &[u8] = b"\x44\x01\x00\x00\x00\x00\x00\x05\xb13\x010\x61\x6e\x61\x13";

const GET_THIRD: &[u8] = b"\x44\x01\x00\x00\x00\x00\x00\x05\xb13\x010\x61\x6e\x61\x23";

/// What the store is told: Observe alone is left of the options.
const TOLD: &[u8] = b"\x58\x45\x00\x00\x00\x00\x00\x00\x00\x07\x00\x01\x62\xf3\x92\xff";

/// The bytes, with payloads behind them.
fn with_payload(rt: &impl Abort, alloc: Global, front: &[u8], parts: &[Part]) -> Vec<u8> {
    let mut bytes = Vec::from_slice(alloc, front).expect(rt, "memory");
    for (mid, len) in parts {
        put_payload(&mut bytes, *mid, *len).expect(rt, "memory");
    }
    bytes
}

fn is_taken(parcel: &Parcel, acknowledged: Option<&[u8]>, asked: &[u8]) -> bool {
    match parcel {
        Parcel::Taken {
            acknowledgement,
            request,
            fetch,
        } => {
            acknowledgement.as_ref().map(|bytes| bytes.as_slice()) == acknowledged
                && request.as_slice() == asked
                && *fetch == 5
        }
        _ => false,
    }
}

fn is_whole(parcel: &Parcel, whole: &[u8]) -> bool {
    match parcel {
        Parcel::Whole {
            acknowledgement: None,
            message,
            is_complete: true,
        } => message.as_slice() == whole,
        _ => false,
    }
}

/// Tries: Fetches::take, Fetches::count
#[test]
fn a_status_icon_is_fetched(rt: HostRuntime) {
    let alloc = rt.alloc();
    let mut fetches = fetches(alloc);
    let first = with_payload(&rt, alloc, NOTIFICATION, &[(1, 128)]);
    let parcel = take(&rt, &mut fetches, (0, HOST_A), watch_of(TOKEN), &first);
    let acknowledged = Some(b"\x60\x00\xaf\x9c".as_slice());
    assert!(rt; is_taken(&parcel, acknowledged, GET_SECOND));
    assert!(rt; fetches.count() == 1);
    let second = with_payload(&rt, alloc, SECOND, &[(2, 128)]);
    let parcel = take(&rt, &mut fetches, (1, HOST_A), None, &second);
    assert!(rt; is_taken(&parcel, None, GET_THIRD));
    let third = with_payload(&rt, alloc, THIRD, &[(3, 53)]);
    let parcel = take(&rt, &mut fetches, (2, HOST_A), None, &third);
    let whole = with_payload(&rt, alloc, TOLD, &[(1, 128), (2, 128), (3, 53)]);
    assert!(rt; is_whole(&parcel, &whole));
    assert!(rt; fetches.count() == 0);
}
