use lw_redis_log::{Login, LoginFault, MAX_PART};
use std::alloc::Global;
use std::process::Abort;

/// Two lines, a user and a password.
static LOGINS: [&[u8]; 6] = [
    b"fleet\nsecret",
    b"fleet\nsecret\n",
    b"fleet\r\nsecret\r\n",
    b"fleet\r\nsecret",
    b"fleet\n se cret \n",
    b"\xc3\xa4\n\xff\n",
];

/// What is none.
static NONE: [&[u8]; 16] = [
    b"",
    b"\n",
    b"\n\n",
    b"fleet",
    b"fleet\n",
    b"fleet\n\n",
    b"\nsecret\n",
    b"\r\nsecret\r\n",
    b"fleet\n\r\n",
    b"fleet\nsecret\n\n",
    b"fleet\nsecret\nmore",
    b"fleet\nsecret\r",
    b"fleet\r\r\nsecret",
    b"fl\teet\nsecret",
    b"fleet\nsec\x00ret",
    b"fleet\nsecret\x7f",
];

/// Compares whether the bytes are a login.
fn is_login(rt: &impl Abort, alloc: Global, bytes: &[u8], want: bool) {
    let fault = Login::read(alloc, bytes).err();
    let is_so = if want {
        fault.is_none()
    } else {
        fault == Some(LoginFault::Malformed)
    };
    assert!(rt; is_so, "{bytes:?}");
}

/// Tries: lw_redis_log::Login::read
#[test]
fn two_lines_are_a_login(rt: HostRuntime) {
    let alloc = rt.alloc();
    for bytes in &LOGINS {
        is_login(&rt, alloc, bytes, true);
    }
    for bytes in &NONE {
        is_login(&rt, alloc, bytes, false);
    }
}

/// How many bytes a user and a password have, and whether they are a login.
static LENGTHS: [(usize, usize, bool); 3] = [(256, 256, true), (257, 1, false), (1, 257, false)];

/// Tries: lw_redis_log::Login::read
#[test]
fn a_line_has_256_bytes_at_most(rt: HostRuntime) {
    let alloc = rt.alloc();
    assert_eq!(rt; MAX_PART, 256);
    for (user, password, want) in &LENGTHS {
        let mut bytes = vec![in alloc; b'u'; *user].expect(&rt, "memory");
        bytes.push(b'\n').expect(&rt, "memory");
        let line = vec![in alloc; b'p'; *password].expect(&rt, "memory");
        bytes.extend_from_slice(&line).expect(&rt, "memory");
        is_login(&rt, alloc, &bytes, *want);
    }
}
