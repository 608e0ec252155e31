mod scripts;

use lw_script::*;

/// Lines of each kind, and bounds of each field just inside.
static LINES: [&str; 39] = [
    "take 1 0 127.0.0.1:5683 40020004b272644465703d61ff3c2f3e",
    "take 1 0 127.0.0.1:5683 ",
    "take 1 0 127.0.0.1:5683 Ff",
    "take 0 281474976710655 255.255.255.255:65535 00",
    "take 65535 1 [0000:0000:0000:0000:0000:0000:0000:0001]:0 00",
    "observe 1 0 0000000000010001 /3/0 - 32",
    "observe 1 0 0000000000010001 /3 0 0",
    "observe 1 0 0000000000010001 /3/0/1/65534 65535 65535",
    "cancel 1 0 0000000000020001 0",
    "cancel 1 0 ffffffffffffffff 65535",
    "sweep 1 0",
    "sweep 0 281474976710655",
    "sweep 65535 60000",
    "send 1 0",
    "send 1 18446744073709551615",
    "deliver 2 0",
    "deliver 2 4294967295",
    "id 2 0 0000000000010001",
    "endpoint 3 0 a",
    "endpoint 3 0  a b ",
    "endpoint 3 0 \r",
    "endpoint 3 0 \0",
    "address 1 0 127.0.0.1:5683",
    "token 1 0 0000000000020001",
    "watch 1 0 0000000000010001",
    "watch 1 0 0000000000010001 /0",
    "watch 1 0 0000000000010001 /0/1",
    "watch 1 0 0000000000010001 /0/1/2",
    "watch 1 0 0000000000010001 /0/1/2/3",
    "next 1 0",
    "next 1 0 a",
    "next 1 0  ",
    "expired 1 0",
    "expired 1 0 a",
    "expired 1 281474976710655 \u{e9}",
    "change 1",
    "change 0",
    "change 65535",
    "endpoint 1 0 take 1 0",
];

/// Bounds just outside, and other texts that are no lines.
static REFUSED: [&str; 63] = [
    "",
    " ",
    "nodes 2",
    "take",
    "take 1 0 127.0.0.1:5683",
    "take 1 0 127.0.0.1:5683 0",
    "take 1 0 127.0.0.1:5683 0g",
    "take 1 0 127.0.0.1:5683 00 ",
    "take 1 0 127.0.0.1:5683 00\r",
    "take 1 0 127.0.0.1:65536 00",
    "take 1 0 127.0.0.01:5683 00",
    "take 1 281474976710656 127.0.0.1:5683 00",
    "take 65536 0 127.0.0.1:5683 00",
    "take 01 0 127.0.0.1:5683 00",
    "take +1 0 127.0.0.1:5683 00",
    "take 1 00 127.0.0.1:5683 00",
    "take  1 0 127.0.0.1:5683 00",
    " take 1 0 127.0.0.1:5683 00",
    "Take 1 0 127.0.0.1:5683 00",
    "observe 1 0 0000000000010001 /3/0 -",
    "observe 1 0 0000000000010001 /3/0 - 65536",
    "observe 1 0 0000000000010001 /3/0 65536 0",
    "observe 1 0 0000000000010001 /3/0 -1 0",
    "observe 1 0 0000000000010001 / - 0",
    "observe 1 0 0000000000010001 3 - 0",
    "observe 1 0 0000000000010001 /65535 - 0",
    "observe 1 0 0000000000010001 /0/1/2/3/4 - 0",
    "observe 1 0 0000000000010001 /3/ - 0",
    "observe 1 0 0000000000010001 //3 - 0",
    "observe 1 0 0000000000010001 /03 - 0",
    "observe 1 0 0000000000000001 /3 - 0",
    "observe 1 0 000000000001000A /3 - 0",
    "cancel 1 0 0000000000020001",
    "cancel 1 0 0000000000020001 65536",
    "sweep",
    "sweep 1",
    "sweep 1 ",
    "sweep 1 0 ",
    "sweep 1 0 a",
    "sweep 1 281474976710656",
    "swept 1 0",
    "send 1",
    "send 1 18446744073709551616",
    "send 1 ",
    "send 1 0 ",
    "deliver 2 4294967296",
    "deliver 2 -1",
    "id 2 0",
    "id 2 0 000000000001000",
    "endpoint 3 0",
    "endpoint 3 0 ",
    "address 1 0 127.0.0.1",
    "token 1 0 0000000000020001 ",
    "watch 1 0 0000000000010001 ",
    "watch 1 0",
    "next 1 0 ",
    "next 1",
    "expired 1 0 ",
    "expired 1 281474976710656",
    "change",
    "change 1 ",
    "change 65536",
    "changes 1",
];

/// Tries: read_line
#[test]
fn lines_of_scripts_alone_are_read(rt: HostRuntime) {
    for line in &LINES {
        let read = read_line(rt.alloc(), line);
        assert!(rt; read.is_ok(), "{line}");
    }
    for line in &REFUSED {
        let read = read_line(rt.alloc(), line);
        assert!(rt; matches!(read, Err(LineFault::Refused)), "{line}");
    }
}

/// Texts, and whether they are the digits of whole bytes.
const DIGITS: [(&[u8], bool); 8] = [
    (b"", true),
    (b"00", true),
    (b"09afAF", true),
    (b"0", false),
    (b"000", false),
    (b"0g", false),
    (b"@0", false),
    (b" 00 ", false),
];

/// Tries: is_hex
#[test]
fn digits_of_whole_bytes(rt: HostRuntime) {
    for (text, are_digits) in DIGITS {
        assert_eq!(rt; is_hex(text), are_digits, "{text:?}");
    }
}
