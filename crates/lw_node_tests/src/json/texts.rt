//! Registrations, watches and notices as JSON.

use super::*;

const OTHER: &str =
    r#"{"address":"[2001:0db8:0000:0000:0000:0000:0000:0001]:65535","attributes":{},"binding":"U","endpoint":"a\"b\n","id":"0000000000010001","lifetime":4294967295,"lwm2m":"1.0","objects":"</3/0>;ct=\"1\\\"\"","queue":true,"seen":281474976710655,"sms":"+49"}"#;

/// Tries: registration_text
#[test]
fn registrations(rt: HostRuntime) {
    let objects = links(&rt, rt.alloc(), b"</3/0>");
    is(
        &rt,
        registration_text(rt.alloc(), &registration("a", &objects)),
        SHOWN,
    );
    let objects = links(&rt, rt.alloc(), b"</3/0>;ct=\"1\\\"\"");
    is(
        &rt,
        registration_text(rt.alloc(), &other_registration("a\"b\n", &objects)),
        OTHER,
    );
}

/// Names and values of attributes, and how they stand in JSON.
static ATTRIBUTES: [(&[(&str, &str)], &str); 4] = [
    (&[("x", "3"), ("y", "")], r#""x":"3","y":"""#),
    // names rise by their bytes
    (
        &[("B", "b"), ("a", "A"), ("aa", "="), ("é", "é"), ("門", "门")],
        r#""B":"b","a":"A","aa":"=","é":"é","門":"门""#,
    ),
    // escaped
    (&[("\n", "\n"), ("\"", "\\")], r#""\n":"\n","\"":"\\""#),
    // named as members are
    (
        &[("address", "1"), ("objects", "2")],
        r#""address":"1","objects":"2""#,
    ),
];

/// The JSON of a registration has the members in the place of its attributes.
fn has_attributes(rt: &impl Abort, alloc: Global, texts: &[(&str, &str)], members: &str) {
    let objects = links(rt, alloc, b"</3/0>");
    let attributes = attributes(rt, alloc, texts);
    let mut view = registration("a", &objects);
    view.attributes = attributes.as_view();
    let (before, behind) = SHOWN.split_once("{}").expect(rt, "attributes");
    let want = format!(in alloc; "{before}{{{members}}}{behind}").expect(rt, "memory");
    is(rt, registration_text(alloc, &view), want.as_str());
}

/// Tries: registration_text
#[test]
fn registrations_with_attributes(rt: HostRuntime) {
    for (texts, members) in &ATTRIBUTES {
        has_attributes(&rt, rt.alloc(), texts, members);
    }
}

/// Tries: registration_text
#[test]
fn the_longest_registration(rt: HostRuntime) {
    let objects = long_list(&rt, rt.alloc());
    let endpoint = "e".repeat(rt.alloc(), 252).expect(&rt, "memory");
    let sms = "1".repeat(rt.alloc(), 251).expect(&rt, "memory");
    let mut view = other_registration(endpoint.as_str(), &objects);
    view.sms = Some(sms.as_str());
    let text = registration_text(rt.alloc(), &view).expect(&rt, "memory");
    // a link but the first has 31 bytes, of which four quotes and two backslashes are escaped
    assert_eq!(rt; text.len(), 223 + 252 + 251 + 4 + 255 * (31 + 6));
}

/// Tries: page_text
#[test]
fn a_page_of_no_registration(rt: HostRuntime) {
    let none = r#"{"next":null,"registrations":[]}"#;
    is(&rt, page_text(rt.alloc(), &[], None), none);
    let more = r#"{"next":"a\"b","registrations":[]}"#;
    is(&rt, page_text(rt.alloc(), &[], Some("a\"b")), more);
}

/// Tries: page_text
#[test]
fn a_page_of_two_registrations(rt: HostRuntime) {
    let objects = links(&rt, rt.alloc(), b"</3/0>");
    let others = links(&rt, rt.alloc(), b"</3/0>;ct=\"1\\\"\"");
    let shown = [
        registration("a", &objects),
        other_registration("a\"b\n", &others),
    ];
    let want = format!(in rt.alloc(); r#"{{"next":"z","registrations":[{SHOWN},{OTHER}]}}"#);
    let want = want.expect(&rt, "memory");
    is(&rt, page_text(rt.alloc(), &shown, Some("z")), want.as_str());
}

/// Tries: watch_text
#[test]
fn watches(rt: HostRuntime) {
    let objects = links(&rt, rt.alloc(), b"</>");
    is(
        &rt,
        watch_text(
            rt.alloc(),
            &registration("a", &objects),
            &watch(&rt, &[3, 0], THIRD, None),
        ),
        r#"{"accept":null,"endpoint":"a","id":"0000000000010001","path":"/3/0","token":"0000000000030001"}"#,
    );
    let mut shown = registration("ü/\\", &objects);
    shown.id = LAST;
    let watch = watch(&rt, &[65534, 65534, 65534, 65534], FIRST, Some(65535));
    is(
        &rt,
        watch_text(rt.alloc(), &shown, &watch),
        r#"{"accept":65535,"endpoint":"ü/\\","id":"ffffffffffffffff","path":"/65534/65534/65534/65534","token":"0000000000010001"}"#,
    );
}

/// Endpoints, and how each stands in JSON (RFC 8259, section 7).
static ENDPOINTS: [(&str, &str); 8] = [
    ("a", "a"),
    ("urn:dev:os:32473-123456", "urn:dev:os:32473-123456"),
    ("\"", "\\\""),
    ("\\", "\\\\"),
    ("\n\t\r\u{8}\u{c}", "\\n\\t\\r\\b\\f"),
    ("\u{0}\u{1}\u{1f}\u{7f}", "\\u0000\\u0001\\u001f\u{7f}"),
    ("é€😀\u{2028}", "é€😀\u{2028}"),
    ("/ <b>&'", "/ <b>&'"),
];

/// Texts, and how they stand in JSON (RFC 8259, section 7).
static TEXTS: [(&str, &str); 10] = [
    ("\"", r#"\""#),
    ("\\", r"\\"),
    ("\u{8}\u{c}\n\r\t", r"\b\f\n\r\t"),
    ("\0\u{1}\u{7}", r"\u0000\u0001\u0007"),
    ("\u{b}\u{e}\u{1f}", r"\u000b\u000e\u001f"),
    // not escaped
    (" /'\u{7f}", " /'\u{7f}"),
    ("é門\u{2028}\u{10ffff}", "é門\u{2028}\u{10ffff}"),
    // within a long text
    (
        "0123456789abcdef0123456789abcdef\n",
        r"0123456789abcdef0123456789abcdef\n",
    ),
    (
        "\t0123456789abcdef0123456789abcdef",
        r"\t0123456789abcdef0123456789abcdef",
    ),
    ("", ""),
];

/// The JSON of an expired registration of the endpoint has the endpoint escaped.
fn is_stale(rt: &impl Abort, alloc: Global, endpoint: &str, escaped: &str) {
    let want = format!(in alloc; r#"{{"endpoint":"{escaped}","id":"0000000000030001"}}"#);
    let want = want.expect(rt, "memory");
    is(rt, stale_text(alloc, endpoint, THIRD), want.as_str());
}

/// So has that of a registration.
fn is_escaped(rt: &impl Abort, alloc: Global, endpoint: &str, escaped: &str) {
    let objects = links(rt, alloc, b"</3/0>");
    let (before, behind) = SHOWN.split_once(r#""a""#).expect(rt, "an endpoint");
    let want = format!(in alloc; "{before}\"{escaped}\"{behind}").expect(rt, "memory");
    is(
        rt,
        registration_text(alloc, &registration(endpoint, &objects)),
        want.as_str(),
    );
}

/// Tries: stale_text, registration_text
#[test]
fn endpoints_are_escaped(rt: HostRuntime) {
    for (endpoint, escaped) in &TEXTS {
        is_stale(&rt, rt.alloc(), endpoint, escaped);
        is_escaped(&rt, rt.alloc(), endpoint, escaped);
    }
    for (endpoint, escaped) in &ENDPOINTS {
        is_stale(&rt, rt.alloc(), endpoint, escaped);
    }
    let endpoint = "\u{1}".repeat(rt.alloc(), 252).expect(&rt, "memory");
    let escaped = "\\u0001".repeat(rt.alloc(), 252).expect(&rt, "memory");
    is_stale(&rt, rt.alloc(), endpoint.as_str(), escaped.as_str());
}

/// Tries: notice_text
#[test]
fn notices(rt: HostRuntime) {
    let mut notice = notice(&rt, rt.alloc());
    is(&rt, notice_text(rt.alloc(), &notice), NOTICE);
    notice.code = 132;
    notice.observe = None;
    notice.format = Some(0);
    notice.ended = true;
    notice.path = path(&rt, &[0]);
    notice.payload.clear();
    is(
        &rt,
        notice_text(rt.alloc(), &notice),
        r#"{"code":132,"content_format":0,"ended":true,"endpoint":"a","id":"0000000000010001","observe":null,"path":"/0","payload":"","token":"0000000000030001"}"#,
    );
}

/// Tries: notice_text
#[test]
fn the_longest_notice(rt: HostRuntime) {
    let mut notice = notice(&rt, rt.alloc());
    notice.format = Some(65_535);
    notice.observe = Some(16_777_215);
    notice.payload = vec![in rt.alloc(); 0xfa; 8_192].expect(&rt, "memory");
    let payload = "fa".repeat(rt.alloc(), 8_192).expect(&rt, "memory");
    let want = format!(in rt.alloc();
        r#"{{"code":69,"content_format":65535,"ended":false,"endpoint":"a","id":"0000000000010001","observe":16777215,"path":"/3/0","payload":"{payload}","token":"0000000000030001"}}"#
    );
    let want = want.expect(&rt, "memory");
    is(&rt, notice_text(rt.alloc(), &notice), want.as_str());
}

static PATHS: [(&[u16], &str); 6] = [
    (&[0], "/0"),
    (&[3], "/3"),
    (&[3, 0], "/3/0"),
    (&[1, 20, 300], "/1/20/300"),
    (&[0, 9, 10, 4000], "/0/9/10/4000"),
    (&[65534, 65534, 65534, 65534], "/65534/65534/65534/65534"),
];

/// Tries: path_text
#[test]
fn paths(rt: HostRuntime) {
    for (numbers, text) in &PATHS {
        is(&rt, path_text(rt.alloc(), &path(&rt, numbers)), text);
    }
}

/// Replies, and what is printed of each where nothing is shown.
static ANSWERS: [(Option<&[u8]>, &[u8]); 3] = [
    (None, b"-\n"),
    (Some(&[0x60, 0x80, 0, 0xab]), b"608000ab\n"),
    (Some(&[]), b"\n"),
];

/// Tries: answer_text
#[test]
fn answers(rt: HostRuntime) {
    for (reply, line) in &ANSWERS {
        let text = answer_text(rt.alloc(), *reply, None).expect(&rt, "memory");
        assert!(rt; text.as_slice() == *line, "another line than {line:?}");
    }
}

/// Tries: answer_text
#[test]
fn the_longest_answer(rt: HostRuntime) {
    let objects = long_list(&rt, rt.alloc());
    let shown = registration("a", &objects);
    let text = answer_text(rt.alloc(), Some(&[0; 8192]), Some(&shown)).expect(&rt, "memory");
    assert!(rt; text.get(16_384) == Some(&b'\n'), "the reply");
    assert!(rt; text.ends_with(b"\"sms\":null}\n"), "the registration");
}
