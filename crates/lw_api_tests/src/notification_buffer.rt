//! What is told of what devices told, which is kept by numbers.

use lw_api::{About, BufferedNotification, NotificationBuffer, notifications};
use lw_node::{Notice, Path};
use lw_route::{ApiResponse, Media, Status};
use lw_stamp::{NoMemory, Stamp, Text};
use std::alloc::Global;
use std::process::Abort;

const ABOUT: About = About {
    number: Some(1),
    tag: 18,
};

/// The tag of another start.
const OTHER: u64 = 19;

/// From which number it is asked, with which tag, how many at most, and what is told.
type Row = (u64, Option<u64>, usize, &'static str);

/// What is told where three are kept, of which the second is not whole.
static THREE: [Row; 7] = [
    (
        0,
        None,
        256,
        r#"{"next":3,"notifications":[{"complete":true,"notice":{"code":69,"content_format":null,"ended":false,"endpoint":"a","id":"0000000000010001","observe":0,"path":"/3/0","payload":"3230","token":"0000000000030001"},"number":0},{"complete":false,"notice":{"code":69,"content_format":null,"ended":false,"endpoint":"a","id":"0000000000010001","observe":1,"path":"/3/0","payload":"3230","token":"0000000000030001"},"number":1},{"complete":true,"notice":{"code":69,"content_format":null,"ended":false,"endpoint":"a","id":"0000000000010001","observe":2,"path":"/3/0","payload":"3230","token":"0000000000030001"},"number":2}],"start":"0000000000000012"}"#,
    ),
    (
        0,
        Some(18),
        1,
        r#"{"next":1,"notifications":[{"complete":true,"notice":{"code":69,"content_format":null,"ended":false,"endpoint":"a","id":"0000000000010001","observe":0,"path":"/3/0","payload":"3230","token":"0000000000030001"},"number":0}],"start":"0000000000000012"}"#,
    ),
    (
        1,
        Some(18),
        1,
        r#"{"next":2,"notifications":[{"complete":false,"notice":{"code":69,"content_format":null,"ended":false,"endpoint":"a","id":"0000000000010001","observe":1,"path":"/3/0","payload":"3230","token":"0000000000030001"},"number":1}],"start":"0000000000000012"}"#,
    ),
    (
        2,
        Some(18),
        256,
        r#"{"next":3,"notifications":[{"complete":true,"notice":{"code":69,"content_format":null,"ended":false,"endpoint":"a","id":"0000000000010001","observe":2,"path":"/3/0","payload":"3230","token":"0000000000030001"},"number":2}],"start":"0000000000000012"}"#,
    ),
    (
        3,
        Some(18),
        256,
        r#"{"next":3,"notifications":[],"start":"0000000000000012"}"#,
    ),
    (
        4,
        Some(18),
        1,
        r#"{"next":4,"notifications":[],"start":"0000000000000012"}"#,
    ),
    (
        u64::MAX,
        Some(18),
        1,
        r#"{"next":18446744073709551615,"notifications":[],"start":"0000000000000012"}"#,
    ),
];

/// What is told where none are kept yet.
static NONE: [Row; 2] = [
    (
        0,
        None,
        64,
        r#"{"next":0,"notifications":[],"start":"0000000000000012"}"#,
    ),
    (
        0,
        Some(18),
        1,
        r#"{"next":0,"notifications":[],"start":"0000000000000012"}"#,
    ),
];

static FOLLOWS_NO_START: [Row; 2] = [
    (1, None, 64, r#"{"error":"start"}"#),
    (u64::MAX, None, 1, r#"{"error":"start"}"#),
];

static FOLLOWS_ANOTHER: [Row; 3] = [
    (0, Some(OTHER), 64, r#"{"error":"gone"}"#),
    (1, Some(OTHER), 64, r#"{"error":"gone"}"#),
    (3, Some(17), 1, r#"{"error":"gone"}"#),
];

/// What has gone where 10,001 were noted: 5,000 went before the last of them.
static GONE: [Row; 4] = [
    (0, None, 64, r#"{"error":"gone","first":5000}"#),
    (0, Some(18), 64, r#"{"error":"gone","first":5000}"#),
    (1, Some(18), 1, r#"{"error":"gone","first":5000}"#),
    (4_999, Some(18), 256, r#"{"error":"gone","first":5000}"#),
];

/// What is told there.
static KEPT: [Row; 3] = [
    (
        5_000,
        Some(18),
        1,
        r#"{"next":5001,"notifications":[{"complete":true,"notice":{"code":69,"content_format":null,"ended":false,"endpoint":"a","id":"0000000000010001","observe":5000,"path":"/3/0","payload":"3230","token":"0000000000030001"},"number":5000}],"start":"0000000000000012"}"#,
    ),
    (
        10_000,
        Some(18),
        256,
        r#"{"next":10001,"notifications":[{"complete":true,"notice":{"code":69,"content_format":null,"ended":false,"endpoint":"a","id":"0000000000010001","observe":10000,"path":"/3/0","payload":"3230","token":"0000000000030001"},"number":10000}],"start":"0000000000000012"}"#,
    ),
    (
        10_001,
        Some(18),
        256,
        r#"{"next":10001,"notifications":[],"start":"0000000000000012"}"#,
    ),
];

/// What has gone where one was noted behind 15,000: twice 5,000.
static GONE_TWICE: [Row; 2] = [
    (0, None, 64, r#"{"error":"gone","first":10000}"#),
    (9_999, Some(18), 64, r#"{"error":"gone","first":10000}"#),
];

/// A notification with the number in its Observe option (RFC 7641, section 2).
fn notification(
    rt: &impl Abort,
    alloc: Global,
    observe: u32,
    is_complete: bool,
) -> BufferedNotification {
    let notice = Notice {
        token: Stamp {
            counter: 3,
            node: 1,
        },
        id: Stamp {
            counter: 1,
            node: 1,
        },
        endpoint: Text::copy_of(alloc, "a").expect(rt, "memory"),
        path: Path::new(&[3, 0]).expect(rt, "a path"),
        code: 69,
        observe: Some(observe),
        format: None,
        ended: false,
        payload: b"20".to_vec(alloc).expect(rt, "memory"),
    };
    BufferedNotification {
        notice,
        is_complete,
    }
}

/// Notes so many more, whose Observe options number on.
fn note_whole(
    rt: &impl Abort,
    alloc: Global,
    buffer: &mut NotificationBuffer,
    from: u32,
    upto: u32,
) {
    for observe in from..upto {
        let notification = notification(rt, alloc, observe, true);
        buffer.reserve(1).expect(rt, "memory");
        buffer.push(notification);
    }
}

/// Makes room for all of them, and then notes them.
fn note_all(
    buffer: &mut NotificationBuffer,
    more: Vec<BufferedNotification>,
) -> Result<(), NoMemory> {
    buffer.reserve(more.len())?;
    for notification in more {
        buffer.push(notification);
    }
    Ok(())
}

/// Three, of which the second is not whole.
fn three(rt: &impl Abort, alloc: Global) -> NotificationBuffer {
    let mut more = Vec::new(alloc);
    for observe in 0..3 {
        let notification = notification(rt, alloc, observe, observe != 1);
        more.push(notification).expect(rt, "memory");
    }
    let mut buffer = NotificationBuffer::new(alloc);
    note_all(&mut buffer, more).expect(rt, "memory");
    buffer
}

/// Fails where to one of these another answer is given.
fn are_told(
    rt: &impl Abort,
    alloc: Global,
    buffer: &NotificationBuffer,
    status: Status,
    rows: &[Row],
) {
    for row in rows {
        let answer = told(rt, alloc, buffer, row);
        assert_eq!(rt; answer.status, status, "{}", row.0);
        assert_eq!(rt; answer.media, Media::Json);
        assert_eq!(rt; answer.body.as_str(), row.3);
    }
}

fn told(rt: &impl Abort, alloc: Global, buffer: &NotificationBuffer, row: &Row) -> ApiResponse {
    let (from, start, limit, _) = row;
    notifications(alloc, buffer, ABOUT, *from, *start, *limit).expect(rt, "memory")
}

/// Fails where others are kept than so many, of which the next has that number.
fn has_count(rt: &impl Abort, buffer: &NotificationBuffer, count: usize, next: u64) {
    assert_eq!(rt; buffer.count(), count);
    assert_eq!(rt; buffer.next(), next);
}

/// Tries: notifications, NotificationBuffer::new, NotificationBuffer::count, NotificationBuffer::next
#[test]
fn nothing_was_told_yet(rt: HostRuntime) {
    let buffer = NotificationBuffer::new(rt.alloc());
    has_count(&rt, &buffer, 0, 0);
    are_told(&rt, rt.alloc(), &buffer, Status::Ok, &NONE);
}

/// Tries: notifications, NotificationBuffer::reserve, NotificationBuffer::push, lw_json::notifications_text
#[test]
fn notifications_that_follow_a_start(rt: HostRuntime) {
    let buffer = three(&rt, rt.alloc());
    has_count(&rt, &buffer, 3, 3);
    are_told(&rt, rt.alloc(), &buffer, Status::Ok, &THREE);
}

/// Tries: notifications, error_response
#[test]
fn notifications_that_follow_no_start(rt: HostRuntime) {
    let buffer = three(&rt, rt.alloc());
    are_told(
        &rt,
        rt.alloc(),
        &buffer,
        Status::BadRequest,
        &FOLLOWS_NO_START,
    );
}

/// Tries: notifications, error_response
#[test]
fn notifications_that_follow_another_start(rt: HostRuntime) {
    let buffer = three(&rt, rt.alloc());
    are_told(&rt, rt.alloc(), &buffer, Status::Gone, &FOLLOWS_ANOTHER);
}

/// Fails where the page from the number on has others than 256, of which the last has the number before `next`.
fn is_page(rt: &impl Abort, alloc: Global, buffer: &NotificationBuffer, from: u64, next: u64) {
    let page = told(rt, alloc, buffer, &(from, Some(18), 256, ""));
    let text = page.body.as_str();
    assert_eq!(rt; text.matches("\"number\":").count(), 256);
    let head = format!(in alloc; "{{\"next\":{next},\"notifications\":[").expect(rt, "memory");
    let last = next.saturating_sub(1);
    let foot = format!(in alloc; "\"number\":{last}}}],\"start\":\"0000000000000012\"}}");
    let foot = foot.expect(rt, "memory");
    assert!(rt; text.starts_with(head.as_str()), "{next}");
    assert!(rt; text.ends_with(foot.as_str()), "{next}");
}

/// Tries: notifications, NotificationBuffer::push
#[test]
fn ten_thousand_are_kept_and_of_one_more_the_newer_half(rt: HostRuntime) {
    let alloc = rt.alloc();
    let mut buffer = NotificationBuffer::new(alloc);
    note_whole(&rt, alloc, &mut buffer, 0, 10_000);
    has_count(&rt, &buffer, 10_000, 10_000);
    is_page(&rt, alloc, &buffer, 0, 256);
    is_page(&rt, alloc, &buffer, 9_744, 10_000);
    note_whole(&rt, alloc, &mut buffer, 10_000, 10_001);
    has_count(&rt, &buffer, 5_001, 10_001);
    are_told(&rt, alloc, &buffer, Status::Gone, &GONE);
    are_told(&rt, alloc, &buffer, Status::Ok, &KEPT);
    is_page(&rt, alloc, &buffer, 5_000, 5_256);
    note_whole(&rt, alloc, &mut buffer, 10_001, 15_001);
    has_count(&rt, &buffer, 5_001, 15_001);
    are_told(&rt, alloc, &buffer, Status::Gone, &GONE_TWICE);
    is_page(&rt, alloc, &buffer, 10_000, 10_256);
}

/// Tries: NotificationBuffer::reserve
#[test]
fn there_is_no_room_where_there_is_no_number(rt: HostRuntime) {
    let mut buffer = three(&rt, rt.alloc());
    assert_eq!(rt; buffer.reserve(usize::MAX - 2), Err(NoMemory));
    buffer.reserve(usize::MAX - 3).expect(&rt, "numbers");
    has_count(&rt, &buffer, 3, 3);
    are_told(&rt, rt.alloc(), &buffer, Status::Ok, &THREE);
}
