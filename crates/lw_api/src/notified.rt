//! What is told of what devices told.

ghost use Rattle.std.specs.Prelude.{◌≡◌, ◌<◌, ◌≤◌, ◌+◌, ◌^◌, length, IfOk, string_bytes};
ghost use Rattle.serde_json.specs.Written.{compact_text};
ghost use Rattle.lw_json.specs.Notifications.{notifications_json};
ghost use Rattle.lw_api.specs.Answers.{IsJson};
ghost use Rattle.lw_api.specs.Notifications.{IsNotificationsAnswer, gone_text, numbered, page_text};
ghost use Rattle.lw_route.specs.declared.api.Status.TheVariants as statuses;

use crate::answering::{error_response, ok};
use crate::{About, BufferedNotification, NotificationBuffer};
use lw_json::{Notification, NotificationPage, notifications_text};
use lw_route::{ApiResponse, Status};
use lw_stamp::NoMemory;
use std::alloc::Global;

/// What devices told from the number on, so many at most, to who follows this start, or begins.
pub fn notifications(
    alloc: Global,
    buffer: &NotificationBuffer,
    about: About,
    from: u64,
    start: Option<u64>,
    limit: usize,
) -> Result<ApiResponse, NoMemory>
    ensures { IfOk result (IsNotificationsAnswer buffer.now about from start limit) }
{
    match start {
        None if from > 0 => error_response(alloc, Status::BadRequest, r#"{"error":"start"}"#),
        Some(tag) if tag != about.tag => error_response(alloc, Status::Gone, r#"{"error":"gone"}"#),
        _ => told(alloc, buffer, about, from, limit),
    }
}

fn told(
    alloc: Global,
    buffer: &NotificationBuffer,
    about: About,
    from: u64,
    limit: usize,
) -> Result<ApiResponse, NoMemory>
    ensures gone { IfOk result (λ answer. from < buffer.now.first
        → IsJson statuses.Gone (gone_text buffer.now.first) answer) }
    ensures told { IfOk result (λ answer. buffer.now.first ≤ from
        → IsJson statuses.Ok (page_text buffer.now about from limit) answer) }
{
    if from < buffer.first() {
        return gone(alloc, buffer.first());
    }
    Ok(ok(text(alloc, about, from, buffer.page(from, limit))?))
}

/// That those below the number have gone.
fn gone(alloc: Global, first: u64) -> Result<ApiResponse, NoMemory>
    ensures { IfOk result (IsJson statuses.Gone (gone_text first)) }
{
    let text = format!(in alloc; "{{\"error\":\"gone\",\"first\":{first}}}")?;
    error_response(alloc, Status::Gone, &text)
}

/// The text of some, of which the first has the number.
fn text(
    alloc: Global,
    about: About,
    from: u64,
    list: &[BufferedNotification],
) -> Result<String, NoMemory>
    requires { from + length list.now < 2 ^ 64 }
    ensures { IfOk result (λ text. string_bytes text
        ≡ compact_text (notifications_json (numbered from list.now) (from + length list.now) about.tag)) }
{
    let page = NotificationPage {
        notifications: with_numbers(alloc, from, list)?,
        next: from + list.len() as u64,
        start: about.tag,
    };
    notifications_text(alloc, &page)
}

/// Each under its number, where the first has this one.
fn with_numbers<'a>(
    alloc: Global,
    from: u64,
    list: &'a [BufferedNotification],
) -> Result<Vec<Notification<'a>>, NoMemory>
    requires { from + length list.now < 2 ^ 64 }
    ensures { IfOk result (λ notifications. notifications.items ≡ numbered from list.now) }
{
    let mut notifications = Vec::with_capacity(alloc, list.len())?;
    let mut number = from;
    for notification in list {
        notifications.push(Notification {
            number,
            notice: &notification.notice,
            is_complete: notification.is_complete,
        })?;
        number += 1;
    }
    Ok(notifications)
}
