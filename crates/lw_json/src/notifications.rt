//! What devices told.

ghost use Rattle.std.specs.Prelude.{◌≡◌, ◌∷◌, IfOk, codes, string_bytes};
ghost use Rattle.json.specs.Token.{key};
ghost use Rattle.serde_json.specs.Written.{compact_text};
ghost use Rattle.lw_json.specs.Json.{notice_json};
ghost use Rattle.lw_json.specs.Notifications.{notification_json, notifications_json};
ghost use Rattle.lw_json.specs.inner.Tokens.{Adds, data_tokens};

use crate::members::{put_number, put_tag, put_truth};
use crate::notice::put_notice;
use crate::values::{Print, json_text, put_all};
use json::Writer;
use lw_node::Notice;
use lw_stamp::NoMemory;
use std::alloc::Global;
use std::marker::Model;

/// What a device told of an observation, under its number.
#[derive(Drop)]
pub struct Notification<'a> {
    pub number: u64,
    pub notice: &'a Notice,
    /// Whether its payload is whole.
    pub is_complete: bool,
}

impl<'a> Model for Notification<'a> {
    ghost use Rattle.lw_json.specs.Notifications.{NotificationContent};

    ghost Value = { NotificationContent };

    ghost view = { λ n. record { number = n.number; notice = n.notice.now; is_complete = n.is_complete } };
}

/// Notifications, and how to go on from them.
#[derive(Drop)]
pub struct NotificationPage<'a> {
    pub notifications: Vec<Notification<'a>>,
    /// The number that the page behind goes on from.
    pub next: u64,
    /// The tag of the start that the numbers are of.
    pub start: u64,
}

/// The JSON object of a page of notifications.
pub fn notifications_text(alloc: Global, page: &NotificationPage<'_>) -> Result<String, NoMemory>
    ensures { IfOk result (λ text. string_bytes text ≡ compact_text
        (notifications_json page.now.notifications.items page.now.next page.now.start)) }
{
    json_text(alloc, page)
}

impl Print for NotificationPage<'_> {
    ghost use Rattle.lw_json.specs.Notifications.{notifications_json};

    ghost json = { λ page. notifications_json page.notifications.items page.next page.start };

    fn put(&self, out: &mut Writer, alloc: Global) -> Result<(), NoMemory> {
        put_page(out, alloc, self)
    }
}

fn put_page(out: &mut Writer, alloc: Global, page: &NotificationPage<'_>) -> Result<(), NoMemory>
    ensures { Adds result out.old out.new
        (data_tokens (notifications_json page.now.notifications.items page.now.next page.now.start)) }
{
    out.begin_object()?;
    put_number(out, "next", page.next)?;
    put_all(out, alloc, "notifications", &page.notifications)?;
    put_tag(out, alloc, "start", page.start)?;
    Ok(out.end_object()?)
}

impl Print for Notification<'_> {
    ghost use Rattle.lw_json.specs.Notifications.{notification_json};

    ghost json = { notification_json };

    fn put(&self, out: &mut Writer, alloc: Global) -> Result<(), NoMemory> {
        put_notification(out, alloc, self)
    }
}

fn put_notification(
    out: &mut Writer,
    alloc: Global,
    notification: &Notification<'_>,
) -> Result<(), NoMemory>
    ensures { Adds result out.old out.new (data_tokens (notification_json notification.now)) }
{
    out.begin_object()?;
    put_truth(out, "complete", notification.is_complete)?;
    put_told(out, alloc, notification.notice)?;
    put_number(out, "number", notification.number)?;
    Ok(out.end_object()?)
}

/// Adds the member with what the device told.
fn put_told(out: &mut Writer, alloc: Global, notice: &Notice) -> Result<(), NoMemory>
    ensures { Adds result out.old out.new (key (codes "notice") ∷ data_tokens (notice_json notice.now)) }
{
    out.key("notice")?;
    put_notice(out, alloc, notice)
}
