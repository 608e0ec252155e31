//! What is answered of the registrations at a moment.

ghost use Rattle.std.specs.Prelude.{◌≡◌, ◌↔◌, ℕ, List, Contains, Some, None, IfOk, IfSome, map, slice_get};
ghost use Rattle.std.specs.Option.{option_copied, option_map};
ghost use Rattle.std.specs.FinMap.{get};
ghost use Rattle.std.specs.Ordering.{is_lt};
ghost use Rattle.std.specs.List.Sorted.{IsStrictlySortedBy};
ghost use Rattle.lw_stamp.specs.TextOrder.{text_cmp};
ghost use Rattle.lw_due.specs.Due.{IsRising, kept_in};
ghost use Rattle.lw_reg.specs.Marks.{Mark, NamesAll, among};
ghost use Rattle.lw_reg.specs.declared.slot.Slot.{Slot as Slots};
ghost use Rattle.lw_reg.specs.Reading.{shown_in, has_token, is_above, live_watch};
ghost use Rattle.lw_reg.specs.Showing.{ShownOf};
ghost use Rattle.lw_reg.specs.State.{IsStateOf};
ghost use Rattle.lw_stamp.specs.Moment.{ms_of};
ghost use Rattle.lw_table.specs.Answers.{FirstAfter, after_text};
ghost use Rattle.lw_table.specs.inner.Due.{due_in};
ghost use Rattle.lw_table.specs.inner.Found.{LeastFound, lesser_of, view_cmp, watch_cmp, holder_cmp};
ghost use Rattle.lw_table.specs.inner.Found.{there_with, view_with, watch_with, holder_with, expired_with};
ghost use Rattle.lw_table.specs.inner.Found.{view_at, watch_at, holder_at, expired_at, if_after, first_of};
ghost use Rattle.lw_table.specs.inner.Found.{holder_of, with_watch};
ghost use Rattle.lw_table.specs.inner.Rows.{IsFiledUnder};
ghost use Rattle.lw_table.specs.Keys.{OptionHasKey};
ghost use Rattle.lw_table.specs.Rows.{IsRows, state_in};
ghost use Rattle.lw_table.specs.LookUps.{ById, ByAddress, ByToken, WatchOfIdAfter, ExpiredAfter};

use crate::key::Key;
use crate::rows::{NamedRow, Rows};
use crate::since::in_order;
use crate::table::Table;
use lw_due::DueMoments;
use lw_index::Places;
use lw_reg::{Addr, Path, Slot, View, Watch};
use lw_stamp::{Moment, NoMemory, Stamp};
use std::alloc::Global;
use std::cmp::Ordering;

impl Table {
    /// What is shown of the endpoint. It is one descent of the tree of the endpoints. Here and below, what a call costs
    /// is in no contract.
    pub fn by_endpoint(&self, now: Moment, endpoint: &str) -> Option<View<'_>>
        ensures read { ShownOf (shown_in self.now.state) (ms_of now) endpoint.now result }
        ensures marks { (ms : List Mark) → NamesAll (among ms) → IsStateOf ms self.now.state
            → ShownOf (among ms) (ms_of now) endpoint.now result }
    {
        self.view(now, endpoint)
    }

    /// The shown registration with the identifier. It, `by_address` and `by_token` cost a descent, and a step for each
    /// registration that has the key and was not removed.
    pub fn by_id(&self, now: Moment, id: Stamp) -> Option<View<'_>>
        ensures read { ById (shown_in self.now.state) (ms_of now) id result }
        ensures marks { (ms : List Mark) → NamesAll (among ms) → IsStateOf ms self.now.state
            → ById (among ms) (ms_of now) id result }
    {
        first_shown(&self.rows, &self.filed.keys, Key::Id(id), now)
    }

    /// Of the shown registrations with the address, the one that wrote it last.
    pub fn by_address(&self, now: Moment, address: Addr) -> Option<View<'_>>
        ensures read { ByAddress (shown_in self.now.state) (ms_of now) address result }
        ensures marks { (ms : List Mark) → NamesAll (among ms) → IsStateOf ms self.now.state
            → ByAddress (among ms) (ms_of now) address result }
    {
        held(last_holder(&self.rows, &self.filed.keys, Key::Address(address), now))
    }

    /// The live watch with the token, and its registration.
    pub fn by_token(&self, now: Moment, token: Stamp) -> Option<(View<'_>, Watch)>
        ensures read { ByToken (shown_in self.now.state) (ms_of now) token result }
        ensures marks { (ms : List Mark) → NamesAll (among ms) → IsStateOf ms self.now.state
            → ByToken (among ms) (ms_of now) token result }
    {
        first_watched(&self.rows, &self.filed.keys, token, now)
    }

    /// Of the registration that `by_id` gives, the live watch on the least path above the given one, or on the
    /// least of all. It costs what `by_id` does, and a descent.
    pub fn watch_after(
        &self,
        now: Moment,
        id: Stamp,
        after: Option<&Path>,
    ) -> Option<(View<'_>, Watch)>
        ensures read { WatchOfIdAfter (shown_in self.now.state) (ms_of now) id (option_copied after.entry) result }
        ensures marks { (ms : List Mark) → NamesAll (among ms) → IsStateOf ms self.now.state
            → WatchOfIdAfter (among ms) (ms_of now) id (option_copied after.entry) result }
    {
        match self.by_id(now, id) {
            None => None,
            Some(view) => self.watch_of(now, view, after),
        }
    }

    /// What is shown of the least endpoint above the given one by bytes, or of the least of all. It and the next call
    /// cost a descent or two, and as much for each endpoint that they pass over.
    pub fn first_after(&self, now: Moment, after: Option<&str>) -> Option<View<'_>>
        ensures read { FirstAfter (shown_in self.now.state) (ms_of now) (after_text after.entry) result }
        ensures marks { (ms : List Mark) → NamesAll (among ms) → IsStateOf ms self.now.state
            → FirstAfter (among ms) (ms_of now) (after_text after.entry) result }
    {
        self.first_shown_after(now, after, &self.filed.due)
    }

    /// The least endpoint above the given one, or of all, whose registration has expired, and its identifier.
    /// It passes over those whose due moment has come before their deadline.
    pub fn expired_after(&self, now: Moment, after: Option<&str>) -> Option<(&str, Stamp)>
        ensures read { ExpiredAfter (shown_in self.now.state) (ms_of now) (after_text after.entry)
            (option_map (λ x. (x.0.now, x.1)) result) }
        ensures marks { (ms : List Mark) → NamesAll (among ms) → IsStateOf ms self.now.state
            → ExpiredAfter (among ms) (ms_of now) (after_text after.entry) (option_map (λ x. (x.0.now, x.1)) result) }
    {
        self.first_expired(now, after, &self.filed.due)
    }

    /// The slot of the endpoint, with the endpoint's text as it is kept.
    pub(crate) fn slot(&self, endpoint: &str) -> Option<(&str, &Slot)>
        ensures named { IfSome result (λ x. x.0.now ≡ endpoint.now) }
        ensures slot { option_map (λ x. x.1.now) result ≡ get self.now.state endpoint.now }
    {
        let (endpoint, row) = self.rows.get(endpoint)?;
        Some((endpoint, &row.slot))
    }

    /// The endpoints whose registration was not removed and has the key, rising. It costs a descent, and what it gives.
    pub fn endpoints_with(&self, key: Key) -> Result<Vec<&str>, NoMemory>
        ensures members { IfOk result (λ endpoints. (e : List ℕ) → Contains (map (λ x. x.now) endpoints.items) e
            ↔ OptionHasKey (get self.now.state e) key) }
        ensures rising { IfOk result (λ endpoints. IsStrictlySortedBy text_cmp (map (λ x. x.now) endpoints.items)) }
    {
        let endpoints = endpoints_under(self.alloc, &self.rows.rows, &self.filed.keys, key)?;
        Ok(in_order(endpoints))
    }

    pub(crate) fn view(&self, now: Moment, endpoint: &str) -> Option<View<'_>>
        ensures { result ≡ view_at (ms_of now) self.now.state endpoint.now }
    {
        let (endpoint, slot) = self.slot(endpoint)?;
        slot.view(endpoint, now)
    }

    fn expired(&self, now: Moment, endpoint: &str) -> Option<Stamp>
        ensures { result ≡ expired_with (ms_of now) (get self.now.state endpoint.now) }
    {
        let (_, slot) = self.slot(endpoint)?;
        if slot.expired(now) {
            Some(slot.stamp())
        } else {
            None
        }
    }

    fn watch_of<'a>(
        &self,
        now: Moment,
        view: View<'a>,
        after: Option<&Path>,
    ) -> Option<(View<'a>, Watch)>
        ensures { (slot : Slots) → get self.now.state view.entry.endpoint ≡ Some slot
            → result ≡ with_watch view.entry (live_watch (is_above (option_copied after.entry)) (ms_of now) slot) }
    {
        let (_, slot) = self.slot(view.endpoint)?;
        let watch = slot.watch_after(now, after)?;
        Some((view, watch))
    }

    fn first_shown_after(
        &self,
        now: Moment,
        after: Option<&str>,
        due: &DueMoments,
    ) -> Option<View<'_>>
        ensures found { result
            ≡ first_of (if_after (after_text after.entry) (view_at (ms_of now) self.now.state)) (kept_in due.now) }
        ensures rising { IsRising due.now }
    {
        let mut upto = after;
        while let Some(endpoint) = due.first_kept(upto) {
            if let Some(view) = self.view(now, endpoint) {
                return Some(view);
            }
            upto = Some(endpoint);
        }
        None
    }

    fn first_expired<'a>(
        &'a self,
        now: Moment,
        after: Option<&str>,
        due: &'a DueMoments,
    ) -> Option<(&'a str, Stamp)>
        ensures found { option_map (λ x. (x.0.now, x.1)) result
            ≡ first_of (if_after (after_text after.entry) (expired_at (ms_of now) self.now.state))
            (due_in (ms_of now) due.now) }
        ensures rising { IsRising due.now }
    {
        let mut upto = after;
        while let Some(endpoint) = due.first_due_after(now.ms(), upto) {
            if let Some(id) = self.expired(now, endpoint) {
                return Some((endpoint, id));
            }
            upto = Some(endpoint);
        }
        None
    }
}

/// The endpoints of the rows whose places are filed under the key, as they come.
fn endpoints_under<'a>(
    alloc: Global,
    rows: &'a [NamedRow],
    keys: &Places<Key>,
    key: Key,
) -> Result<Vec<&'a str>, NoMemory>
    ensures { IfOk result (λ endpoints. (e : List ℕ) → Contains (map (λ x. x.now) endpoints.items) e
        ↔ IsFiledUnder rows.now keys.now key e) }
{
    let mut endpoints = Vec::new(alloc);
    for place in keys.of(key) {
        if let Some(named) = rows.get(place as usize) {
            endpoints.push(named.endpoint.as_str())?;
        }
    }
    Ok(endpoints)
}

/// What is shown of the least endpoint that is filed under the key and shown.
fn first_shown<'a>(rows: &'a Rows, keys: &Places<Key>, key: Key, now: Moment) -> Option<View<'a>>
    requires { IsRows rows.now }
    ensures { LeastFound view_cmp (view_at (ms_of now) (state_in rows.now))
        (IsFiledUnder rows.now.rows.items keys.now key) result }
{
    let mut first = None;
    for place in keys.of(key) {
        first = lesser(first, view_there(rows, place, now));
    }
    first
}

/// Of the least endpoint that is filed under the token and shown, the registration and the live watch with the token.
fn first_watched<'a>(
    rows: &'a Rows,
    keys: &Places<Key>,
    token: Stamp,
    now: Moment,
) -> Option<(View<'a>, Watch)>
    requires { IsRows rows.now }
    ensures { LeastFound watch_cmp (watch_at (has_token token) (ms_of now) (state_in rows.now))
        (IsFiledUnder rows.now.rows.items keys.now (Key.Token token)) result }
{
    let mut first = None;
    for place in keys.of(Key::Token(token)) {
        first = lesser_watched(first, watched_there(rows, place, token, now));
    }
    first
}

/// Of those that are filed under the key and shown, the one that wrote its address last; of several that wrote theirs
/// with one stamp, that of the least endpoint.
fn last_holder<'a>(
    rows: &'a Rows,
    keys: &Places<Key>,
    key: Key,
    now: Moment,
) -> Option<(Stamp, View<'a>)>
    requires { IsRows rows.now }
    ensures { LeastFound holder_cmp (holder_at (ms_of now) (state_in rows.now))
        (IsFiledUnder rows.now.rows.items keys.now key) result }
{
    let mut last = None;
    for place in keys.of(key) {
        last = later(last, holder_there(rows, place, now));
    }
    last
}

/// What is shown of the endpoint of the row at the place.
fn view_there(rows: &Rows, place: u32, now: Moment) -> Option<View<'_>>
    ensures { result ≡ there_with (view_with (ms_of now)) (slice_get rows.now.rows.items place) }
{
    let named = rows.rows.get(place as usize)?;
    named.row.slot.view(named.endpoint.as_str(), now)
}

/// What is shown of the endpoint of the row at the place, and its live watch with the token.
fn watched_there(rows: &Rows, place: u32, token: Stamp, now: Moment) -> Option<(View<'_>, Watch)>
    ensures { result ≡ there_with (watch_with (has_token token) (ms_of now)) (slice_get rows.now.rows.items place) }
{
    let named = rows.rows.get(place as usize)?;
    let view = named.row.slot.view(named.endpoint.as_str(), now)?;
    Some((view, named.row.slot.watch(now, token)?))
}

/// What is shown of the endpoint of the row at the place, and the stamp that wrote its address.
fn holder_there(rows: &Rows, place: u32, now: Moment) -> Option<(Stamp, View<'_>)>
    ensures { result ≡ there_with (holder_with (ms_of now)) (slice_get rows.now.rows.items place) }
{
    let named = rows.rows.get(place as usize)?;
    let (at, _) = named.row.slot.address()?;
    Some((at, named.row.slot.view(named.endpoint.as_str(), now)?))
}

/// The registration alone.
fn held(holder: Option<(Stamp, View<'_>)>) -> Option<View<'_>>
    ensures { result ≡ holder_of holder.entry }
{
    match holder {
        None => None,
        Some((_, view)) => Some(view),
    }
}

/// Of two registrations, that of the lesser endpoint.
fn lesser<'a>(first: Option<View<'a>>, second: Option<View<'a>>) -> Option<View<'a>>
    ensures { result ≡ lesser_of view_cmp first.entry second.entry }
{
    match (first, second) {
        (first, None) => first,
        (None, second) => second,
        (Some(first), Some(second)) => {
            if second.endpoint < first.endpoint {
                Some(second)
            } else {
                Some(first)
            }
        }
    }
}

/// Of two registrations with a watch, that of the lesser endpoint.
fn lesser_watched<'a>(
    first: Option<(View<'a>, Watch)>,
    second: Option<(View<'a>, Watch)>,
) -> Option<(View<'a>, Watch)>
    ensures { result ≡ lesser_of watch_cmp first.entry second.entry }
{
    match (first, second) {
        (first, None) => first,
        (None, second) => second,
        (Some(first), Some(second)) => {
            if second.0.endpoint < first.0.endpoint {
                Some(second)
            } else {
                Some(first)
            }
        }
    }
}

/// The later of two writes, by the stamp; of two at one stamp that of the lesser endpoint.
fn later<'a>(
    first: Option<(Stamp, View<'a>)>,
    second: Option<(Stamp, View<'a>)>,
) -> Option<(Stamp, View<'a>)>
    ensures { result ≡ lesser_of holder_cmp first.entry second.entry }
{
    match (first, second) {
        (first, None) => first,
        (None, second) => second,
        (Some(first), Some(second)) => {
            if is_later(&second, &first) {
                Some(second)
            } else {
                Some(first)
            }
        }
    }
}

/// Whether the first was written later, or both with one stamp and the endpoint of the first is the lesser.
fn is_later(first: &(Stamp, View<'_>), second: &(Stamp, View<'_>)) -> bool
    ensures { result ≡ is_lt (holder_cmp first.now second.now) }
{
    match second.0.cmp(&first.0) {
        Ordering::Less => true,
        Ordering::Equal => first.1.endpoint < second.1.endpoint,
        Ordering::Greater => false,
    }
}
