//! The watches of a slot.

ghost use Rattle.std.specs.Prelude.{◌≡◌, ℕ, List, Some, true, IfOk, IfErr};
ghost use Rattle.std.specs.List.{slice_get};
ghost use Rattle.std.specs.Option.{option_copied};
ghost use Rattle.lw_stamp.specs.Moment.{ms_of};
ghost use Rattle.lw_join.specs.Entries.{Rises};
ghost use Rattle.lw_join.specs.inner.Place.{IsAt, IsGap};
ghost use Rattle.lw_reg.specs.Orders.{path_cmp};
ghost use Rattle.lw_reg.specs.Reading.{view_in, watch_of, watching_of, first_watch, has_token, is_above, live_watch, tokens_in, watches_of, shown_by, IsSlotOf};
ghost use Rattle.lw_reg.specs.Marks.{Mark, among};
ghost use Rattle.lw_reg.specs.Showing.{WatchWith, WatchAfter};

use crate::{Path, Slot, Watch, Watching};
use lw_join::OrGone;
use lw_stamp::{Moment, Stamp};

impl Slot {
    /// The live watch with the token. Of several, which no node makes, it is the one on the least path.
    ///
    /// A walk over the watches of the slot.
    pub fn watch(&self, now: Moment, token: Stamp) -> Option<Watch>
        ensures value { result ≡ live_watch (has_token token) (ms_of now) self.now }
        // It is what the marks say that can be read from the slot,
        ensures read { (e : List ℕ) → WatchWith (shown_by e self.now) (ms_of now) e token result }
        // and what every set of marks says whose state has this slot for the endpoint.
        ensures marks { (ms : List Mark) (e : List ℕ) → IsSlotOf ms e self.now
            → WatchWith (among ms) (ms_of now) e token result }
    {
        self.live_with(now, token)
    }

    /// The live watch on the least path above the given one, or on the least of all.
    pub fn watch_after(&self, now: Moment, after: Option<&Path>) -> Option<Watch>
        ensures value { result ≡ live_watch (is_above (option_copied after.entry)) (ms_of now) self.now }
        ensures read { (e : List ℕ)
            → WatchAfter (shown_by e self.now) (ms_of now) e (option_copied after.entry) result }
        ensures marks { (ms : List Mark) (e : List ℕ) → IsSlotOf ms e self.now
            → WatchAfter (among ms) (ms_of now) e (option_copied after.entry) result }
    {
        self.live_after(now, after)
    }

    fn live_with(&self, now: Moment, token: Stamp) -> Option<Watch>
        ensures { result ≡ live_watch (has_token token) (ms_of now) self.now }
    {
        if self.view("", now).is_none() {
            return None;
        }
        first_with(self.watches(), token)
    }

    fn live_after(&self, now: Moment, after: Option<&Path>) -> Option<Watch>
        ensures { result ≡ live_watch (is_above (option_copied after.entry)) (ms_of now) self.now }
    {
        if self.view("", now).is_none() {
            return None;
        }
        first_above(self.watches(), after)
    }

    /// The last watch of the path, also one that was cancelled.
    pub fn watching(&self, path: &Path) -> Option<&Watching>
        ensures { option_copied result ≡ watching_of self.now path.now }
    {
        match self.body() {
            None => None,
            Some(body) => body.maps.right.get(path),
        }
    }

    /// The token at this place among those of the watches that were not cancelled, paths rising.
    ///
    /// A walk over the watches of the slot.
    pub fn token_at(&self, place: usize) -> Option<Stamp>
        ensures { result ≡ slice_get (tokens_in (watches_of self.now)) place }
    {
        let mut left = place;
        for entry in self.watches() {
            if let Some(watch) = watch_of(entry) {
                if left == 0 {
                    return Some(watch.token);
                }
                left -= 1;
            }
        }
        None
    }
}

/// The watch, unless it was cancelled.
fn watch_of(entry: &(Path, Watching)) -> Option<Watch>
    ensures { result ≡ watch_of entry.now }
{
    let (path, watching) = entry;
    match &watching.value {
        OrGone::Gone => None,
        OrGone::Here(accept) => Some(Watch {
            token: watching.stamp,
            path: *path,
            accept: accept.value,
        }),
    }
}

fn first_with(entries: &[(Path, Watching)], token: Stamp) -> Option<Watch>
    ensures { result ≡ first_watch (has_token token) entries.now }
{
    for entry in entries {
        if let Some(watch) = watch_of(entry) {
            if watch.token == token {
                return Some(watch);
            }
        }
    }
    None
}

/// The first that was not cancelled.
fn first_of(entries: &[(Path, Watching)]) -> Option<Watch>
    ensures { result ≡ first_watch (λ _. true) entries.now }
{
    for entry in entries {
        if let Some(watch) = watch_of(entry) {
            return Some(watch);
        }
    }
    None
}

fn first_above(entries: &[(Path, Watching)], after: Option<&Path>) -> Option<Watch>
    requires { Rises path_cmp entries.now }
    ensures { result ≡ first_watch (is_above (option_copied after.entry)) entries.now }
{
    match after {
        None => first_of(entries),
        Some(path) => first_of(behind(entries, path)),
    }
}

/// The entries above the path.
fn behind<'a>(entries: &'a [(Path, Watching)], path: &Path) -> &'a [(Path, Watching)]
    requires { Rises path_cmp entries.now }
    ensures { first_watch (λ _. true) result.now ≡ first_watch (is_above (Some path.now)) entries.now }
{
    match find(entries, path) {
        Ok(place) => &entries[place + 1..],
        Err(place) => &entries[place..],
    }
}

/// The place of the path, or where it would go.
fn find(entries: &[(Path, Watching)], path: &Path) -> Result<usize, usize>
    requires { Rises path_cmp entries.now }
    ensures found { IfOk result (IsAt path_cmp entries.now path.now) }
    ensures absent { IfErr result (IsGap path_cmp entries.now path.now) }
{
    entries.binary_search_by(|entry| entry.0.cmp(path))
}
