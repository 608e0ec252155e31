//! What is shown, page by page.

ghost use Rattle.std.specs.Prelude.{◌≡◌, ◌↔◌, ◌⊎◌, ◌≤◌, ◌++◌, ℕ, true, false, List, [], Contains, IfOk, OnOk, length, max, filter};
ghost use Rattle.std.specs.FinMap.{get};
ghost use Rattle.std.specs.List.Sorted.{IsStrictlySortedBy};
ghost use Rattle.std.specs.List.{cons_option};
ghost use Rattle.lw_stamp.specs.Moment.{ms_of};
ghost use Rattle.lw_stamp.specs.TextOrder.{text_cmp};
ghost use Rattle.lw_due.specs.Due.{IsRising, is_after, kept_in};
ghost use Rattle.lw_reg.specs.Marks.{Mark, NamesAll, among};
ghost use Rattle.lw_reg.specs.Reading.{shown_in};
ghost use Rattle.lw_reg.specs.State.{IsStateOf};
ghost use Rattle.lw_table.specs.Answers.{after_text};
ghost use Rattle.lw_table.specs.Pages.{IsPage, MovesOn};
ghost use Rattle.lw_table.specs.Table.{IsKept};
ghost use Rattle.lw_table.specs.inner.Found.{view_at};
ghost use Rattle.lw_table.specs.inner.Pages.{IsFoundUpTo};

use crate::table::Table;
use lw_due::DueMoments;
use lw_reg::View;
use lw_stamp::{Moment, NoMemory};

/// Some of the registrations that are shown, endpoints rising, and the endpoint that the page behind goes on from,
/// where there is one.
#[derive(Drop)]
pub struct Page<'a> {
    pub registrations: Vec<View<'a>>,
    pub next: Option<&'a str>,
}

impl Table {
    /// A page of what is shown above the endpoint: so many registrations at most, or one. It ends also where it has
    /// looked at so many names; what a call costs is in no contract. A page may be empty and have a next.
    pub fn shown_after(
        &self,
        now: Moment,
        after: Option<&str>,
        limit: usize,
        names: usize,
    ) -> Result<Page<'_>, NoMemory>
        ensures read { IfOk result (λ page. IsPage (shown_in self.now.state) (ms_of now) (after_text after.entry)
            (after_text page.next) page.registrations.items) }
        ensures marks { (ms : List Mark) → NamesAll (among ms) → IsStateOf ms self.now.state
            → IfOk result (λ page. IsPage (among ms) (ms_of now) (after_text after.entry)
            (after_text page.next) page.registrations.items) }
        ensures within { IfOk result (λ page. length page.registrations.items ≤ max 1 limit) }
        ensures further { IfOk result (λ page. MovesOn (after_text after.entry) (after_text page.next)) }
    {
        self.page_of(now, after, &self.filed.due, limit, names)
    }

    /// How many registrations were not removed. Those that have expired count until they are swept.
    pub fn registrations(&self) -> usize
        ensures { (all : List (List ℕ)) × IsStrictlySortedBy text_cmp all
            × ((e : List ℕ) → Contains all e ↔ IsKept (get self.now.state e)) × (result ≡ length all) }
    {
        self.filed.due.kept_count()
    }

    fn page_of<'a>(
        &'a self,
        now: Moment,
        after: Option<&str>,
        due: &'a DueMoments,
        limit: usize,
        most: usize,
    ) -> Result<Page<'a>, NoMemory>
        ensures found { IfOk result (λ page. IsFoundUpTo (view_at (ms_of now) self.now.state)
            (filter (is_after (after_text after.entry)) (kept_in due.now))
            (after_text page.next) page.registrations.items) }
        ensures rising { IsRising due.now }
        ensures within { IfOk result (λ page. length page.registrations.items ≤ max 1 limit) }
    {
        let mut registrations = Vec::new(self.alloc);
        let mut seen = 0;
        let mut last = None;
        let mut upto = after;
        while let Some(endpoint) = due.first_kept(upto) {
            if ends(last.is_some(), registrations.len() >= limit, seen >= most) {
                return Ok(Page {
                    registrations,
                    next: last,
                });
            }
            self.push_shown(now, endpoint, &mut registrations)?;
            seen = seen.saturating_add(1);
            last = Some(endpoint);
            upto = last;
        }
        Ok(Page {
            registrations,
            next: None,
        })
    }

    fn push_shown<'a>(
        &'a self,
        now: Moment,
        endpoint: &str,
        registrations: &mut Vec<View<'a>>,
    ) -> Result<(), NoMemory>
        ensures { OnOk result (registrations.new.items
            ≡ registrations.old.items ++ cons_option (view_at (ms_of now) self.now.state endpoint.now) []) }
    {
        if let Some(view) = self.view(now, endpoint) {
            registrations.push(view)?;
        }
        Ok(())
    }
}

/// Whether a page ends before the next name: it has begun, and is full or has seen as many names as it may.
fn ends(is_begun: bool, is_full: bool, has_seen_all: bool) -> bool
    ensures begun { result ≡ true → is_begun ≡ true }
    ensures room { result ≡ false → (is_begun ≡ false) ⊎ (is_full ≡ false) }
{
    is_begun && (is_full || has_seen_all)
}
