//! Which slots have moved since a change number.

ghost use Rattle.std.specs.Prelude.{◌≡◌, ◌↔◌, ◌<◌, ◌≤◌, ℕ, List, Contains, None, IfOk, IfSome, IsNone, length, map, option_map};
ghost use Rattle.std.specs.List.Sorted.{IsStrictlySortedBy};
ghost use Rattle.lw_stamp.specs.TextOrder.{text_cmp};
ghost use Rattle.lw_table.specs.Changes.{LAST, upto_of, IsSinceIn, IsChangePage};
ghost use Rattle.lw_table.specs.inner.Changes.{AreNext, IsNextChange};
ghost use Rattle.lw_table.specs.inner.Since.{AreNamedSince, slots_at};

use crate::rows::NamedRow;
use crate::table::Table;
use lw_recent::Recent;
use lw_reg::Slot;
use lw_stamp::NoMemory;
use std::alloc::Global;

/// A slot that moved, and the change number that it took last.
#[derive(Clone, Copy)]
pub struct Moved<'a> {
    pub number: u64,
    pub endpoint: &'a str,
    pub slot: &'a Slot,
}

impl Table {
    /// The slots that moved after this change number, endpoints rising; all of them once numbers have come to
    /// their end. It costs what it gives, which is in no contract.
    pub fn changed_since(&self, since: u64) -> Result<Vec<(&str, &Slot)>, NoMemory>
        ensures { IfOk result (λ slots.
            IsSinceIn self.now.state self.now.count since (map (λ x. (x.0.now, x.1.now)) slots.items)) }
    {
        let all = self.change == u64::MAX;
        let since = if all { None } else { Some(since) };
        let endpoints = endpoints_above(self.alloc, &self.rows.rows, &self.filed.numbers, since)?;
        self.slots(in_order(endpoints))
    }

    /// The slots that moved after this change number, in the order of the numbers that they took: so many at most. There
    /// are none to give once numbers have come to their end, where one number stands for many.
    pub fn changes_after(
        &self,
        since: u64,
        limit: usize,
    ) -> Result<Option<Vec<Moved<'_>>>, NoMemory>
        ensures none { IfOk result (λ page. IsNone page ↔ (self.now.count.change ≡ LAST)) }
        ensures some { IfOk result (λ page. IfSome page (λ page. IsChangePage self.now.state self.now.count since limit
            (map (λ x. (x.number, (x.endpoint.now, x.slot.now))) page.items))) }
    {
        if self.change == u64::MAX {
            return Ok(None);
        }
        Ok(Some(self.changes(since, limit)?))
    }

    fn changes(&self, since: u64, limit: usize) -> Result<Vec<Moved<'_>>, NoMemory>
        ensures next { IfOk result (λ page. AreNext self.now.state self.now.count since
            (map (λ x. (x.number, (x.endpoint.now, x.slot.now))) page.items)) }
        ensures within { IfOk result (λ page. length page.items ≤ limit) }
        ensures whole { IfOk result (λ page. length page.items < limit → IsNextChange self.now.state self.now.count
            (upto_of since (map (λ x. (x.number, (x.endpoint.now, x.slot.now))) page.items)) None) }
    {
        let mut page = Vec::new(self.alloc);
        let mut upto = since;
        for _ in 0..limit {
            let Some(moved) = self.next_moved(upto) else {
                return Ok(page);
            };
            upto = moved.number;
            page.push(moved)?;
        }
        Ok(page)
    }

    /// The slot that moved first after the change number.
    fn next_moved(&self, since: u64) -> Option<Moved<'_>>
        ensures { IsNextChange self.now.state self.now.count since
            (option_map (λ x. (x.number, (x.endpoint.now, x.slot.now))) result) }
    {
        let (number, place) = self.filed.numbers.next_above(since)?;
        let named = self.rows.rows.get(place as usize)?;
        Some(Moved {
            number,
            endpoint: named.endpoint.as_str(),
            slot: &named.row.slot,
        })
    }

    /// The slots of these endpoints.
    fn slots(&self, endpoints: Vec<&str>) -> Result<Vec<(&str, &Slot)>, NoMemory>
        ensures { IfOk result (λ slots. map (λ x. (x.0.now, x.1.now)) slots.items
            ≡ slots_at self.now.state (map (λ e. e.now) endpoints.entry.items)) }
    {
        let mut slots = Vec::with_capacity(self.alloc, endpoints.len())?;
        for endpoint in endpoints {
            if let Some(slot) = self.slot(endpoint) {
                slots.push(slot)?;
            }
        }
        Ok(slots)
    }
}

/// The endpoints of the rows whose places are filed under a number above this one, or under any, as they come.
fn endpoints_above<'a>(
    alloc: Global,
    rows: &'a [NamedRow],
    numbers: &Recent,
    since: Option<u64>,
) -> Result<Vec<&'a str>, NoMemory>
    ensures { IfOk result (λ endpoints. AreNamedSince since numbers.now rows.now (map (λ e. e.now) endpoints.items)) }
{
    let mut endpoints = Vec::new(alloc);
    for place in numbers.since(since) {
        if let Some(named) = rows.get(place as usize) {
            endpoints.push(named.endpoint.as_str())?;
        }
    }
    Ok(endpoints)
}

/// These endpoints, each once, and rising.
pub(crate) fn in_order(mut endpoints: Vec<&str>) -> Vec<&str>
    ensures members { (e : List ℕ) → Contains (map (λ e. e.now) result.items) e
        ↔ Contains (map (λ e. e.now) endpoints.entry.items) e }
    ensures rise { IsStrictlySortedBy text_cmp (map (λ e. e.now) result.items) }
{
    endpoints.sort_unstable();
    endpoints.dedup();
    endpoints
}
