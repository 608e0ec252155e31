//! Rows, found by their endpoints.

ghost use Rattle.std.specs.Prelude.{◌≡◌, ◌<◌, ℕ, List, None, IfSome, IfErr, OnOk, OnErr, string_bytes, length, vec_len};
ghost use Rattle.std.specs.Option.{option_map};
ghost use Rattle.lw_table.specs.inner.Moves.{FilesPlace, PutsRow, SameRows};
ghost use Rattle.lw_table.specs.Rows.{IsRows, appended, end_of, place_of};
ghost use Rattle.lw_table.specs.inner.Rows.{row_at};

use crate::row::Row;
use lw_stamp::NoMemory;
use std::alloc::Global;
use std::collections::BTreeMap;

/// Rows by their endpoints. Each has a place, which it keeps: none is taken out. It is found by the last bytes of its
/// endpoint, as a number that stands in the tree itself: names of one kind begin alike, and to compare whole texts is
/// to read as many places of memory. Where the endpoint of another row came first with the same last bytes, it is
/// found by the whole text.
#[derive(Drop)]
pub(crate) struct Rows {
    /// In the order in which they came.
    pub(crate) rows: Vec<NamedRow>,
    /// Of each end the place of the first row that came.
    pub(crate) firsts: BTreeMap<u64, u32>,
    /// The places of the rows that came later.
    pub(crate) others: BTreeMap<String, u32>,
}

/// A row, and the endpoint that it is found by.
#[derive(Drop)]
pub(crate) struct NamedRow {
    pub(crate) endpoint: String,
    pub(crate) row: Row,
}

/// So many bytes at the end of an endpoint are the number by which it is found.
const END_LENGTH: usize = 8;

/// The last bytes of an endpoint as a number.
pub(crate) fn end_of(endpoint: &str) -> u64
    ensures { result ≡ end_of endpoint.now }
{
    let bytes = endpoint.as_bytes();
    number_of(&bytes[bytes.len().saturating_sub(END_LENGTH)..])
}

/// Bytes as a number, in which the first weighs most. Of more than eight the last count.
fn number_of(bytes: &[u8]) -> u64
    ensures { result ≡ appended 0 bytes.now }
{
    let mut number = 0;
    for byte in bytes {
        number = (number << 8) | u64::from(*byte);
    }
    number
}

impl Rows {
    pub(crate) fn new(alloc: Global) -> Rows
        ensures none { (e : List ℕ) → row_at result e ≡ None }
        ensures rows { IsRows result }
    {
        Rows {
            rows: Vec::new(alloc),
            firsts: BTreeMap::new(alloc),
            others: BTreeMap::new(alloc),
        }
    }

    /// The place of the endpoint's row.
    pub(crate) fn place(&self, endpoint: &str) -> Option<u32>
        requires { IsRows self.now }
        ensures place { result ≡ place_of self.now endpoint.now }
        ensures within { IfSome result (λ p. p < vec_len self.now.rows) }
    {
        if let Some(place) = self.firsts.get(&end_of(endpoint)) {
            if self.rows[*place as usize].endpoint.as_str() == endpoint {
                return Some(*place);
            }
        }
        self.others.get(endpoint).copied()
    }

    /// The row of the endpoint, with the endpoint's text as it is kept.
    pub(crate) fn get(&self, endpoint: &str) -> Option<(&str, &Row)>
        requires { IsRows self.now }
        ensures named { IfSome result (λ x. x.0.now ≡ endpoint.now) }
        ensures row { option_map (λ x. x.1.now) result ≡ row_at self.now endpoint.now }
    {
        let place = self.place(endpoint)?;
        let named = &self.rows[place as usize];
        Some((named.endpoint.as_str(), &named.row))
    }

    /// Puts the first row of an endpoint behind the others. Refused, the endpoint comes back.
    pub(crate) fn insert(
        &mut self,
        alloc: Global,
        endpoint: String,
        place: u32,
        row: Row,
    ) -> Result<(), String>
        requires rows { IsRows self.old }
        requires absent { row_at self.old (string_bytes endpoint) ≡ None }
        requires place { place ≡ length self.old.rows.items }
        ensures put { OnOk result (PutsRow (string_bytes endpoint) row self.old self.new) }
        ensures returned { IfErr result (λ back. string_bytes back ≡ string_bytes endpoint) }
        ensures unchanged { OnErr result (SameRows self.old self.new) }
    {
        if self.rows.reserve(1).is_err() {
            return Err(endpoint);
        }
        if self.file(alloc, endpoint.as_str(), place).is_err() {
            return Err(endpoint);
        }
        self.rows.push_reserved(NamedRow { endpoint, row });
        Ok(())
    }

    // Files the place behind all rows under the endpoint.
    fn file(&mut self, alloc: Global, endpoint: &str, place: u32) -> Result<(), NoMemory>
        requires rows { IsRows self.old }
        requires absent { place_of self.old endpoint.now ≡ None }
        ensures filed { OnOk result (FilesPlace endpoint.now place self.old self.new) }
        ensures unchanged { OnErr result (SameRows self.old self.new) }
        ensures room { self.new.rows ≡ self.old.rows }
    {
        let end = end_of(endpoint);
        if self.firsts.contains_key(&end) {
            self.others
                .insert(String::from_str(alloc, endpoint)?, place)?;
        } else {
            self.firsts.insert(end, place)?;
        }
        Ok(())
    }
}
