//! What the process keeps in memory for each thing that it stores.

use crate::fault::BenchFault;
use crate::indexes::add_all;
use crate::journal::take_all;
use crate::names::{Order, names};
use crate::nodes::{NodeCall, make_all};
use crate::slots::FIRST;
use lw_held::set_up;
use lw_index::Places;
use lw_node::Node;
use lw_reg::{Addr, Slot};
use std::alloc::Global;
use std::collections::BTreeMap;
use std::rt::Files;
use std::sync::Wait;
use std::{fs, io};

/// By how many bytes each of a kind lets the process grow, with names rising.
#[derive(Clone, Copy)]
pub(crate) struct Sizes {
    /// In a node, with all indexes.
    pub registration: u64,
    /// In the copy of a node.
    pub copied: u64,
    /// In a map as a node's.
    pub removed: u64,
    /// With one place.
    pub index_key: u64,
    /// In the journal of a node and the transcript of a pass.
    pub update: u64,
}

/// The bytes of a page.
const PAGE: u64 = 4096;

/// Stores so many of each kind, one after another. All is kept to the end, so that nothing takes the place of
/// what was freed.
pub(crate) fn measure_sizes<R: Files + Wait>(
    rt: &R,
    alloc: Global,
    count: u32,
) -> Result<Sizes, BenchFault> {
    let names = names(alloc, Order::Rising, count)?;
    let mut node = Node::new(alloc, 1);
    let mut slots = BTreeMap::new(alloc);
    let mut index = Places::new(alloc);
    fill_all(rt, alloc, &names, &mut node, &mut slots, &mut index)
}

fn fill_all<R: Files + Wait>(
    rt: &R,
    alloc: Global,
    names: &[String],
    node: &mut Node,
    slots: &mut BTreeMap<String, Slot>,
    index: &mut Places<Addr>,
) -> Result<Sizes, BenchFault> {
    let keys = u32::try_from(names.len()).unwrap_or(u32::MAX);
    let count = u64::from(keys);
    let empty = resident(rt, alloc);
    make_all(alloc, node, NodeCall::Take, names)?;
    let with_node = resident(rt, alloc);
    let _copy = node.copy()?;
    let with_copy = resident(rt, alloc);
    put_removals(alloc, slots, names)?;
    let with_slots = resident(rt, alloc);
    add_all(index, keys)?;
    let with_index = resident(rt, alloc);
    let with_journal = resident_with_journal(rt, alloc, count)?;
    Ok(Sizes {
        registration: growth_each(empty, with_node, count),
        copied: growth_each(with_node, with_copy, count),
        removed: growth_each(with_copy, with_slots, count),
        index_key: growth_each(with_slots, with_index, count),
        update: growth_each(with_index, with_journal, count),
    })
}

/// The bytes in memory while a journal of so many Updates is kept.
fn resident_with_journal<R: Files + Wait>(
    rt: &R,
    alloc: Global,
    count: u64,
) -> Result<u64, BenchFault> {
    let (shelves, mut passes) = set_up(alloc, 1, 1)?;
    take_all(rt, alloc, &shelves, &mut passes, count)?;
    Ok(resident(rt, alloc))
}

/// The difference for each of so many, rounded down; 0 where the process shrank.
fn growth_each(before: u64, after: u64, count: u64) -> u64 {
    let growth = after.saturating_sub(before);
    growth.checked_div(count).unwrap_or(0)
}

/// The bytes of the process that are in memory (proc(5), `/proc/self/statm`); 0 where the system does not tell.
fn resident<R: Files>(rt: &R, alloc: Global) -> u64 {
    match statm(rt, alloc) {
        Ok(text) => second_number(text.as_str()).saturating_mul(PAGE),
        Err(_) => 0,
    }
}

fn statm<R: Files>(rt: &R, alloc: Global) -> io::Result<String> {
    io::read_to_string(alloc, fs::File::open(rt, "/proc/self/statm")?)
}

fn second_number(text: &str) -> u64 {
    match text.split(' ').nth(1) {
        Some(word) => word.parse::<u64>().unwrap_or(0),
        None => 0,
    }
}

/// Slots of removed registrations by name.
fn put_removals(
    alloc: Global,
    slots: &mut BTreeMap<String, Slot>,
    names: &[String],
) -> Result<(), BenchFault> {
    for name in names {
        let slot = Slot::from_parts(alloc, FIRST, None)?;
        slots.insert(name.clone()?, slot)?;
    }
    Ok(())
}
