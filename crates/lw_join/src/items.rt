ghost use Rattle.std.specs.Prelude.{◌≡◌, List, IfOk, IsOk, OnOk, OnErr};
ghost use Rattle.lw_join.specs.Entries.{Rises, entries_join, missing};

use crate::copied::Copied;
use crate::exact::Exact;
use crate::join::Calm;
use crate::merge::{join_in, make_room};
use lw_stamp::NoMemory;
use std::alloc::Global;
use std::marker::Model;

/// A `Vec` that contracts see as the list of its items, without its capacity.
#[derive(Drop)]
pub(crate) struct Items<T> {
    items: Vec<T>,
}

impl<T> Model for Items<T> {
    ghost Value = { List T };

    ghost view = { λ row. row.items.items };
}

impl<T> Items<T> {
    pub(crate) fn new(items: Vec<T>) -> Items<T>
        ensures { result ≡ items.items }
    {
        Items { items }
    }

    pub(crate) fn as_slice(&self) -> &[T]
        ensures { result.now ≡ self.now }
    {
        self.items.as_slice()
    }

    pub(crate) fn into_vec(self) -> Vec<T>
        ensures { result.items ≡ self }
    {
        self.items
    }
}

impl<T: Copied> Items<T> {
    pub(crate) fn copied(&self, alloc: Global) -> Result<Items<T>, NoMemory>
        ensures { IfOk result (λ items. items ≡ self.now) }
    {
        Ok(Items {
            items: copies_of(alloc, &self.items)?,
        })
    }
}

fn copies_of<T: Copied>(alloc: Global, items: &[T]) -> Result<Vec<T>, NoMemory>
    ensures { IfOk result (λ copies. copies.items ≡ items.now) }
{
    let mut copies = Vec::with_capacity(alloc, items.len())?;
    for item in items {
        copies.push(item.copy(alloc)?)?;
    }
    Ok(copies)
}

impl<K: Exact, J: Calm> Items<(K, J)> {
    pub(crate) fn join_with(&mut self, other: Items<(K, J)>) -> Result<(), NoMemory>
        requires left { Rises K.cmp self.old }
        requires right { Rises K.cmp other }
        ensures ok { OnOk result (self.new ≡ entries_join K.cmp J.join self.old other) }
        ensures err { OnErr result (self.new ≡ self.old) }
        ensures never_refused { missing K.cmp self.old other ≡ 0 → IsOk result }
    {
        let room = make_room(&mut self.items, &other.items)?;
        join_in(&mut self.items, other.items, room);
        Ok(())
    }

    // Makes all room before either changes.
    pub(crate) fn join_both<L: Exact, M: Calm>(
        &mut self,
        other: Items<(K, J)>,
        right: &mut Items<(L, M)>,
        other_right: Items<(L, M)>,
    ) -> Result<(), NoMemory>
        requires left { Rises K.cmp self.old }
        requires other { Rises K.cmp other }
        requires right { Rises L.cmp right.old }
        requires other_right { Rises L.cmp other_right }
        ensures left { OnOk result (self.new ≡ entries_join K.cmp J.join self.old other) }
        ensures right { OnOk result (right.new ≡ entries_join L.cmp M.join right.old other_right) }
        ensures left_kept { OnErr result (self.new ≡ self.old) }
        ensures right_kept { OnErr result (right.new ≡ right.old) }
        ensures never_refused { missing K.cmp self.old other ≡ 0 → missing L.cmp right.old other_right ≡ 0 → IsOk result }
    {
        let left_room = make_room(&mut self.items, &other.items)?;
        let right_room = make_room(&mut right.items, &other_right.items)?;
        join_in(&mut self.items, other.items, left_room);
        join_in(&mut right.items, other_right.items, right_room);
        Ok(())
    }
}
