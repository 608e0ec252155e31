//! The join of two maps: entry by entry where few keys are missing, and otherwise by a merge from the
//! greatest key down, in time linear in their entries, behind one search for each entry that comes.
ghost use Rattle.std.specs.Prelude.{◌≡◌, ◌+◌, ◌<◌, ◌≤◌, [], ◌∷◌, ◌++◌, length, vec_len, vec_capacity, IsOk, OnSome, IfOk, IfSome, IfNone, reverse};
ghost use Rattle.lw_join.specs.Entries.{Rises, entries_join, missing};
ghost use Rattle.lw_join.specs.inner.Ends.{ends_cmp};
ghost use Rattle.lw_join.specs.inner.Room.{HasRoom};

use crate::entries::count_missing;
use crate::exact::Exact;
use crate::in_place::fill;
use crate::join::Calm;
use lw_stamp::NoMemory;
use std::cmp::Ordering;

// The order of the last keys. No key is below every key.
fn cmp_ends<K: Exact, J>(left: &[(K, J)], right: &[(K, J)]) -> Ordering
    ensures { result ≡ ends_cmp K.cmp left.now right.now }
{
    match (left.last(), right.last()) {
        (None, None) => Ordering::Equal,
        (None, Some(_)) => Ordering::Less,
        (Some(_), None) => Ordering::Greater,
        (Some(x), Some(y)) => x.0.cmp(&y.0),
    }
}

// Takes the entry of the greatest key, joined where both have it.
fn pop_greatest<K: Exact, J: Calm>(
    left: &mut Vec<(K, J)>,
    right: &mut Vec<(K, J)>,
) -> Option<(K, J)>
    requires left { Rises K.cmp left.old.items }
    requires right { Rises K.cmp right.old.items }
    ensures last { IfSome result (λ e. entries_join K.cmp J.join left.old.items right.old.items ≡ entries_join K.cmp J.join left.new.items right.new.items ++ e ∷ []) }
    ensures none { IfNone result (entries_join K.cmp J.join left.old.items right.old.items ≡ []) }
    ensures left_rises { Rises K.cmp left.new.items }
    ensures right_rises { Rises K.cmp right.new.items }
    ensures fewer { OnSome result (vec_len left.new + vec_len right.new < vec_len left.old + vec_len right.old) }
{
    match cmp_ends(left, right) {
        Ordering::Less => right.pop(),
        Ordering::Greater => left.pop(),
        Ordering::Equal => {
            let (key, mut value) = left.pop()?;
            let (_, other) = right.pop()?;
            value.join_calm(other);
            Some((key, value))
        }
    }
}

// Moves the join of the two into `joined`, the greatest key first.
fn merge<K: Exact, J: Calm>(
    left: &mut Vec<(K, J)>,
    mut right: Vec<(K, J)>,
    joined: &mut Vec<(K, J)>,
)
    requires left { Rises K.cmp left.old.items }
    requires right { Rises K.cmp right.items }
    requires empty { joined.old.items ≡ [] }
    requires room { length (entries_join K.cmp J.join left.old.items right.items) ≤ vec_capacity joined.old }
    ensures { joined.new.items ≡ reverse (entries_join K.cmp J.join left.old.items right.items) }
{
    while let Some(entry) = pop_greatest(left, &mut right) {
        let _ = joined.push(entry);
    }
}

// The most missing keys that are inserted one by one. An insert moves at most the entries above it, and
// at once; the merge takes each entry out, puts it in and turns the whole round, one by one.
const MOST_INSERTS: usize = 8;

// Makes the room for the keys that are missing, and none where none is: where they are many, in a new vector
// with room for the entries of both.
pub(crate) fn make_room<K: Exact, J>(
    into: &mut Vec<(K, J)>,
    from: &[(K, J)],
) -> Result<Option<Vec<(K, J)>>, NoMemory>
    requires { Rises K.cmp into.old.items }
    ensures same { into.new.items ≡ into.old.items }
    ensures room { IfOk result (HasRoom K.cmp into.new from.now) }
    ensures never_refused { missing K.cmp into.old.items from.now ≡ 0 → IsOk result }
{
    let missing = count_missing(into, from);
    if missing > MOST_INSERTS {
        let len = into.len().checked_add(missing).ok_or(NoMemory)?;
        let room = Vec::with_capacity(*into.allocator(), len)?;
        return Ok(Some(room));
    }
    into.reserve(missing)?;
    Ok(None)
}

// Joins in the room that was made.
pub(crate) fn join_in<K: Exact, J: Calm>(
    into: &mut Vec<(K, J)>,
    from: Vec<(K, J)>,
    room: Option<Vec<(K, J)>>,
)
    requires left { Rises K.cmp into.old.items }
    requires right { Rises K.cmp from.items }
    requires room { HasRoom K.cmp into.old from.items room }
    ensures { into.new.items ≡ entries_join K.cmp J.join into.old.items from.items }
{
    match room {
        None => fill(into, from),
        Some(mut joined) => {
            merge(into, from, &mut joined);
            joined.reverse();
            *into = joined;
        }
    }
}
