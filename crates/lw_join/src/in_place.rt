//! The join of entries into a map that has room for the keys that are missing.
ghost use Rattle.std.specs.Prelude.{◌≡◌, ◌+◌, ◌<◌, ◌≤◌, None, vec_len, vec_capacity};
ghost use Rattle.lw_join.specs.Entries.{Rises, get, put, entries_join, missing};

use crate::entries::find;
use crate::exact::Exact;
use crate::join::Calm;

// Joins the value to that of the key, where it lies, or inserts it.
fn put_entry<K: Exact, J: Calm>(into: &mut Vec<(K, J)>, key: K, value: J)
    requires rises { Rises K.cmp into.old.items }
    requires room { get K.cmp into.old.items key ≡ None → vec_len into.old < vec_capacity into.old }
    ensures items { into.new.items ≡ put K.cmp J.join key value into.old.items }
    ensures capacity { vec_capacity into.old ≤ vec_capacity into.new }
{
    match find(into, &key) {
        Ok(i) => into[i].1.join_calm(value),
        Err(i) => {
            let _ = into.insert(i, (key, value));
        }
    }
}

pub(crate) fn fill<K: Exact, J: Calm>(into: &mut Vec<(K, J)>, mut from: Vec<(K, J)>)
    requires rises { Rises K.cmp into.old.items }
    requires room { vec_len into.old + missing K.cmp into.old.items from.items ≤ vec_capacity into.old }
    ensures { into.new.items ≡ entries_join K.cmp J.join into.old.items from.items }
{
    while let Some((key, value)) = from.pop() {
        put_entry(into, key, value);
    }
}
