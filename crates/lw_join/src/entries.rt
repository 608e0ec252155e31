//! Entries of a map in a slice, their keys rising.
ghost use Rattle.std.specs.Prelude.{◌≡◌, ◌↔◌, Some, IsTrue, IfOk, IfErr, is_err, is_none};
ghost use Rattle.std.specs.Option.{option_copied};
ghost use Rattle.lw_join.specs.Options.{option_below};
ghost use Rattle.lw_join.specs.Entries.{Rises, get, entries_below, missing};
ghost use Rattle.lw_join.specs.inner.Place.{IsAt, IsGap};

use crate::exact::Exact;
use crate::join::Join;

pub(crate) fn rises<K: Exact, J>(entries: &[(K, J)]) -> bool
    ensures { IsTrue result ↔ Rises K.cmp entries.now }
{
    entries.is_sorted_by(|x, y| x.0.cmp(&y.0).is_lt())
}

// The place of the key, or where it would go.
pub(crate) fn find<K: Exact, J>(entries: &[(K, J)], key: &K) -> Result<usize, usize>
    requires { Rises K.cmp entries.now }
    ensures found { IfOk result (IsAt K.cmp entries.now key.now) }
    ensures absent { IfErr result (IsGap K.cmp entries.now key.now) }
    ensures missing { is_err result ≡ is_none (get K.cmp entries.now key.now) }
{
    entries.binary_search_by(|e| e.0.cmp(key))
}

// The number of the entries whose key is missing.
pub(crate) fn count_missing<K: Exact, J>(into: &[(K, J)], from: &[(K, J)]) -> usize
    requires { Rises K.cmp into.now }
    ensures { result ≡ missing K.cmp into.now from.now }
{
    from.iter().filter(|e| find(into, &e.0).is_err()).count()
}

pub(crate) fn value_of<'a, K: Exact, J>(entries: &'a [(K, J)], key: &K) -> Option<&'a J>
    requires { Rises K.cmp entries.now }
    ensures { option_copied result ≡ get K.cmp entries.now key.now }
{
    match find(entries, key) {
        Ok(i) => Some(&entries[i].1),
        Err(_) => None,
    }
}

// Whether the value is below that of the key.
fn covers<K: Exact, J: Join>(entries: &[(K, J)], key: &K, value: &J) -> bool
    requires { Rises K.cmp entries.now }
    ensures { IsTrue result ↔ option_below J.below (Some value.now) (get K.cmp entries.now key.now) }
{
    match find(entries, key) {
        Ok(i) => value.le(&entries[i].1),
        Err(_) => false,
    }
}

pub(crate) fn entries_le<K: Exact, J: Join>(left: &[(K, J)], right: &[(K, J)]) -> bool
    requires left { Rises K.cmp left.now }
    requires right { Rises K.cmp right.now }
    ensures { IsTrue result ↔ entries_below K.cmp J.below left.now right.now }
{
    for e in left {
        if !covers(right, &e.0, &e.1) {
            return false;
        }
    }
    true
}
