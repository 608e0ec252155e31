//! What of an entry stands in columns of its own, for those who read the table.

ghost use Rattle.std.specs.Prelude.{◌≡◌, ◌<◌, ◌≤◌, length};
ghost use Rattle.lw_log.specs.EntryFaults.{number_in, kind_in};

/// Where the number of the start stands in an entry.
const NUMBER_AT: usize = 20;

/// Where the kind stands in an entry.
const KIND_AT: usize = 38;

/// The number of the start that wrote the entry, or 0 where the bytes end before it does.
pub(crate) fn number_of(entry: &[u8]) -> u16
    ensures long { 22 ≤ length entry.now → result ≡ number_in entry.now }
    ensures short { length entry.now < 22 → result ≡ 0 }
{
    if entry.len() < NUMBER_AT {
        return 0;
    }
    let Some((number, _)) = entry[NUMBER_AT..].split_first_chunk::<2>() else {
        return 0;
    };
    u16::from_be_bytes(*number)
}

/// The kind of the entry, or 0 where the bytes end before it.
pub(crate) fn kind_of(entry: &[u8]) -> u8
    ensures long { 38 < length entry.now → result ≡ kind_in entry.now }
    ensures short { length entry.now ≤ 38 → result ≡ 0 }
{
    if entry.len() <= KIND_AT {
        return 0;
    }
    entry[KIND_AT]
}
