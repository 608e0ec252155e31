//! Identifiers of the entries of a stream.

ghost use Rattle.std.specs.Prelude.{◌≡◌, ◌≢◌, ◌++◌, ◌==◌, position, Some, IfSome, IfNone, OnOk};
ghost use Rattle.std.specs.Fmt.{decimal};
ghost use Rattle.lw_resp.specs.StreamIds.{id_text, FitsId, IsAbove, IsNextId};
ghost use Rattle.lw_resp.specs.declared.stream_id.StreamId.{StreamId as StreamIds};

use crate::numbers::number;
use itoa::Buffer;
use lw_stamp::NoMemory;

/// The identifier of an entry. Identifiers of a stream rise by `major` and then by `minor`.
#[derive(Clone, Copy, Debug, PartialEq, Eq, PartialOrd, Ord)]
pub struct StreamId {
    pub major: u64,
    pub minor: u64,
}

fn dash_place(text: &[u8]) -> Option<usize>
    ensures { result ≡ position (λ byte. byte == 45) text.now }
{
    text.iter().position(|byte| *byte == b'-')
}

/// The identifier of both numbers.
fn of_numbers(major: &[u8], minor: &[u8]) -> Option<StreamId>
    ensures found { IfSome result (λ id. (major.now ≡ decimal id.major) × (minor.now ≡ decimal id.minor)) }
    ensures none { IfNone result ((id : StreamIds) → FitsId id
        → major.now ≡ decimal id.major → minor.now ≢ decimal id.minor) }
{
    let Some(major) = number(u64::MAX, major) else {
        return None;
    };
    let Some(minor) = number(u64::MAX, minor) else {
        return None;
    };
    Some(StreamId { major, minor })
}

/// The numbers round the `-` at the place.
fn read_parts(place: usize, text: &[u8]) -> Option<StreamId>
    requires { position (λ byte. byte == 45) text.now ≡ Some place }
    ensures found { IfSome result (λ id. text.now ≡ id_text id) }
    ensures none { IfNone result ((id : StreamIds) → FitsId id → text.now ≢ id_text id) }
{
    let (major, behind) = text.split_at(place);
    match behind.split_first() {
        Some((_, minor)) => of_numbers(major, minor),
        None => None,
    }
}

impl StreamId {
    /// The identifier that the text prints: two numbers in decimal with `-` between them.
    pub fn read(text: &[u8]) -> Option<StreamId>
        ensures found { IfSome result (λ id. text.now ≡ id_text id) }
        ensures none { IfNone result ((id : StreamIds) → FitsId id → text.now ≢ id_text id) }
    {
        match dash_place(text) {
            Some(place) => read_parts(place, text),
            None => None,
        }
    }

    /// Puts the text behind what is there. Where a growth is refused, a part of it may stand there.
    pub fn put(self, out: &mut Vec<u8>) -> Result<(), NoMemory>
        ensures { OnOk result (out.new.items ≡ out.old.items ++ id_text self) }
    {
        let mut buffer = Buffer::new();
        out.extend_from_slice(buffer.format(self.major).as_bytes())?;
        out.push(b'-')?;
        out.extend_from_slice(buffer.format(self.minor).as_bytes())?;
        Ok(())
    }

    /// The least identifier above this one; none above the greatest.
    pub fn next(self) -> Option<StreamId>
        ensures found { IfSome result (IsNextId self) }
        ensures none { IfNone result ((id : StreamIds) → FitsId id → ¬ IsAbove self id) }
    {
        let StreamId { major, minor } = self;
        match minor.checked_add(1) {
            Some(minor) => Some(StreamId { major, minor }),
            None => Some(StreamId {
                major: major.checked_add(1)?,
                minor: 0,
            }),
        }
    }
}
