//! Blocks that come where memory is refused.

use super::*;
use lw_stamp::NoMemory;
use std::test::Fail;

/// What comes of the datagram. Where that is refused, it comes again.
fn take_in_two_tries(
    fetches: &mut Fetches,
    watch: Option<Watch>,
    bytes: &[u8],
) -> Result<Parcel, NoMemory> {
    match fetches.take(at(0), HOST_A, watch, bytes) {
        Err(NoMemory) => fetches.take(at(0), HOST_A, watch, bytes),
        taken => taken,
    }
}

/// Three messages, and what they are given.
static BLOCKS: [(Came, Given<'static>); 3] = [
    (told_of!(1, 0x08, 16), Given::Asks(0x10, 5)),
    (answer!(2, 0x18, 16), Given::Asks(0x20, 5)),
    (
        answer!(3, 0x20, 3),
        Given::Whole(&[(1, 16), (2, 16), (3, 3)], true),
    ),
];

/// Tries: Fetches::take
#[test]
fn a_refused_block_is_taken_when_it_comes_again(rt: HostRuntime) -> Result<(), Fail> {
    let alloc = rt.alloc();
    let mut fetches = fetches(alloc);
    for (came, given) in &BLOCKS {
        let watch = watch_for(came.token);
        let parcel = take_in_two_tries(&mut fetches, watch, &datagram(alloc, came)?)?;
        assert!(rt; is_given(alloc, came, &parcel, *given)?, "{}", came.mid);
    }
    Ok(())
}

/// Tries: Fetches::cut
#[test]
fn a_fetch_whose_end_is_refused_can_be_cut_again(rt: HostRuntime) -> Result<(), Fail> {
    let alloc = rt.alloc();
    let mut fetches = fetches(alloc);
    let begins = (0, HOST_A, told_of!(1, 0x08, 16), Given::Asks(0x10, 5));
    gives(&rt, alloc, &mut fetches, "begins", &begins);
    let cut = match fetches.cut(5) {
        Err(NoMemory) => fetches.cut(5)?,
        Ok(cut) => cut,
    };
    assert!(rt; cut == Some(told(alloc, &TOKEN, &[(1, 16)])?));
    Ok(())
}
