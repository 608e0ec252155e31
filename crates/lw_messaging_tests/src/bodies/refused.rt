//! Blocks that come where memory is refused.

use super::*;
use lw_stamp::{Moment, NoMemory};
use std::test::Fail;

/// What comes of the datagram. Where that is refused, it comes again.
fn take_in_two_tries(bodies: &mut Bodies, bytes: &[u8]) -> Result<Piece, NoMemory> {
    match bodies.take(Moment::START, HOST_A, bytes) {
        Err(NoMemory) => bodies.take(Moment::START, HOST_A, bytes),
        taken => taken,
    }
}

/// Three blocks, and what they are given.
static BLOCKS: [(Post, Given); 3] = [
    (con!(1, 0x08, 16), Given::Continue),
    (con!(2, 0x18, 16), Given::Continue),
    (con!(3, 0x20, 3), Given::Whole(35)),
];

/// Tries: Bodies::take
#[test]
fn a_refused_block_is_taken_when_it_comes_again(rt: HostRuntime) -> Result<(), Fail> {
    let alloc = rt.alloc();
    let mut bodies = Bodies::new(alloc);
    for (post, given) in &BLOCKS {
        let piece = take_in_two_tries(&mut bodies, &datagram(alloc, post)?)?;
        assert!(rt; is_given(alloc, post, &piece, *given)?, "{}", post.mid);
    }
    Ok(())
}
