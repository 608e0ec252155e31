//! The bodies that are kept, oldest first.

ghost use Rattle.std.specs.Prelude.{◌≡◌, ◌<◌, ◌≤◌, ◌+◌, ℕ, [], ◌∷◌, ◌++◌, length, sum_by, IsTrue, option_copied};
ghost use Rattle.std.specs.Prelude.{vec_len, vec_capacity};
ghost use Rattle.lw_stamp.specs.Moment.{ms_of};
ghost use Rattle.lw_messaging.specs.Blocks.{value_of};
ghost use Rattle.lw_messaging.specs.Kept.{weight_of, has_room as is_room, without_oldest, with_body, others};
ghost use Rattle.lw_messaging.specs.Kept.{AreBounded};
ghost use Rattle.lw_messaging.specs.Bodies.{begun as begun_in};

use crate::block::Block;
use crate::body::{Arrival, Body};
use lw_coap::CoapOption;

/// The most bodies that are kept.
const MAX_BODIES: usize = 1024;

/// The most bytes of theirs.
const MAX_BYTES: usize = 4_194_304;

/// What has come before the block; there is none where it has not.
pub(crate) fn begun<'a>(
    bodies: &'a [Body],
    arrival: Arrival,
    options: &[CoapOption],
    block: &Block,
) -> Option<&'a [u8]>
    ensures { option_copied result
        ≡ begun_in bodies.now (ms_of arrival.now) arrival.from options.now (value_of block.now) }
{
    if block.number() == 0 {
        return Some(&[]);
    }
    let offset = block.offset();
    for body in bodies {
        if body.continues(arrival, options, offset) {
            return Some(body.payload());
        }
    }
    None
}

fn weight_of_all(bodies: &[Body]) -> usize
    requires { sum_by weight_of bodies.now ≤ 4194304 }
    ensures { result ≡ sum_by weight_of bodies.now }
{
    let mut weight = 0;
    for body in bodies {
        weight += body.weight();
    }
    weight
}

fn has_room(bodies: &[Body], weight: usize) -> bool
    requires bytes { sum_by weight_of bodies.now ≤ 4194304 }
    requires one { weight ≤ 4194304 }
    ensures { result ≡ is_room weight bodies.now }
{
    bodies.len() < MAX_BODIES && weight_of_all(bodies) + weight <= MAX_BYTES
}

/// Lets the oldest go until there is room for one of this weight.
fn make_room(bodies: &mut Vec<Body>, weight: usize)
    requires bytes { sum_by weight_of bodies.old.items ≤ 4194304 }
    requires one { weight ≤ 4194304 }
    ensures left { bodies.new.items ≡ without_oldest weight bodies.old.items }
    ensures len { vec_len bodies.new ≤ vec_len bodies.old }
    ensures capacity { vec_capacity bodies.new ≡ vec_capacity bodies.old }
{
    while !has_room(bodies, weight) {
        bodies.remove(0);
    }
}

/// Keeps a body, where there is room in memory.
pub(crate) fn keep(bodies: &mut Vec<Body>, body: Body)
    requires bytes { sum_by weight_of bodies.old.items ≤ 4194304 }
    requires one { weight_of body ≤ 4194304 }
    requires room { vec_len bodies.old < vec_capacity bodies.old }
    ensures { bodies.new.items ≡ with_body bodies.old.items body }
{
    make_room(bodies, body.weight());
    let Ok(()) = bodies.push(body) else {
        unreachable!()
    };
}

/// Lets go the body that a block belongs to, and those that have ended.
pub(crate) fn forget(bodies: &mut Vec<Body>, arrival: Arrival, options: &[CoapOption])
    ensures left { bodies.new.items ≡ others (ms_of arrival.now) arrival.from options.now bodies.old.items }
    ensures len { vec_len bodies.new ≤ vec_len bodies.old }
    ensures capacity { vec_capacity bodies.new ≡ vec_capacity bodies.old }
{
    bodies.retain(|body| body.is_other(arrival, options));
}
