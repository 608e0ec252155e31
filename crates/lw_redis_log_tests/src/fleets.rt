use crate::stage::Act::{Append, Pass, Read};
use crate::stage::Answer::{Opens, Says, SaysLarge};
use crate::stage::{Act, Answer, Story, play, play_all};
use lw_log::{EntryFault, FleetId};
use lw_redis_log::fleet_of_delta;
use std::alloc::{AllocError, Global};

const PONG: Answer = Says("+PONG\r\n");

/// What a Redis that keeps a file tells, as much of it as counts.
const KEEPS: Answer = Says("$30\r\n# Persistence\r\naof_enabled:1\r\n\r\n");

const EMPTY: Answer = Says("*0\r\n");

/// The entry 5-0 was appended.
const AT_5: Answer = Says("$3\r\n5-0\r\n");

/// The empty delta of the fleet `F` as an entry.
const DELTA: &str = "LWE1FFFFFFFFFFFFFFFF01ttttttttssssssss\x01LWD3\x00\x00\x00\x00\x00\x01\x00";

/// A delta of the fleet `F`.
const OWN: Answer = Says(
    "*1\r\n\
     *2\r\n$3\r\n5-0\r\n*2\r\n$1\r\ne\r\n\
     $50\r\nLWE1FFFFFFFFFFFFFFFF01ttttttttssssssss\x01LWD3\x00\x00\x00\x00\x00\x01\x00\r\n",
);

/// The same, a delta of the fleet `G`, and another one of `F`.
const MIXED: Answer = Says(
    "*3\r\n\
     *2\r\n$3\r\n5-0\r\n*2\r\n$1\r\ne\r\n\
     $50\r\nLWE1FFFFFFFFFFFFFFFF01ttttttttssssssss\x01LWD3\x00\x00\x00\x00\x00\x01\x00\r\n\
     *2\r\n$3\r\n6-0\r\n*2\r\n$1\r\ne\r\n\
     $50\r\nLWE1GGGGGGGGGGGGGGGG01ttttttttssssssss\x01LWD3\x00\x00\x00\x00\x00\x01\x00\r\n\
     *2\r\n$3\r\n7-0\r\n*2\r\n$1\r\ne\r\n\
     $50\r\nLWE1FFFFFFFFFFFFFFFF01ttttttttssssssss\x01LWD3\x00\x00\x00\x00\x00\x01\x00\r\n",
);

/// A delta of each fleet.
const LAST_OF_G: Answer = Says(
    "*2\r\n\
     *2\r\n$3\r\n5-0\r\n*2\r\n$1\r\ne\r\n\
     $50\r\nLWE1FFFFFFFFFFFFFFFF01ttttttttssssssss\x01LWD3\x00\x00\x00\x00\x00\x01\x00\r\n\
     *2\r\n$3\r\n6-0\r\n*2\r\n$1\r\ne\r\n\
     $50\r\nLWE1GGGGGGGGGGGGGGGG01ttttttttssssssss\x01LWD3\x00\x00\x00\x00\x00\x01\x00\r\n",
);

/// A delta of the fleet `G` alone.
const OF_G: Answer = Says(
    "*1\r\n\
     *2\r\n$3\r\n6-0\r\n*2\r\n$1\r\ne\r\n\
     $50\r\nLWE1GGGGGGGGGGGGGGGG01ttttttttssssssss\x01LWD3\x00\x00\x00\x00\x00\x01\x00\r\n",
);

/// A delta of the fleet `G`, and one of `F`.
const FIRST_OF_G: Answer = Says(
    "*2\r\n\
     *2\r\n$3\r\n4-0\r\n*2\r\n$1\r\ne\r\n\
     $50\r\nLWE1GGGGGGGGGGGGGGGG01ttttttttssssssss\x01LWD3\x00\x00\x00\x00\x00\x01\x00\r\n\
     *2\r\n$3\r\n5-0\r\n*2\r\n$1\r\ne\r\n\
     $50\r\nLWE1FFFFFFFFFFFFFFFF01ttttttttssssssss\x01LWD3\x00\x00\x00\x00\x00\x01\x00\r\n",
);

/// A start of the fleet `G`, a delta of `F`, and a start of `G`.
const STARTS: Answer = Says(
    "*3\r\n\
     *2\r\n$3\r\n4-0\r\n*2\r\n$1\r\ne\r\n$39\r\nLWE1GGGGGGGGGGGGGGGG01ttttttttssssssss\x00\r\n\
     *2\r\n$3\r\n5-0\r\n*2\r\n$1\r\ne\r\n\
     $50\r\nLWE1FFFFFFFFFFFFFFFF01ttttttttssssssss\x01LWD3\x00\x00\x00\x00\x00\x01\x00\r\n\
     *2\r\n$3\r\n6-0\r\n*2\r\n$1\r\ne\r\n$39\r\nLWE1GGGGGGGGGGGGGGGG01ttttttttssssssss\x00\r\n",
);

/// A snapshot of the fleet `G`.
const WHOLE_OF_G: Answer = SaysLarge(
    "*1\r\n*2\r\n$3\r\n6-0\r\n*2\r\n$1\r\ne\r\n$8242\r\nLWE1GGGGGGGGGGGGGGGG01ttttttttssssssss\x02",
    8_192,
    "LWD3\x00\x00\x00\x00\x00\x01\x00\r\n",
);

/// A delta of another fleet than the first one is given without its bytes. A start is given as it is.
static OVER: [Story<'static>; 5] = [
    (
        &[Opens, PONG, KEEPS, OWN, MIXED],
        &[Read(None), Read(Some((5, 0)))],
        "connects\n*1~$4~PING~\n*1~$4~INFO~\n\
         *6~$6~XRANGE~$1~k~$1~-~$1~+~$5~COUNT~$3~256~\n= 5-0 LWE1FFFFFFFFFFFFFFFF01ttttttttssssssss?LWD3???????\n\
         *6~$6~XRANGE~$1~k~$3~5-0~$1~+~$5~COUNT~$3~257~\n\
         another fleet 6-0\n= 6-0  7-0 LWE1FFFFFFFFFFFFFFFF01ttttttttssssssss?LWD3???????\n",
    ),
    // What was passed over is looked for with its bytes.
    (
        &[Opens, PONG, KEEPS, OWN, LAST_OF_G, OF_G, EMPTY],
        &[
            Read(None),
            Read(Some((5, 0))),
            Read(Some((6, 0))),
            Read(Some((6, 0))),
        ],
        "connects\n*1~$4~PING~\n*1~$4~INFO~\n\
         *6~$6~XRANGE~$1~k~$1~-~$1~+~$5~COUNT~$3~256~\n= 5-0 LWE1FFFFFFFFFFFFFFFF01ttttttttssssssss?LWD3???????\n\
         *6~$6~XRANGE~$1~k~$3~5-0~$1~+~$5~COUNT~$3~257~\nanother fleet 6-0\n= 6-0 \n\
         *6~$6~XRANGE~$1~k~$3~6-0~$1~+~$5~COUNT~$3~257~\n=\n\
         *6~$6~XRANGE~$1~k~$3~6-0~$1~+~$5~COUNT~$3~257~\nlost\n= Lost\n",
    ),
    (
        &[Opens, PONG, KEEPS, AT_5, LAST_OF_G],
        &[Append(DELTA), Read(None)],
        "connects\n*1~$4~PING~\n*1~$4~INFO~\n\
         *6~$4~XADD~$1~k~$10~NOMKSTREAM~$1~*~$1~e~$50~LWE1FFFFFFFFFFFFFFFF01ttttttttssssssss?LWD3???????~\n= 5-0\n\
         *6~$6~XRANGE~$1~k~$1~-~$1~+~$5~COUNT~$3~256~\n\
         another fleet 6-0\n= 5-0 LWE1FFFFFFFFFFFFFFFF01ttttttttssssssss?LWD3??????? 6-0 \n",
    ),
    (
        &[Opens, PONG, KEEPS, STARTS],
        &[Read(None)],
        "connects\n*1~$4~PING~\n*1~$4~INFO~\n\
         *6~$6~XRANGE~$1~k~$1~-~$1~+~$5~COUNT~$3~256~\n\
         = 4-0 LWE1GGGGGGGGGGGGGGGG01ttttttttssssssss? 5-0 LWE1FFFFFFFFFFFFFFFF01ttttttttssssssss?LWD3??????? 6-0 \
         LWE1GGGGGGGGGGGGGGGG01ttttttttssssssss?\n",
    ),
    (
        &[Opens, PONG, KEEPS, OWN, EMPTY, WHOLE_OF_G],
        &[Read(None), Read(Some((1, 0))), Read(Some((2, 0)))],
        "connects\n*1~$4~PING~\n*1~$4~INFO~\n\
         *6~$6~XRANGE~$1~k~$1~-~$1~+~$5~COUNT~$3~256~\n= 5-0 LWE1FFFFFFFFFFFFFFFF01ttttttttssssssss?LWD3???????\n\
         *6~$6~XRANGE~$1~k~$4~(1-0~$1~+~$5~COUNT~$3~256~\n=\n\
         *6~$6~XRANGE~$1~k~$4~(2-0~$1~+~$5~COUNT~$3~256~\nanother fleet 6-0\n= 6-0 \n",
    ),
];

/// Tries: lw_redis_log::RedisLog::new
#[test]
fn another_fleet_is_passed_over(rt: HostRuntime) {
    play_all(&rt, rt.alloc(), &OVER);
}

/// A stream that begins with a delta of another fleet than is known is refused, and told once.
static STREAM: [Story<'static>; 4] = [
    (
        &[
            Opens, PONG, KEEPS, AT_5, FIRST_OF_G, FIRST_OF_G, OWN, FIRST_OF_G,
        ],
        &[
            Append(DELTA),
            Read(None),
            Read(None),
            Read(None),
            Read(None),
        ],
        "connects\n*1~$4~PING~\n*1~$4~INFO~\n\
         *6~$4~XADD~$1~k~$10~NOMKSTREAM~$1~*~$1~e~$50~LWE1FFFFFFFFFFFFFFFF01ttttttttssssssss?LWD3???????~\n= 5-0\n\
         *6~$6~XRANGE~$1~k~$1~-~$1~+~$5~COUNT~$3~256~\nanother stream\n= Refused\n\
         *6~$6~XRANGE~$1~k~$1~-~$1~+~$5~COUNT~$3~256~\n= Refused\n\
         *6~$6~XRANGE~$1~k~$1~-~$1~+~$5~COUNT~$3~256~\n= 5-0 LWE1FFFFFFFFFFFFFFFF01ttttttttssssssss?LWD3???????\n\
         *6~$6~XRANGE~$1~k~$1~-~$1~+~$5~COUNT~$3~256~\nanother stream\n= Refused\n",
    ),
    // It is known after a loss.
    (
        &[Opens, PONG, KEEPS, OWN, EMPTY, WHOLE_OF_G],
        &[Read(None), Read(Some((5, 0))), Read(None)],
        "connects\n*1~$4~PING~\n*1~$4~INFO~\n\
         *6~$6~XRANGE~$1~k~$1~-~$1~+~$5~COUNT~$3~256~\n= 5-0 LWE1FFFFFFFFFFFFFFFF01ttttttttssssssss?LWD3???????\n\
         *6~$6~XRANGE~$1~k~$3~5-0~$1~+~$5~COUNT~$3~257~\nlost\n= Lost\n\
         *6~$6~XRANGE~$1~k~$1~-~$1~+~$5~COUNT~$3~256~\nanother stream\n= Refused\n",
    ),
    // Where the stream is read on from its beginning, the first delta counts.
    (
        &[Opens, PONG, KEEPS, OWN, EMPTY, OF_G, OF_G],
        &[
            Read(None),
            Read(None),
            Read(Some((5, 0))),
            Read(Some((5, 0))),
        ],
        "connects\n*1~$4~PING~\n*1~$4~INFO~\n\
         *6~$6~XRANGE~$1~k~$1~-~$1~+~$5~COUNT~$3~256~\n= 5-0 LWE1FFFFFFFFFFFFFFFF01ttttttttssssssss?LWD3???????\n\
         *6~$6~XRANGE~$1~k~$1~-~$1~+~$5~COUNT~$3~256~\n=\n\
         *6~$6~XRANGE~$1~k~$4~(5-0~$1~+~$5~COUNT~$3~256~\nanother stream\n= Refused\n\
         *6~$6~XRANGE~$1~k~$4~(5-0~$1~+~$5~COUNT~$3~256~\nanother fleet 6-0\n= 6-0 \n",
    ),
    // Whose it is tells what is read or appended first.
    (
        &[Opens, PONG, KEEPS, FIRST_OF_G],
        &[Read(None)],
        "connects\n*1~$4~PING~\n*1~$4~INFO~\n\
         *6~$6~XRANGE~$1~k~$1~-~$1~+~$5~COUNT~$3~256~\n\
         another fleet 5-0\n= 4-0 LWE1GGGGGGGGGGGGGGGG01ttttttttssssssss?LWD3??????? 5-0 \n",
    ),
];

/// Tries: lw_redis_log::RedisLog::new
#[test]
fn a_stream_of_another_fleet_is_refused(rt: HostRuntime) {
    play_all(&rt, rt.alloc(), &STREAM);
}

/// How many entries that are passed over are told of in a second.
const TOLD: usize = 100;

/// What is there when the whole stream is read so many times, and what is told of it while the second lasts.
fn readings(alloc: Global, number: usize, told: usize) -> Result<String, AllocError> {
    let mut text = String::new(alloc);
    for place in 0..number {
        text.push_str("*6~$6~XRANGE~$1~k~$1~-~$1~+~$5~COUNT~$3~256~\n")?;
        if place < told {
            text.push_str("passes over 5-0\n")?;
        }
        text.push_str("= 5-0 a\n")?;
    }
    Ok(text)
}

/// Does a reading of the whole stream so many times.
fn read_all(
    acts: &mut Vec<Act>,
    answers: &mut Vec<Answer>,
    number: usize,
) -> Result<(), AllocError> {
    for _ in 0..number {
        acts.push(Read(None))?;
        answers.push(Says("*1\r\n*2\r\n$3\r\n5-0\r\n*2\r\n$1\r\ne\r\n$1\r\na\r\n"))?;
    }
    Ok(())
}

/// Tries: lw_redis_log::RedisLog::new
#[test]
fn no_more_than_100_are_told_of_in_a_second(rt: HostRuntime) {
    let alloc = rt.alloc();
    let mut acts = Vec::new(alloc);
    let mut answers = [Opens, PONG, KEEPS].to_vec(alloc).expect(&rt, "memory");
    read_all(&mut acts, &mut answers, TOLD + 2).expect(&rt, "memory");
    acts.push(Pass(1_000)).expect(&rt, "memory");
    read_all(&mut acts, &mut answers, 1).expect(&rt, "memory");
    let first = readings(alloc, TOLD + 2, TOLD).expect(&rt, "memory");
    let then = readings(alloc, 1, 1).expect(&rt, "memory");
    let greeting = "connects\n*1~$4~PING~\n*1~$4~INFO~\n";
    let want = format!(in alloc; "{greeting}{first}1000 ms\n{then}").expect(&rt, "memory");
    play(&rt, alloc, (&answers, &acts, want.as_str()), None);
}

/// A start of the fleet `F`, the same with a byte more, and with the number 0; and bytes that are too few, or of another
/// kind or format.
static FLEETS: [(&[u8], Result<Option<FleetId>, EntryFault>); 7] = [
    (
        b"LWE1FFFFFFFFFFFFFFFF01ttttttttssssssss\x01LWD3\x00\x00\x00\x00\x00\x01\x00",
        Ok(Some(FleetId { bytes: [b'F'; 16] })),
    ),
    (b"LWE1FFFFFFFFFFFFFFFF01ttttttttssssssss\x00", Ok(None)),
    (
        b"LWE1FFFFFFFFFFFFFFFF01ttttttttssssssss\x00\x00",
        Err(EntryFault::Trailing),
    ),
    (
        b"LWE1FFFFFFFFFFFFFFFF\x00\x00ttttttttssssssss\x00",
        Err(EntryFault::Range),
    ),
    (b"LWE1FFFFFFFFFFFFFFFF01", Err(EntryFault::Truncated)),
    (
        b"LWE2FFFFFFFFFFFFFFFF01ttttttttssssssss\x00",
        Err(EntryFault::Newer),
    ),
    (b"entry", Err(EntryFault::Magic)),
];

/// Tries: lw_redis_log::fleet_of_delta
#[test]
fn a_delta_tells_its_fleet(rt: HostRuntime) {
    for (bytes, want) in &FLEETS {
        assert!(rt; fleet_of_delta(bytes) == *want);
    }
}
