//! A stage: entries in memory, replicas over them, and what is done with them as a table of steps.

use super::acts::{Act, Look, ask, faults, is_seen};
use super::asked::{Asked, was_asked};
use super::due::{put_deltas, put_large, update_until_due};
use super::*;
use crate::large::put;

/// A step. A replica is named by its number, in the order in which replicas begin.
pub(super) enum Step {
    /// A replica begins at moment 0, over a log of the kind that is played.
    Begins(Randomness),
    /// The same over a log that others may append to, whatever is played.
    BeginsBeside(Randomness),
    /// A replica begins at a moment in milliseconds.
    BeginsAt(u64, Randomness),
    /// No replica begins over a log that others may append to.
    BeginsNot(Randomness, ReplicaFault),
    /// None begins at a moment in milliseconds, because of its clock.
    IsAheadAt(u64),
    /// The same over one of which a reading fails.
    ReadsNot(Failure, Randomness, ReplicaFault),
    /// All replicas end.
    End,
    Does(usize, Act),
    /// Each of the replicas does it, in this order.
    Each(&'static [usize], Act),
    Shows(usize, Look),
    /// What becomes of its log.
    LogOf(usize, Fate),
    /// It makes long Updates until it wants a compaction, which is where the entries have more than 16 MiB.
    UpdatesUntilDue(usize),
    /// What becomes of the entries, and what they are.
    Log(Entry),
}

/// The numbers of replicas.
pub(super) const FIRST: usize = 0;

pub(super) const SECOND: usize = 1;

pub(super) const THIRD: usize = 2;

/// What becomes of the log of one replica.
pub(super) enum Fate {
    FailsReading(Failure),
    FailsAppend(Failure),
    FailsTrim(Failure),
    /// All that was to fail has failed.
    HasFailed,
    /// Another process appends the entries before the next append.
    ComesBetween(&'static [&'static str]),
}

/// What becomes of the entries that are shared, and what they are. Entries are in hex.
pub(super) enum Entry {
    /// Another process appends it, once or so many times.
    Puts(&'static str),
    PutsTimes(usize, &'static str),
    /// Another process appends a snapshot: each byte of its numbers but one, the place of this one and what it is,
    /// and the delta.
    PutsSnapshot(u8, usize, u8, &'static str),
    /// A snapshot of so many bytes, and deltas of so many bytes together.
    PutsLarge(usize),
    PutsDeltas(usize),
    /// All entries go.
    Loses,
    /// All entries go but the last, and before it comes this one.
    Restores(&'static str),
    /// They are these.
    Has(&'static [&'static str]),
    /// The first of them are these.
    HasFirst(&'static [&'static str]),
    HasCount(usize),
    /// So many together.
    HasBytes(usize),
    /// The last is a snapshot, whose numbers are all 0 but for this first byte.
    HasNumbers(u8),
    /// The last is a snapshot with this head, such numbers and this delta.
    HasSnapshot(&'static str, u8, &'static str),
    /// Their positions are these.
    HasPlaces(&'static [u64]),
    /// What was asked behind so many calls.
    WasAsked(usize, &'static [Asked]),
}

/// A story: what it tells, whether the logs of replicas are alone each time that it is played, the entries that are
/// there at first, and its steps, part for part.
pub(super) type Story = (
    &'static str,
    &'static [bool],
    &'static [&'static str],
    &'static [&'static [Step]],
);

/// Played once with logs that are alone, or that others may append to, or once with either.
pub(super) const ALONE: &[bool] = &[true];

pub(super) const BESIDE: &[bool] = &[false];

pub(super) const BOTH_WAYS: &[bool] = &[false, true];

/// A log in memory, and replicas over it.
#[derive(Drop)]
struct Stage<'a> {
    entries: &'a Entries,
    /// Whether the logs of replicas are told to be alone.
    alone: bool,
    replicas: Vec<Replica<Shared<'a>>>,
}

/// Plays the stories, each with logs as it tells.
pub(super) fn play_all(rt: &impl Abort, alloc: Global, stories: &'static [Story]) {
    for story in stories {
        for alone in story.1 {
            play(rt, alloc, *alone, story);
        }
    }
}

fn play(rt: &impl Abort, alloc: Global, alone: bool, story: &'static Story) {
    let entries = entries_of(alloc, story.2).expect(rt, "entries");
    let mut stage = Stage {
        entries: &entries,
        alone,
        replicas: Vec::new(alloc),
    };
    for (part, steps) in story.3.iter().enumerate() {
        stage.take_all(rt, alloc, (story.0, part, 0), steps);
    }
}

impl<'a> Stage<'a> {
    /// Takes the steps. The first that does not hold fails.
    fn take_all(&mut self, rt: &impl Abort, alloc: Global, at: At, steps: &'static [Step]) {
        for (number, step) in steps.iter().enumerate() {
            self.take(rt, alloc, (at.0, at.1, number), step);
        }
    }

    fn take(&mut self, rt: &impl Abort, alloc: Global, at: At, step: &'static Step) {
        match step {
            Step::Begins(randomness) => self.begin(rt, alloc, at, (self.alone, 0), randomness),
            Step::BeginsBeside(randomness) => self.begin(rt, alloc, at, (false, 0), randomness),
            Step::BeginsAt(ms, randomness) => self.begin(
                rt,
                alloc,
                at,
                (self.alone, *ms),
                randomness,
            ),
            Step::BeginsNot(randomness, want) => {
                self.begin_not(rt, alloc, at, None, (0, randomness, *want));
            }
            Step::IsAheadAt(ms) => {
                let want = (*ms, &SECOND_CHANCE, ReplicaFault::ClockAhead);
                self.begin_not(rt, alloc, at, None, want);
            }
            Step::ReadsNot(failure, randomness, want) => {
                self.begin_not(rt, alloc, at, Some(*failure), (0, randomness, *want));
            }
            Step::End => self.replicas.clear(),
            Step::Does(who, what) => ask(rt, alloc, at, self.replica(rt, *who), what),
            Step::Each(order, what) => self.each(rt, alloc, at, order, what),
            Step::Shows(who, look) => holds(rt, at, is_seen(self.replica(rt, *who), look)),
            Step::LogOf(who, fate) => befall(rt, at, self.replica(rt, *who).log(), fate),
            Step::UpdatesUntilDue(who) => {
                let entries = self.entries;
                update_until_due(rt, alloc, entries, self.replica(rt, *who));
            }
            Step::Log(entry) => meet(rt, alloc, at, self.entries, entry),
        }
    }

    /// A replica begins over a log that is alone or not, at a moment in milliseconds.
    fn begin(
        &mut self,
        rt: &impl Abort,
        alloc: Global,
        at: At,
        (alone, ms): (bool, u64),
        randomness: &Randomness,
    ) {
        let log = Shared::new(alloc, self.entries, alone);
        let moment = Moment::new(ms).expect(rt, "a moment");
        let replica = given(rt, at, begin(alloc, log, randomness, moment));
        self.replicas.push(replica).expect(rt, "memory");
    }

    /// No replica begins at a moment in milliseconds, over a log that others may append to, and of which a reading may
    /// fail.
    fn begin_not(
        &self,
        rt: &impl Abort,
        alloc: Global,
        at: At,
        reading: Option<Failure>,
        (ms, randomness, want): (u64, &Randomness, ReplicaFault),
    ) {
        let log = Shared::new(alloc, self.entries, false);
        log.reading.set(reading);
        let moment = Moment::new(ms).expect(rt, "a moment");
        faults(rt, at, begin(alloc, log, randomness, moment), Some(want));
    }

    fn each(&mut self, rt: &impl Abort, alloc: Global, at: At, order: &[usize], what: &Act) {
        for who in order {
            ask(rt, alloc, at, self.replica(rt, *who), what);
        }
    }

    fn replica(&mut self, rt: &impl Abort, who: usize) -> &mut Replica<Shared<'a>> {
        self.replicas.get_mut(who).expect(rt, "a replica")
    }
}

fn befall(rt: &impl Abort, at: At, log: &Shared<'_>, fate: &Fate) {
    match fate {
        Fate::FailsReading(failure) => log.reading.set(Some(*failure)),
        Fate::FailsAppend(failure) => log.append.set(Some(*failure)),
        Fate::FailsTrim(failure) => log.trim.set(Some(*failure)),
        Fate::HasFailed => holds(rt, at, log.has_failed()),
        Fate::ComesBetween(texts) => log.between.set(texts),
    }
}

fn meet(rt: &impl Abort, alloc: Global, at: At, entries: &Entries, entry: &'static Entry) {
    match entry {
        Entry::Puts(text) => put_times(rt, alloc, entries, 1, text),
        Entry::PutsTimes(times, text) => put_times(rt, alloc, entries, *times, text),
        Entry::PutsSnapshot(others, place, byte, delta) => {
            put_snapshot(rt, alloc, entries, (*others, *place, *byte), delta);
        }
        Entry::PutsLarge(length) => put_large(rt, alloc, entries, *length),
        Entry::PutsDeltas(total) => put_deltas(rt, alloc, entries, *total),
        Entry::Loses => lose(rt, alloc, entries),
        Entry::Restores(text) => restore(rt, alloc, entries, text),
        Entry::Has(want) => {
            counts(rt, at, count_of(rt, entries), want.len());
            has_first(rt, alloc, at, entries, want);
        }
        Entry::HasFirst(want) => has_first(rt, alloc, at, entries, want),
        Entry::HasCount(want) => counts(rt, at, count_of(rt, entries), *want),
        Entry::HasBytes(want) => counts(rt, at, total_of(rt, entries), *want),
        Entry::HasNumbers(first) => has_numbers(rt, alloc, at, entries, *first),
        Entry::HasSnapshot(head, first, delta) => {
            has_numbers(rt, alloc, at, entries, *first);
            has_ends(rt, alloc, at, entries, (head, delta));
        }
        Entry::HasPlaces(want) => has_places(rt, at, entries, want),
        Entry::WasAsked(before, want) => was_asked(rt, at, entries, *before, want),
    }
}

/// Appends the entry that the text spells in hex so many times.
fn put_times(rt: &impl Abort, alloc: Global, entries: &Entries, times: usize, text: &str) {
    for _ in 0..times {
        put_all(alloc, entries, &[text]).expect(rt, "an append");
    }
}

/// What stands before the numbers of a snapshot of number 3.
const SNAPSHOT_HEAD: &str =
    "4c574531000102030405060708090a0b0c0d0e0f0003c1c2c3c4c5c6c7c8000000000000000302";

/// How many bytes a snapshot has before its numbers, and before its delta.
const NUMBERS_AT: usize = 39;

const DELTA_AT: usize = NUMBERS_AT + 8192;

/// The head that the text spells in hex, and behind it numbers: each byte but one, the place of this one and what it
/// is.
pub(super) fn numbered(
    rt: &impl Abort,
    alloc: Global,
    head: &str,
    (others, place, byte): (u8, usize, u8),
) -> Vec<u8> {
    let mut bytes = bytes_of(alloc, head).expect(rt, "a head");
    for number in 0..8_192 {
        let one = if number == place { byte } else { others };
        bytes.push(one).expect(rt, "memory");
    }
    bytes
}

/// Appends a snapshot with such numbers, and the delta.
fn put_snapshot(
    rt: &impl Abort,
    alloc: Global,
    entries: &Entries,
    used_numbers: (u8, usize, u8),
    delta: &str,
) {
    let mut bytes = numbered(rt, alloc, SNAPSHOT_HEAD, used_numbers);
    put(
        rt,
        &mut bytes,
        &bytes_of(alloc, delta).expect(rt, "a delta"),
    );
    add(entries, &bytes).expect(rt, "an append");
}

/// Has all entries go: positions begin at the first again.
fn lose(rt: &impl Abort, alloc: Global, entries: &Entries) {
    *entries.try_borrow_mut().expect(rt, "the log is free") = MemoryLog::new(alloc);
}

/// All entries go but the last, and before it comes the one that the text spells in hex.
fn restore(rt: &impl Abort, alloc: Global, entries: &Entries, text: &str) {
    let last = last_of(rt, alloc, entries);
    lose(rt, alloc, entries);
    put_times(rt, alloc, entries, 1, text);
    add(entries, &last).expect(rt, "an append");
}

/// Compares the first entries with what the texts spell in hex.
fn has_first(rt: &impl Abort, alloc: Global, at: At, entries: &Entries, want: &[&str]) {
    let log = entries.try_borrow().expect(rt, "the log is free");
    holds(rt, at, log.entries().len() >= want.len());
    for ((_, bytes), text) in log.entries().iter().zip(want) {
        is_hex(rt, alloc, at, bytes, text);
    }
}

/// Compares the bytes with what the text spells in hex.
fn is_hex(rt: &impl Abort, alloc: Global, at: At, bytes: &[u8], want: &str) {
    let text = hex::encode(alloc, bytes).expect(rt, "memory");
    reads(rt, at, text.as_str(), want);
}

/// Compares the positions of all entries.
fn has_places(rt: &impl Abort, at: At, entries: &Entries, want: &[u64]) {
    let log = entries.try_borrow().expect(rt, "the log is free");
    counts(rt, at, log.entries().len(), want.len());
    for ((position, _), major) in log.entries().iter().zip(want) {
        holds(rt, at, position.major == *major && position.minor == 0);
    }
}

/// Compares the numbers of the last entry: all of 8192 bytes are 0 but for the first.
fn has_numbers(rt: &impl Abort, alloc: Global, at: At, entries: &Entries, want: u8) {
    let last = last_of(rt, alloc, entries);
    are_numbers(
        rt,
        at,
        last.get(NUMBERS_AT..DELTA_AT).expect(rt, "numbers"),
        want,
    );
}

fn are_numbers(rt: &impl Abort, at: At, used_numbers: &[u8], want: u8) {
    let (first, others) = used_numbers.split_first().expect(rt, "numbers");
    holds(rt, at, *first == want && are_zero(others));
}

/// Compares what stands before the numbers of the last entry, and behind them.
fn has_ends(
    rt: &impl Abort,
    alloc: Global,
    at: At,
    entries: &Entries,
    (head, delta): (&str, &str),
) {
    let last = last_of(rt, alloc, entries);
    is_hex(
        rt,
        alloc,
        at,
        last.get(..NUMBERS_AT).expect(rt, "a head"),
        head,
    );
    is_hex(
        rt,
        alloc,
        at,
        last.get(DELTA_AT..).expect(rt, "a delta"),
        delta,
    );
}
