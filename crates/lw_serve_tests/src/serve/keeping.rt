//! Which journals are cut after which rounds, and that each volume goes to the sink.

ghost use Rattle.std.specs.Prelude.{◌<◌, vec_capacity, vec_len};

use super::*;
use lw_held::Volume;

/// Keeps volumes, and has no room when it is asked for the time that is told, from 1.
#[derive(Drop)]
struct Refusing {
    volumes: Vec<Volume>,
    asked: u32,
    refused: u32,
}

impl VolumeSink for Refusing {
    ghost kept = { λ sink. sink.volumes.items };

    ghost has_room = { λ sink. vec_len sink.volumes < vec_capacity sink.volumes };

    fn make_room(&mut self) -> Result<(), NoMemory> {
        self.asked = self.asked.wrapping_add(1);
        if self.asked == self.refused {
            return Err(NoMemory);
        }
        self.volumes.reserve(1)?;
        Ok(())
    }

    fn keep(&mut self, volume: Volume) {
        self.volumes.push_reserved(volume);
    }

    fn volumes(&self) -> &[Volume] {
        self.volumes.as_slice()
    }
}

/// After how many rounds journals are cut, which time the sink has no room, and how the run ends, with a line for each
/// volume that the sink keeps: its node, its first place and how many entries it has.
///
/// In the first round node 1 sweeps and sends, and node 2 takes the ping too. In the second and the third each merges
/// one delta more. The last merges are made behind the last cut.
static KEPT: [(Option<u32>, u32, &str); 8] = [
    (None, 0, "Ok(())"),
    (
        Some(1),
        0,
        "Ok(())\n1 0 2\n2 0 3\n1 2 3\n2 3 4\n1 5 3\n2 7 4",
    ),
    (Some(2), 0, "Ok(())\n1 0 5\n2 0 7"),
    (Some(3), 0, "Ok(())\n1 0 8\n2 0 11"),
    (Some(4), 0, "Ok(())"),
    // What was refused is cut after the next round, and no journal beside it.
    (Some(2), 1, "Ok(())\n2 0 7\n1 0 8"),
    (Some(2), 2, "Ok(())\n1 0 5\n2 0 11"),
    (Some(3), 2, "Ok(())\n1 0 8"),
];

/// A ping in each of three rounds.
static PINGS: [Arrival<'static>; 3] = [
    (5683, PING, Alone),
    (5683, PING, Alone),
    (5683, PING, Alone),
];

/// Serves three pings at node 2, a round for each, by one worker at two nodes: how the run ended, and the volumes.
fn kept_of<R: Threads + Wait + Sync + Abort>(
    rt: &R,
    alloc: Global,
    plan: &Plan,
    refused: u32,
) -> String {
    let mut wire = MemoryWire::new(alloc, &PINGS);
    let (mut clock, mut written) = (Ticks::new(&[0]), Vec::new(alloc));
    let mut sink = Refusing {
        volumes: Vec::new(alloc),
        asked: 0,
        refused,
    };
    let ended = serve_into(
        rt,
        alloc,
        &mut wire,
        &mut clock,
        &Discard,
        plan,
        &mut sink,
        &mut written,
    );
    let mut text = format!(in alloc; "{ended:?}").expect(rt, "memory");
    for volume in &sink.volumes {
        let (node, first, count) = (volume.node(), volume.first(), volume.entries().len());
        write!(text, "\n{node} {first} {count}").expect(rt, "memory");
    }
    text
}

/// Tries: serve_into, VolumeSink::make_room, VolumeSink::keep, VolumeSink::volumes
#[test]
fn each_journal_is_cut_when_it_is_due(rt: HostRuntime) {
    for (cut, refused, want) in &KEPT {
        let plan = Plan::new(3, 2, 1, *cut).expect(&rt, "a plan");
        let text = kept_of(&rt, rt.alloc(), &plan, *refused);
        assert_eq!(rt; text.as_str(), *want);
    }
}

/// After how many rounds journals are cut, and whether there is such a plan.
static CUTS: [(Option<u32>, bool); 6] = [
    (None, true),
    (Some(0), false),
    (Some(1), true),
    (Some(1_000_000), true),
    (Some(1_000_001), false),
    (Some(u32::MAX), false),
];

/// Tries: Plan::new, Plan::cuts_after
#[test]
fn a_plan_is_cut_after_1_to_1000000_rounds(rt: HostRuntime) {
    for (cut, is_planned) in &CUTS {
        let plan = Plan::new(1, 1, 1, *cut);
        assert_eq!(rt; plan.is_some(), *is_planned);
        if let Some(plan) = plan {
            assert_eq!(rt; plan.cut, *cut);
        }
    }
}
