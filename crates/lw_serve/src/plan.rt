ghost use Rattle.std.specs.Prelude.{◌≡◌, ◌↔◌, ◌%◌, IsSome, IsSomeAnd, IsTrue, IfSome};
ghost use Rattle.lw_serve.specs.Plan.{IsCount, AreNodes, AreWorkers, IsCut};

/// The sizes of a run.
#[derive(Clone, Copy, Debug, PartialEq, Eq)]
pub struct Plan {
    /// How many datagrams are taken: 1 to 1,000,000.
    pub count: u32,
    /// How many nodes there are, numbered from 1: 1 to 16.
    pub nodes: u16,
    /// How many workers there are: 1 to 8.
    pub workers: u32,
    /// After how many rounds the journals are cut, again and again: 1 to 1,000,000. Without it they never are.
    pub cut: Option<u32>,
    pub ghost count_in_range: { IsCount count },
    pub ghost nodes_in_range: { AreNodes nodes },
    pub ghost workers_in_range: { AreWorkers workers },
    pub ghost cut_in_range: { IsCut cut },
}

impl Plan {
    /// There is none outside the ranges.
    pub fn new(count: u32, nodes: u16, workers: u32, cut: Option<u32>) -> Option<Plan>
        ensures in_range { IsSome result ↔ (IsCount count × AreNodes nodes × AreWorkers workers × IsCut cut) }
        ensures value { IfSome result (λ plan. (plan.count ≡ count) × (plan.nodes ≡ nodes) × (plan.workers ≡ workers)
            × (plan.cut ≡ cut)) }
    {
        let is_planned = (1..=1_000_000).contains(&count)
            && (1..=16).contains(&nodes)
            && (1..=8).contains(&workers)
            && is_cut(cut);
        if !is_planned {
            return None;
        }
        Some(Plan {
            count,
            nodes,
            workers,
            cut,
        })
    }

    /// Whether the journals are cut after the round, of which the first is 1.
    pub(crate) fn cuts_after(&self, round: u32) -> bool
        ensures { IsTrue result ↔ IsSomeAnd self.now.cut (λ rounds. round % rounds ≡ 0) }
    {
        match self.cut {
            None => false,
            Some(rounds) => round % rounds == 0,
        }
    }
}

fn is_cut(cut: Option<u32>) -> bool
    ensures { IsTrue result ↔ IsCut cut }
{
    match cut {
        None => true,
        Some(rounds) => (1..=1_000_000).contains(&rounds),
    }
}
