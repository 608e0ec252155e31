//! Laws of runs, each the contract of a function that does nothing.

ghost use Rattle.lw_world.specs.Chains.{DeltasLast, ChainsReach};
ghost use Rattle.lw_world.specs.Laws.{ClocksLead, StampsDiffer, KnownWasIssued, KnownStatesAreLeast, StatesDecideAnswers, SameSetsAnswerAlike};

/// No clock of a run is below what its node knows, and all operations of a run have stamps of their own.
pub fn clocks_lead()
    ensures clocks { ClocksLead }
    ensures stamps { StampsDiffer }
    ensures issued { KnownWasIssued }
{}

/// What reached a node decides its answers: two nodes that the same set reached answer alike.
pub fn same_sets_answer_alike()
    ensures least { KnownStatesAreLeast }
    ensures states { StatesDecideAnswers }
    ensures alike { SameSetsAnswerAlike }
{}

/// Deltas of one sender that follow one another bring its whole state, in whatever order they come.
pub fn chains_reach()
    ensures last { DeltasLast }
    ensures reach { ChainsReach }
{}
