//! Laws for callers, each the contract of a function that does nothing.

ghost use Rattle.uses.specs.Meeting.{NewIsCounted, OperationsCount, MergesCount, HistoriesCount};

// cut: nodes_count_what_they_know
/// A node has counted all that it knows: each endpoint of which it knows has a change number above 0, or the numbers
/// have come to their end. So its delta since 0 has all. A new node has counted, and each operation, each merge and
/// each legal history keeps it.
pub fn nodes_count_what_they_know()
    ensures new { NewIsCounted }
    ensures operations { OperationsCount }
    ensures merges { MergesCount }
    ensures histories { HistoriesCount }
{}
// end: nodes_count_what_they_know
