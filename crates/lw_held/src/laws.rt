//! Laws of histories and of settled passes, each the contract of a function that does nothing.

ghost use Rattle.lw_held.specs.Joint.{JointHistoriesRun};
ghost use Rattle.lw_held.specs.Laws.{HistoriesFollow, OwnOrder};
ghost use Rattle.lw_held.specs.Marked.{HistoriesAreOfMarks, NodesAreOfMarks};

/// The histories from an opening are those over its clock and the marks that reached it alone: each reply is that of
/// what the entries before it left, and an operation, or a delta that is merged, adds its marks.
pub fn of_marks()
    ensures { HistoriesAreOfMarks }
{}

/// Each node, and so the opening of each volume, is one that knows just some marks, which name each registration that
/// they are about.
pub fn nodes_are_of_marks()
    ensures { NodesAreOfMarks }
{}

/// A history that begins where another ends goes on with it.
pub fn follow()
    ensures { HistoriesFollow }
{}

/// In settled passes, the calls of a pass stand in the history of a node in the pass's own order.
pub fn own_order()
    ensures { OwnOrder }
{}

/// Where the histories of several nodes are laid in one order, in which each delta is sent before it is merged, the
/// replies are outcomes of a run of these calls, and each node ends with what has reached it in that run.
pub fn joint()
    ensures { JointHistoriesRun }
{}
