//! Laws of a node, each the contract of a function that does nothing.

ghost use Rattle.lw_node.specs.Exchange.{DeltasBringTheRest, LeastIsOne, LeastCommutes, LeastAssociates, LeastRepeats};
ghost use Rattle.lw_node.specs.Laws.{NewKnowsNothing, OperationsAreKnown, MergesAreKnown, SlotsShowMarks, AnswersAreOne, RegistersReadBack, UpdatesReadBack, RegistersEndTheFormer};

/// What a node knows, from one call to the next: a new node knows no mark, an operation adds its marks, and a merge
/// those that the slots show. A call that leaves the node as it was leaves what it knows.
pub fn calls_add_to_what_is_known()
    ensures new { NewKnowsNothing }
    ensures operations { OperationsAreKnown }
    ensures merges { MergesAreKnown }
    ensures shown { SlotsShowMarks }
{}

/// A question has one answer over a set of operations at a moment.
pub fn answers_are_one()
    ensures { AnswersAreOne }
{}

/// What a Register or an Update wrote is read back at its moment.
pub fn writes_are_read_back()
    ensures registers { RegistersReadBack }
    ensures updates { UpdatesReadBack }
{}

/// After a Register nothing answers to the former identifier of the endpoint, nor to the tokens that were watched
/// under it.
pub fn registers_end_the_former()
    ensures { RegistersEndTheFormer }
{}

/// The order and the number of merges do not matter: the least that is above both is one, whichever comes first,
/// however they are grouped, and however often one comes.
pub fn merges_are_joins()
    ensures one { LeastIsOne }
    ensures commutative { LeastCommutes }
    ensures associative { LeastAssociates }
    ensures idempotent { LeastRepeats }
{}

/// A delta since a change number, joined to a state that has at least each slot of the sender that did not move
/// since, gives what the sender's whole state would.
pub fn deltas_bring_the_rest()
    ensures { DeltasBringTheRest }
{}
