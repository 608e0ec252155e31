//! What slots and states say of operations and of sets of marks.

ghost use Rattle.lw_reg.specs.Laws.{AtomsAreStates, JoinedAtomsAreStates, OperationsName, HaveStates, MembersDecide, UnionsJoin, StatesDecide, StatesShowSets, JoinsShowBoth, SlotsAreParts};
ghost use Rattle.lw_reg.specs.State.{state_below, state_join};
ghost use Rattle.lw_join.specs.Join.{IsJoin};

/// The slot of an operation is the state of its marks. The slots of operations about one endpoint, joined in
/// any order and with any repeats, are what the state of all their marks has for it.
pub fn atoms_are_states()
    ensures atoms { AtomsAreStates }
    ensures joined { JoinedAtomsAreStates }
    ensures named { OperationsName }
{}

/// Each set of marks has one state, and that of a union is the join of the states: the least above both.
pub fn states_are_of_sets()
    ensures exist { HaveStates }
    ensures members { MembersDecide }
    ensures unions { UnionsJoin }
    ensures join { IsJoin state_below state_join }
{}

/// Sets of marks with one state show the same registrations and have the same watches live.
pub fn states_decide_what_is_shown()
    ensures { StatesDecide }
{}

/// What can be read from a state shows what the set shows that it is of; from a join of states, also of ones
/// from outside, what can be read from the two.
pub fn states_show_their_marks()
    ensures sets { StatesShowSets }
    ensures joins { JoinsShowBoth }
{}

/// What the readers of a slot give, put together, is the slot.
pub fn slots_are_their_parts()
    ensures { SlotsAreParts }
{}
