//! Laws of what a registration shows, each the contract of a function that does nothing.

mod limits;
mod orders;
mod states;

pub use limits::bounds_are_numbers;
pub use orders::{
    addresses_are_ordered, bases_are_ordered, bindings_are_ordered,
    bindings_have_texts_of_their_own, paths_are_ordered, texts_are_ordered, versions_are_ordered,
};
pub use states::{
    atoms_are_states, slots_are_their_parts, states_are_of_sets, states_decide_what_is_shown,
    states_show_their_marks,
};
