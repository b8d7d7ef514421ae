//! A coalgebra as one system of sorted states.
//!
//! Shape: each structure at a layer node is one sorted state, and its edges lead to the sorted
//! states of its children; a state that stands in a structure leads to its own root structure.
//! Shapes and labels are numbers in the tables of one interface.
//! Seen as: occurrences of structures, and what the numbers stand for (`specs/Desorted.antt`).
//! Numbers: a state's root structure has the state's number.
//! Steps: each structure and each edge is looked at a fixed number of times. No clause says so.
//! Source: after T. Wißmann, U. Dorsch, S. Milius and L. Schröder, "Efficient and Modular
//! Coalgebraic Partition Refinement" (2020), who reduce composite functors to one sort in this way.
#![tactic(auto)]

mod kinds;
mod labels;
mod laws;
mod making;
mod numbering;
mod system;

pub use laws::{
    greatest_is_equivalence, sorted_states_are_a_system, stable_labellings_give_stable_lists,
    stable_lists_give_stable_labellings, values_are_of_layers,
};
pub use making::desort;
pub use system::System;
