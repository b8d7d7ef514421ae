//! The classes of equivalent states, by partition refinement: the structures of a coalgebra become
//! one system of sorted states, and its greatest stable labelling tells which states are
//! equivalent.
//!
//! Numbers: a class is named by its first state.
//! Steps: those of the refiner, one for each edge and one more for each scan of its target
//! (`specs/Counted.antt`).
//! Source: T. Wißmann, U. Dorsch, S. Milius and L. Schröder, "Efficient and Modular Coalgebraic
//! Partition Refinement" (2020).
#![tactic(auto)]

mod equivalents;
mod firsts;
mod refining;

pub use equivalents::{Equivalents, first_equivalents, firsts_of};
pub use refining::{Refinement, refinement_of};
