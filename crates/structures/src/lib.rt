//! The structures in the values of a coalgebra, numbered, and where the edges of each lead.
//!
//! Shape: the root structures of the states come first, so a state's number is that of its root.
//! Then each structure in turn has its children put behind all others, as in a queue.
//! Seen as: a list of places, and the sources and targets of edges (`specs/Structures.antt`).
//! Numbers: structures count from 0. Sources ascend, and the edges of one structure stand in the
//! order of its children.
//! Steps: each structure is looked at twice, once where room is counted and once where it is filled
//! in. No clause says so.
#![tactic(auto)]

mod children;
mod counting;
mod expand;
mod laws;
mod places;
mod walking;

pub use children::child_count;
pub use laws::nothing_is_merged;
pub use places::Places;
pub use walking::{Structures, structures_of};
