//! Systems of sorted states, and the labellings of them that a partition refiner looks for.
//!
//! Shape: a sorted state has a shape of some interface, and an edge with a label to each of its
//! successors, which are sorted states too. Its node is its sort.
//! Seen as: a list of states, made of the shapes and of a store's edges (`specs/Systems.antt`).
//! What a stable labelling is stands here too, below the crates that make systems and those that
//! refine them.
#![tactic(auto)]

mod laws;

pub use laws::greatest_labellings_agree;
