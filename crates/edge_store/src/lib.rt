//! Edges between states, by source and by target.
//!
//! Shape: the labels stand in one array in the order of the edges, and a second array has the
//! numbers of the edges, target after target. Two more say where the range of each state begins.
//! So the edges from a state and the edges into it are lent as slices.
//! Seen as: the number of states, and the list of the edges in their order (`specs/Edges.antt`).
//! Numbers: states and edges count from 0. An edge's number is its place in the list.
//! Steps: `build` goes over the edges and the states a fixed number of times, and each other call
//! reads one or two places. No clause says so.
//! Source: the numbers by target are sorted by counting, as H. H. Seward's (1954).
#![tactic(auto)]

mod arrays;
mod edge;
mod of_arrays;
mod store;
#[cfg(test)]
mod tests;

pub use edge::Edge;
pub use store::EdgeStore;
