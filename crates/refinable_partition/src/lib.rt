//! A partition of states into blocks that split by marks.
//!
//! Shape: one array has every state, block after block, the marked members of a block first. So a
//! block is lent as a slice of it, a mark is one swap, and a split moves one boundary.
//! Seen as: the block of each state, which states are marked, and how many blocks there are
//! (`specs/Blocks.antt`). The order of the members inside a block stays open.
//! Numbers: states and blocks count from 0. A new block gets the next number; none is given back.
//! Steps: a mark is one swap, and a split writes one number for each member that moves. It never
//! looks at the members that stay. No clause says so.
//! Memory: all of it is taken by `one_block`, six numbers of 32 bits for each state.
//! Source: after A. Valmari and P. Lehtinen, Efficient minimization of DFAs with partial transition
//! functions (2008), whose structure has the same arrays.
#![tactic(auto)]

mod arrays;
mod partition;
#[cfg(test)]
mod tests;

pub use partition::Partition;
