//! The refinement interface of finite sets.
//!
//! Shape: a set has an edge without a label to each of its elements. Its weight towards a block is
//! two facts in a few bytes: whether an element lies outside, and how many lie inside.
//! Seen as: the value of a set is the set of the numbers 0, 1 and 2 that its elements have, and two
//! sets agree where the same classes occur in both (`specs/Sets.antt`).
//! Steps: one for each label that a call is given. No call takes memory.
#![tactic(auto)]

mod sets;
mod weight;

pub use sets::{Sets, bits};
pub use weight::{SetShape, SetWeight};
