//! The refinement interface: what a partition refiner asks of a kind of layer, and its laws.
//!
//! Shape: the trait `Iface` is met by one type for each kind of layer, and `Either2` is the sum of
//! two, so that a nest of sums serves a file with layers of several kinds.
//! Seen as: six meanings over plain lists (a structure has a shape, a list of labels, and a list
//! with a class or a trit for each). Blocks, splitters and stores of edges are not known here.
//! Steps: `init` and `update` count each label that they are given once.
#![tactic(auto)]

mod counting;
mod either2;
mod interface;
mod side;

pub use counting::count_labels;
pub use either2::Either2;
pub use interface::{Iface, Update};
pub use side::Side;
