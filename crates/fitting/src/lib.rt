//! Trees of structures fitted to terms, and what they denote over one denominator.
//!
//! Shape: a tree is fitted to a `Fitted`, with its words looked up and its numerals read. The
//! denominators of all fitted trees of a file are joined to one, and then each is scaled to it and
//! put into normal form.
//! Seen as: what a tree denotes at a node, or its first misfit in reading order
//! (`specs/Fitting.antt`); weights, bounds and the common denominator (`specs/Scaling.antt`).
//! Numbers: a numeral, an `N` label and a common denominator are at most 2^40, a scaled weight at
//! most 2^80, and the absolute weights of one structure sum to at most 2^106.
//! Steps: one look-up of a word, one comparison of labels where they are few, and n log n
//! comparisons in the size n of a set or weight list.
//! Limits: the recursion goes from a node to its children, so it is as deep as the term.
#![tactic(auto)]

mod bounds;
mod denominators;
mod fault;
mod fitted;
mod fitting;
mod laws;
mod levels;
mod normal;
mod scaling;
mod sums;
mod weight;

pub use fault::{FitFault, ScaleFault};
pub use fitted::{Fitted, Weight};
pub use fitting::fit;
pub use laws::{lists_are_short, weights_keep_their_fractions};
pub use normal::{own_numbers, scale};
pub use scaling::scaled_at;
