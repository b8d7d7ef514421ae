//! Formulas that tell states apart, and lists of them.
//!
//! Shape: a formula is a case of `Formula`, which cites formulas by number. `Dag` is a list in
//! which each cites smaller numbers, so a formula with shared parts takes the room of its parts.
//! Seen as: the list of its formulas (`specs/Formulas.antt`). Whether one holds at a point of a
//! layered structure is said in `specs/Truth.antt`.
//! Numbers: formulas count from 0, and a list has fewer than 2^32.
//! Source: T. Wißmann, S. Milius and L. Schröder, "Explaining Behavioural Inequivalence Generically
//! in Quasilinear Time" (CONCUR 2021), with conjunction and negation of cited formulas.
#![tactic(auto)]

mod dag;
mod formula;
mod laws;

pub use dag::Dag;
pub use formula::Formula;
pub use laws::{alike_points_have_one_truth, equal_values_pass, formulas_hold_by_cases};
