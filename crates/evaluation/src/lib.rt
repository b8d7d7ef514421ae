//! The truths of formulas at the states of a coalgebra, one formula after the other.
//!
//! Shape: a formula has a row of truths, one bit for each structure in the values, the states'
//! first. So the truth of a formula goes by cases on it, over the rows of those that it cites.
//! Seen as: a coalgebra, formulas, and the number of the next one (`specs/Evaluations.antt`).
//! Steps: a formula looks once at each structure, and a modality at each edge besides. A row is
//! dropped when the last formula that cites it was evaluated. No clause says so.
#![tactic(auto)]

mod bits;
mod dropping;
mod edges;
mod evaluator;
mod fault;
mod firsts;
mod layer;
mod row;
mod rows;
mod truth;
mod truths;
mod uses;
mod weighing;

pub use evaluator::Evaluator;
pub use fault::CheckFault;
pub use truths::{Truths, evaluate};
