//! Formulas of the states of a coalgebra: of each state one that holds at exactly the states that
//! are equivalent to it; and what is made of them for print, where each pair of states is told
//! apart, or each class of states has its formula.
//!
//! Seen as: what `formula_builder` answers over the sorted states, in words of the states
//! (`specs/Certificates.antt`, `specs/Explained.antt`, `specs/Classed.antt`). A sorted state and
//! the structure that it stands for are alike, so they have the same truths.
//! Source: T. Wißmann, S. Milius and L. Schröder, "Explaining Behavioural Inequivalence Generically
//! in Quasilinear Time" (CONCUR 2021).
#![tactic(auto)]

mod certificate;
mod certifying;
mod explaining;
mod grouping;
mod separating;

pub use certificate::{Certificate, certify_classes};
pub use certifying::state_formulas;
pub use explaining::{Explanation, explain_pairs};
pub use separating::{Separation, separating_formula};
