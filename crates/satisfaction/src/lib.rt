//! When formulas hold at the states of a coalgebra, and when modalities fit a term.
//!
//! Seen as: the structures in the values of the states are points in layers, each with its children
//! below it (`specs/Satisfaction.antt`), so truth is that of the crate `formulas`.
//! Steps: a test of a list of formulas looks at each formula once. No clause says so.
#![tactic(auto)]

mod laws;
mod modality;
#[cfg(test)]
mod tests;

pub use laws::{equivalent_states_have_one_truth, formulas_hold_by_cases};
pub use modality::{first_misfit, fits_modality};
