//! The text that tells the truths of formulas at the states of a coalgebra.
//!
//! Shape: a line has the word that names a state, the name of a formula, and the truth of the
//! formula there. The formulas are evaluated one after the other, and the lines of each state are
//! kept apart until the last, since a truth may be dropped once no later formula cites it.
//! Seen as: one text of bytes, state after state, with a line for each formula
//! (`specs/Truths.antt`).
//! Numbers: formulas count from 0, and a formula has the name that lines of answers give it.
//! Steps: each line is written once and copied once. No clause says so.
#![tactic(auto)]

mod lines;
mod writing;

pub use writing::truths_text;
