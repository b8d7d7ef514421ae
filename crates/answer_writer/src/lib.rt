//! The texts of explanations and certificates, the line of statistics, and the summary of a trial.
//!
//! Shape: the lines of the formulas, and behind them a line for each pair or block, in order.
//! Seen as: the text of the formulas and of these lines (`specs/Lines.antt`), which is read as what
//! it says: the laws say so.
//! Numbers: states and formulas count from 0. A text has the names of states and never their
//! numbers.
//! Steps: each name is copied once for each time that it is written. No clause says so.
//! Source: the lines are those of `formula_text`. Digits are written by `itoa`.
#![tactic(auto)]

mod certificate;
mod explanation;
mod laws;
mod stats;
mod summary;
#[cfg(test)]
mod tests;
mod words;

pub use certificate::certificate_text;
pub use explanation::explanation_text;
pub use laws::{block_lines_can_be_said, pair_lines_can_be_said, stats_are_comments};
pub use stats::stats_line;
pub use summary::trial_summary;
