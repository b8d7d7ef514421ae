//! Worked truths of formulas: files of states and lines of formulas, against rows by hand.
#![tactic(auto)]

#[cfg(test)]
mod tests;
