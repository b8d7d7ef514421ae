//! Worked lists of formulas, and what is wanted and cited of them.
#![tactic(auto)]

#[cfg(test)]
mod tests;
