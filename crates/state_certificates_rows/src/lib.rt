//! Worked formulas of states: those that tell pairs apart, and those of classes.
#![tactic(auto)]

#[cfg(test)]
mod tests;
