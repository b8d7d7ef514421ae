//! Worked answers: files of states and answers by hand, against verdicts by hand.
#![tactic(auto)]

#[cfg(test)]
mod tests;
