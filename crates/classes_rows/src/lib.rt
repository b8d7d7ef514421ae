//! Worked classes of equivalent states: files of sets of states, against classes by hand and
//! against plain rounds.
#![tactic(auto)]

#[cfg(test)]
mod tests;
