//! Worked systems of sorted states: files of sets of states, their structures and their edges.
#![tactic(auto)]

#[cfg(test)]
mod tests;
