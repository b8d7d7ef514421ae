//! Worked lines of answers: which are good, and the number of the first that is not; and a long
//! text that is read and written again.
#![tactic(auto)]

#[cfg(test)]
mod lines;
#[cfg(test)]
mod long;
#[cfg(test)]
mod tables;
#[cfg(test)]
mod tests;
