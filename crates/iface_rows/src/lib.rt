//! Worked rows of the refinement interface: each is run at one interface, or at the sum of two, by
//! a function that knows only the trait.
#![tactic(auto)]

mod round;
mod rounds;
#[cfg(test)]
mod sums_tests;
#[cfg(test)]
mod tests;

pub use round::{Round, first_round};
pub use rounds::{Rounds, counted_rounds, two_rounds};
