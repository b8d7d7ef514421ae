//! Equality, stability and the first equivalent states as a plain, slow program: each call is its
//! definition, read off line by line. Faster bodies are compared with it.
//!
//! Numbers: a class is named by its first state.
//! Steps: lists are compared pair by pair, and totals are summed anew for each element. No clause
//! says so.
//! Source: P. Kanellakis and S. Smolka (1990), section 3, the naive method.
#![tactic(auto)]

mod equality;
mod rounds;
mod soundness;
mod stability;
#[cfg(test)]
mod tests;

pub use equality::are_equal;
pub use rounds::{classes_of, first_equivalents};
pub use soundness::{are_sound, is_sound};
pub use stability::is_stable;
