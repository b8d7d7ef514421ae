//! Trial inputs as files: each is accepted, with as many states as are asked for.
//!
//! Seen as: laws of the definitions (`specs/Laws.antt`), each the contract of a function that does
//! nothing.
#![tactic(auto)]

mod laws;

pub use laws::{trial_texts_are_accepted, trial_texts_are_short};
