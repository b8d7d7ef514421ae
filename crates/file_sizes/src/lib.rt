//! How large the coalgebra of a file can be, and a quotient of one.
//!
//! Seen as: laws of the definitions (`specs/Laws.antt`), each the contract of a function that does
//! nothing.
//! Numbers: a file of at most 2^26 bytes has fewer than 2^26 structures and edges.
#![tactic(auto)]

mod laws;

pub use laws::{accepted_files_are_few, quotients_are_no_larger};
