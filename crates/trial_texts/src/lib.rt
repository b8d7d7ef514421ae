//! The texts of trial inputs: files of four kinds, drawn by a seed.
//!
//! Seen as: what is drawn for each state (`specs/Structures.antt`), and the text of it, byte for
//! byte (`specs/Text.antt`).
//! Numbers: states count from 0; there are from 1 to 200,000. A seed is any number below 2^64.
//! Source: the generator is the linear congruential one of D. Knuth's MMIX.
#![tactic(auto)]

mod draws;
mod kind;
mod pieces;
mod structures;
#[cfg(test)]
mod tests;
mod text;

pub use kind::TrialKind;
pub use text::trial_text;
