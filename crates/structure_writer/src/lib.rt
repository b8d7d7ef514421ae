//! The canonical text of a coalgebra, and what it is as a file.
//!
//! Shape: the bytes are put last in one vector, from the functor's line to the last state's. The
//! recursion goes from a node to its children, so it is as deep as the term.
//! Seen as: a text as a list of bytes, by one case for each kind of node (`specs/Text.antt`).
//! Numbers: a weight at a distribution or at rationals is printed as the fraction that it is over
//! the common denominator, in lowest terms; other weights are whole.
//! Steps: each byte is put once, and no text is built twice. A weight over a denominator above 1
//! takes one greatest common divisor. No clause says so.
#![tactic(auto)]

mod laws;
mod values;
mod weight;
mod words;
mod writing;

pub use laws::{
    files_are_spelled, only_bounds_refuse_texts, texts_are_of_fractions, texts_are_read_back,
    texts_spell,
};
pub use writing::write_file;
