//! Functors, as terms whose nodes are numbered in preorder from 0.
//!
//! Seen as: the list of a term's nodes, each with the numbers of its children (`specs/Terms.antt`).
//! What a term means node by node is a fold over that list, and not said here.
//! Numbers: a term has 1 to 256 nodes and a depth of at most 32; a constant and an exponent have 1
//! to 65,536 labels.
//! Source: the functors of H.-P. Deifel, S. Milius, L. Schröder and T. Wißmann (2019), section 2.
#![tactic(auto)]

mod ahead;
mod chain;
mod copies;
mod fault;
mod label_reading;
mod label_set;
mod labels;
mod laws;
mod letters;
mod link;
mod made;
mod node;
mod part;
mod powers;
mod reading;
mod sign;
mod term;
mod text;

pub use fault::{PartFault, TermFault};
pub use labels::Labels;
pub use laws::{lines_are_cut, one_reading, texts_spell_terms};
pub use node::{Branch, LabelSet, Node};
pub use part::TermPart;
pub use reading::read_term;
pub use term::Term;
pub use text::term_text;
