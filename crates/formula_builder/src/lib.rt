//! Certificates from the history of a refinement: of each block a formula that holds at exactly its
//! members; and the formulas that are wanted or cited, cut out of a list.
//!
//! Shape: one pass over the history. A start block has a modality of its own; a part of a split has
//! a modality and its conjunction with the parent's formula; a round has the formulas of its two
//! new coarse blocks.
//! Seen as: the formulas, and the number of each block's formula (`specs/Certified.antt`). That
//! they are exact stands in `specs/SortedLayers.antt`, what a cut list is in `specs/Cited.antt`.
//! Numbers: blocks and formulas count from 0. Of n sorted states there are at most 6n + 1 formulas.
//! Source: after T. Wißmann, S. Milius and L. Schröder, "Explaining Behavioural Inequivalence
//! Generically in Quasilinear Time" (CONCUR 2021).
#![tactic(auto)]

mod building;
mod cited;
mod laws;
mod notes;

pub use building::{Certificates, build};
pub use cited::only_cited;
pub use laws::{cited_formulas_are_old, cited_formulas_keep_their_truths, told_blocks_separate};
