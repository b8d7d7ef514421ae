//! The quotient of a coalgebra by its classes, and the texts of the quotient and of the block list.
//!
//! Seen as: the names and values of the quotient (`specs/Quotient.antt`), and texts as lists of
//! bytes (`specs/Blocks.antt`). The text of a quotient is that of every coalgebra.
//! Numbers: classes are numbered from 0 by their first states, and each has the name of its first
//! state.
//! Source: quotients of coalgebras, J. Rutten, "Universal coalgebra: a theory of systems" (2000).
#![tactic(auto)]

mod block_list;
mod laws;
mod making;
mod numbering;
#[cfg(test)]
mod tests;
mod text;

pub use block_list::blocks_text;
pub use laws::{
    classes_are_numbered_by_first_states, first_equivalents_are_numbered, first_states_are_picked,
    minimal_systems_are_their_own_quotients, quotients_are_determined, quotients_are_minimal,
};
pub use making::quotient;
pub use numbering::class_numbers;
pub use text::quotient_text;
