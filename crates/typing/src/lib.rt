//! Values over a term, and when states are equivalent.
#![tactic(auto)]

mod coalgebra;
mod joined;
mod kind;
mod laws;
mod levels;
mod moved;
mod names;
mod order;
mod relabelling;
mod value;

pub use coalgebra::Coalgebra;
pub use kind::TypeKind;
pub use laws::{
    equality_is_an_equivalence, equivalence_is_an_equivalence, greatest_stable_list,
    merging_keeps_equality, normal_forms_tell, normal_values_are_unique,
};
pub use moved::relabelled;
pub use names::Names;
pub use order::compare;
pub use relabelling::relabel;
pub use value::Value;
