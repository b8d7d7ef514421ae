//! Two coalgebras that have the same fractions over different denominators: the laws of their
//! values. Nothing here runs.
#![tactic(auto)]

mod laws;

pub use laws::{
    lowest_terms_stay, rescaling_commutes_with_relabelling, rescaling_keeps_equality,
    rescaling_keeps_form, rescaling_keeps_order, rescaling_tells_values_apart,
    same_fractions_same_equivalence, values_over_a_multiple,
};
