//! What a state shows of one layer, when all that is known of each successor is a number 0, 1 or 2.
//!
//! Shape: one variant for each kind of layer. `Three` is ordered, so that values can be sorted.
//! Seen as: plain data. A list of trits is seen as its list, so capacity never counts.
//! Limits: the order is one for sorting. Fractions stand by their numerators first, not by size.
#![tactic(auto)]

mod order;
mod sums;
mod three;
mod trit_list;
mod weighted;

pub use sums::Sums;
pub use three::Three;
pub use trit_list::TritList;
