//! Numerals, fractions in lowest terms, and the laws of weights that can be added.
#![tactic(auto)]

mod count;
mod digits;
mod fault;
mod monoid;
mod numeral;
mod ratio;
mod scaled;
#[cfg(test)]
mod tests;
mod text;
mod whole;

pub use count::Count;
pub use fault::NumeralFault;
pub use monoid::{Group, Monoid};
pub use numeral::{Numeral, read_numeral};
pub use ratio::{Ratio, gcd, lcm_within, ratio_of};
pub use scaled::Scaled;
pub use text::ratio_text;
pub use whole::Whole;
