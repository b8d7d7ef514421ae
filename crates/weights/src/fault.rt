//! Why a word is not read as a numeral.

use thiserror::Error;

/// Why a word is not read as a numeral.
#[derive(Clone, Copy, Debug, PartialEq, Eq, Error)]
pub enum NumeralFault {
    /// The word is no numeral.
    #[error("not a numeral")]
    NotANumber,
    /// The word is a numeral over a bound. `negative` tells whether its value is below zero.
    #[error("a numeral over the bound")]
    OverBound { negative: bool },
}
