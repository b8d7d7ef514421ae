//! The rows of the arrays of a history. Each has a range of the array below it.

use crate::parts::Numbers;

/// A split, with the places of its parts.
#[derive(Drop)]
pub(crate) struct SplitRow {
    /// The number of the block before the round.
    pub(crate) parent: u32,
    /// The place of its first part.
    pub(crate) from: usize,
    /// The place after its last part.
    pub(crate) to: usize,
}

/// A round, with the places of its splits.
#[derive(Drop)]
pub(crate) struct RoundRow {
    /// Its numbers.
    pub(crate) numbers: Numbers,
    /// The place of its first split.
    pub(crate) from: usize,
    /// The place after its last split.
    pub(crate) to: usize,
}
