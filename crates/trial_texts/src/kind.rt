//! The kinds of trial inputs.

/// The kinds of trial inputs, one for each way in which states behave.
#[derive(Debug, Clone, Copy, PartialEq, Eq)]
pub enum TrialKind {
    /// Sets of labels and targets.
    Lts,
    /// A mark, and a distribution on two targets.
    Chain,
    /// A mark, and targets with whole weights, which may cancel.
    Sums,
    /// A mark, and a target by each of two letters.
    Dfa,
}
