//! Why a tree does not denote a value.

/// The kind of a misfit of a line with its functor and the names of the states.
#[derive(Clone, Copy, Debug, PartialEq, Eq)]
pub enum TypeKind {
    /// A word that names no state stands where a state is wanted.
    UnknownState,
    /// A word that is no label stands where a label is wanted.
    NotALabel,
    /// The tree has another form than the node.
    WrongShape,
    /// A tuple has another number of parts than the product.
    WrongCount,
    /// A label stands twice among the entries of a power.
    RepeatedKey,
    /// A label of a power has no entry.
    MissingKey,
    /// The index of a part is not below the number of parts of the sum.
    BadIndex,
    /// A word that is no numeral, or none of the kind that is wanted, stands where a weight is
    /// wanted.
    NotANumber,
    /// A weight below zero stands in a bag or a distribution.
    Negative,
    /// The head of the line is the head of an earlier line.
    RepeatedState,
}
