//! Fitted trees.
use sqlite_items::{Boxed, Items};
use weights::Numeral;

/// A weight as its word spells it.
#[derive(Clone, Copy, Debug, Drop)]
pub enum Weight {
    /// This fraction.
    Fraction(Numeral),
    /// One over a bound of numerals.
    OverBound,
}

/// What a tree denotes at a term, with its words read: a value that is not yet in normal form, and
/// whose weights are fractions. States and labels are numbers from 0; the parts of a power stand in
/// the order of its labels.
#[derive(Debug, Drop)]
pub enum Fitted {
    State(u32),
    Label(u64),
    /// A whole number over the bound.
    OverBound,
    Tuple(Items<Fitted>),
    Inj(u32, Boxed<Fitted>),
    Set(Items<Fitted>),
    Weights(Items<(Fitted, Weight)>),
}
