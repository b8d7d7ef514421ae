//! The nodes of a term.
use crate::labels::Labels;
use sqlite_items::Items;

/// The labels of a constant, or of the places of a power.
#[derive(Drop)]
pub enum LabelSet<'a> {
    /// These words, each numbered by its place.
    Listed(Labels<'a>),
    /// The numbers below this one.
    Below(u32),
}

/// One form of functor.
#[derive(Drop)]
pub enum Node<'a> {
    /// The states themselves.
    State,
    /// One of finitely many labels.
    Constant(LabelSet<'a>),
    /// A whole number from 0.
    Naturals,
    /// A value at each of two or more places.
    Product,
    /// A value at one of two or more places, and which.
    Sum,
    /// A value for each label.
    Power(LabelSet<'a>),
    /// A finite set.
    Powerset,
    /// A finite set with multiplicities.
    Bag,
    /// A finite probability distribution.
    Distribution,
    /// Finitely many values with weights that are whole numbers.
    Integers,
    /// Finitely many values with weights that are fractions.
    Rationals,
}

/// A node, and where its children stand.
#[derive(Drop)]
pub struct Branch<'a> {
    pub node: Node<'a>,
    pub children: Items<u32>,
}
