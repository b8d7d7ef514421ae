//! One edge, as it is given to the store.

/// An edge from one state to another.
#[derive(Clone, Copy, Debug, PartialEq, Eq)]
pub struct Edge<A> {
    pub source: u32,
    pub label: A,
    pub target: u32,
}
