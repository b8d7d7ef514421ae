// What a refiner keeps of a set.

/// The shape of a set: its functor node. All else of a set is its elements.
#[derive(Clone, Copy, Debug, PartialEq, Eq)]
pub struct SetShape {
    pub node: u32,
}

/// The weight of a set towards a block.
#[derive(Clone, Copy, Debug, PartialEq, Eq)]
pub struct SetWeight {
    /// An element lies outside the block.
    pub outside: bool,
    /// The number of elements inside it.
    pub inside: u32,
}
