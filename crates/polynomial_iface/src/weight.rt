// What a refiner keeps of a polynomial structure.
use crate::marks::Marks;

/// What a structure is but for its successors.
#[derive(Clone, Copy, Debug, PartialEq, Eq, Hash)]
pub enum Form {
    /// The element of a set of constants, with no place.
    Constant(u64),
    /// One successor, with one place.
    Identity,
    /// A product or power with so many places.
    Places(u32),
    /// The summand of this number, counted from 0, with one place.
    Tagged(u32),
}

/// The shape of a structure: its functor node and its form.
#[derive(Clone, Copy, Debug, PartialEq, Eq)]
pub struct PolyShape {
    pub node: u32,
    pub form: Form,
}

/// The weight of a structure towards a block.
#[derive(Debug, Drop)]
pub struct PolyWeight {
    pub form: Form,
    /// For each place, whether it leads into the block.
    pub marks: Marks,
}
