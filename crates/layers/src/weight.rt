// What a refiner keeps of a structure of any kind.
use polynomial_iface::Marks;
use powerset_iface::SetWeight;
use sqlite_items::Boxed;

/// The weight of a structure with weights towards a block.
#[derive(Clone, Copy, Debug)]
pub struct SumsWeight {
    /// The sums stand over the common denominator, and else over 1.
    pub scaled: bool,
    /// The sum of the labels of the edges that do not lead into the block.
    pub outside: i128,
    /// The sum of the labels of those that do.
    pub inside: i128,
}

/// Two sums of 64 bits.
#[derive(Clone, Copy, Debug)]
pub struct Narrow {
    pub outside: i64,
    pub inside: i64,
}

/// The weight of a structure with at most 64 places towards a block.
#[derive(Clone, Copy, Debug, PartialEq, Eq)]
pub struct PlacesWeight {
    /// The number of its shape.
    pub shape: u32,
    /// A bit for each place, which is set where the place leads into the block.
    pub marks: u64,
}

/// The weight of a structure with more places towards a block.
#[derive(Debug, Drop)]
pub struct MarksWeight {
    /// The number of its shape.
    pub shape: u32,
    /// For each place, whether it leads into the block.
    pub marks: Marks,
}

/// The weight of a structure towards a block, while it is worked on.
#[derive(Debug, Drop)]
pub enum Opened {
    Set(SetWeight),
    Places(PlacesWeight),
    Many(MarksWeight),
    Sums(SumsWeight),
}

/// The weight of a structure towards a block. Sums over 64 bits and marks of more than 64 places
/// stand behind a pointer, since few structures have them.
#[derive(Debug, Drop)]
pub enum LayerWeight {
    Set(SetWeight),
    Places(PlacesWeight),
    /// Sums over 1.
    Plain(Narrow),
    /// Sums over the common denominator.
    Scaled(Narrow),
    Many(Boxed<MarksWeight>),
    Wide(Boxed<SumsWeight>),
}
