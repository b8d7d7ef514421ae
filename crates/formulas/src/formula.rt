//! Formulas.

use modalities::Three;

/// A formula. It cites formulas by their numbers, which are those of earlier ones of the same list.
#[derive(Debug, Drop)]
pub enum Formula {
    /// It holds everywhere.
    True,
    /// It holds where the other does not.
    Not(u32),
    /// It holds where both do.
    And(u32, u32),
    /// It holds at a structure at the node whose layer has the value, where a child counts as 2 if
    /// both cited formulas hold there, as 1 if the coarse one alone does, and else as 0.
    At {
        node: u32,
        value: Three,
        splitter: u32,
        coarse: u32,
    },
}
