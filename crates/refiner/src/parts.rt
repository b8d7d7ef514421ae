//! The plain data of a history.

use modalities::Three;

/// A block before the first round: all states of one node and one value.
#[derive(Debug, Drop)]
pub struct Start {
    /// The number of the block.
    pub block: u32,
    /// The functor node of its members.
    pub node: u32,
    /// The value of its members, where each target is 2.
    pub three: Three,
}

/// A part of a split block: its members with one value.
#[derive(Debug, Drop)]
pub struct Part {
    /// The number of the part. One part has that of the split block.
    pub block: u32,
    /// The value of its members in the round.
    pub three: Three,
}

/// The numbers of a round.
#[derive(Clone, Copy, Debug)]
pub(crate) struct Numbers {
    /// The block that leaves.
    pub(crate) splitter: u32,
    /// The coarse block that it leaves.
    pub(crate) coarse: u32,
    /// The coarse block that the splitter is from then on.
    pub(crate) inner: u32,
    /// The coarse block that the others are from then on.
    pub(crate) outer: u32,
}
