//! Lists that a round fills and that the next one fills again, so that their memory is taken once.

use crate::moved::Moved;
use crate::parts::Part;
use std::alloc::Global;

/// What a round goes over.
#[derive(Drop)]
pub(crate) struct Buffers<A: Copy> {
    /// The edges into the splitter.
    pub(crate) edges: Vec<u32>,
    /// The labels of those that one state has.
    pub(crate) labels: Vec<A>,
    /// The states that leave the untouched members of their blocks.
    pub(crate) moved: Vec<Moved>,
    /// The parts of one of these blocks.
    pub(crate) parts: Vec<Part>,
}

impl<A: Copy> Buffers<A> {
    /// Lists that are empty.
    pub(crate) fn new(alloc: Global) -> Buffers<A> {
        Buffers {
            edges: Vec::new(alloc),
            labels: Vec::new(alloc),
            moved: Vec::new(alloc),
            parts: Vec::new(alloc),
        }
    }
}
