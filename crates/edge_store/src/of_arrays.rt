//! A store made of its arrays.

ghost use Rattle.std.specs.Prelude.{◌≡◌, ◌<◌, ◌≤◌, ◌^◌, length, IfOk, All, AllPairs};
ghost use Rattle.edge_store.specs.Edges.{sources_of, labels_of, targets_of};

use crate::arrays::{grouped, starts};
use crate::store::EdgeStore;
use std::alloc::{AllocError, Global};

impl<A: Copy> EdgeStore<A> {
    /// The edges of n states, given by field: edge e goes from the e-th source to the e-th target
    /// and has the e-th label. They are asked to be as in `build`. No array is copied. The error is
    /// want of memory.
    pub fn of_arrays(
        alloc: Global,
        n: u32,
        sources: Vec<u32>,
        labels: Vec<A>,
        targets: Vec<u32>,
    ) -> Result<EdgeStore<A>, AllocError>
        requires one_label { length labels.items ≡ length sources.items }
        requires one_target { length targets.items ≡ length sources.items }
        requires few { length sources.items < 2 ^ 26 }
        requires ascending { AllPairs (λ a b. a ≤ b) sources.items }
        requires sources_in { All (λ s. s < n) sources.items }
        requires targets_in { All (λ t. t < n) targets.items }
        ensures states { IfOk result (λ s. s.states ≡ n) }
        ensures sources { IfOk result (λ s. sources_of s.edges ≡ sources.items) }
        ensures labels { IfOk result (λ s. labels_of s.edges ≡ labels.items) }
        ensures targets { IfOk result (λ s. targets_of s.edges ≡ targets.items) }
    {
        let from = starts(alloc, n, sources.as_slice())?;
        let into = starts(alloc, n, targets.as_slice())?;
        let numbers = grouped(alloc, n, targets.as_slice(), into.as_slice())?;
        Ok(EdgeStore {
            count: n,
            sources,
            labels,
            targets,
            from,
            into,
            numbers,
        })
    }
}
