//! The edges into a splitter, source by source.

ghost use Rattle.std.specs.Prelude.{◌≡◌, ◌≢◌, ◌<◌, ◌≤◌, ◌^◌, ℕ, length, slice_index, All, AllPairs, Contains, IfOk};
ghost use Rattle.edge_store.specs.Edges.{labels_of};
ghost use Rattle.refinable_partition.specs.Blocks.{block_at, states_of};
ghost use Rattle.refiner.specs.Cells.{AreEdgesWithin, source_at, target_at, labels_at};

use edge_store::EdgeStore;
use refinable_partition::Partition;
use std::alloc::AllocError;

/// Puts the edges into the members of a block into a list, member after member.
fn edges_by_target<A: Copy>(
    store: &EdgeStore<A>,
    blocks: &Partition,
    s: u32,
    found: &mut Vec<u32>,
) -> Result<(), AllocError>
    requires live { s < blocks.now.count }
    requires states { states_of blocks.now ≡ store.now.states }
    ensures each { IfOk result (λ _. All (λ e. (e < length store.now.edges)
        × (block_at blocks.now (target_at store.now.edges e) ≡ s)) found.new.items) }
    ensures every { IfOk result (λ _. (e : ℕ) → e < length store.now.edges →
        block_at blocks.now (target_at store.now.edges e) ≡ s → Contains found.new.items e) }
    ensures apart { IfOk result (λ _. AllPairs (λ d e. d ≢ e) found.new.items) }
{
    store.is_stored();
    let members = blocks.members(s);
    found.clear();
    for y in members {
        found.extend_from_slice(store.into_state(*y))?;
    }
    Ok(())
}

/// Puts the edges into the members of a block into a list, in order, in place of what it had.
pub(crate) fn edges_within<A: Copy>(
    store: &EdgeStore<A>,
    blocks: &Partition,
    s: u32,
    found: &mut Vec<u32>,
) -> Result<(), AllocError>
    requires live { s < blocks.now.count }
    requires states { states_of blocks.now ≡ store.now.states }
    ensures { IfOk result (λ _. AreEdgesWithin store.now.edges blocks.now s found.new.items) }
{
    edges_by_target(store, blocks, s, found)?;
    found.sort_unstable();
    Ok(())
}

/// The end of the run of one source that begins at a place.
pub(crate) fn group_end<A: Copy>(store: &EdgeStore<A>, edges: &[u32], from: usize) -> usize
    requires place { from < length edges.now }
    requires in_range { All (λ e. e < length store.now.edges) edges.now }
    ensures later { from < result }
    ensures within { result ≤ length edges.now }
    ensures alike { (k : ℕ) → from ≤ k → k < result →
        source_at store.now.edges (slice_index edges.now k)
        ≡ source_at store.now.edges (slice_index edges.now from) }
    ensures other { result < length edges.now →
        source_at store.now.edges (slice_index edges.now result)
        ≢ source_at store.now.edges (slice_index edges.now from) }
{
    let x = store.source(edges[from]);
    for k in from + 1..edges.len() {
        if store.source(edges[k]) != x {
            return k;
        }
    }
    edges.len()
}

/// Puts the labels of some edges into a list, in place of what it had.
pub(crate) fn read_labels<A: Copy>(
    store: &EdgeStore<A>,
    edges: &[u32],
    labels: &mut Vec<A>,
) -> Result<(), AllocError>
    requires in_range { All (λ e. e < length store.now.edges) edges.now }
    ensures { IfOk result (λ _.
        labels.new.items ≡ labels_at (labels_of store.now.edges) edges.now) }
{
    labels.clear();
    for e in edges {
        labels.push(*store.label(*e))?;
    }
    Ok(())
}
