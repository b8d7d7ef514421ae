//! The public call.

ghost use Rattle.std.specs.Prelude.{◌≡◌, ◌+◌, ◌*◌, ◌<◌, ◌≤◌, ◌^◌, ℕ, List, length, slice_index, IfOk};
ghost use Rattle.sorted_systems.specs.Systems.{IsSystem, IsGreatestStable, system_from};
ghost use Rattle.refiner.specs.Cells.{scanned};
ghost use Rattle.refiner.specs.History.{Moment, IsLegal, AreHalves};

use crate::cells::Cells;
use crate::progress::Progress;
use crate::refined::Refined;
use crate::round::all_rounds;
use crate::splitter::list_blocks;
use crate::start::{edge_counts, edge_sources, first_values, start_blocks};
use edge_store::EdgeStore;
use iface::Iface;
use outside::Steps;
use refinable_partition::Partition;
use std::alloc::{AllocError, Global};
use std::sync::ledger::Ledger;

/// The block of each state.
fn block_list(alloc: Global, blocks: &Partition) -> Result<Vec<u32>, AllocError>
    ensures { IfOk result (λ v. v.items ≡ blocks.now.block) }
{
    let mut found = Vec::with_capacity(alloc, blocks.states() as usize)?;
    for x in 0..blocks.states() {
        found.push(blocks.block_of(x))?;
    }
    Ok(found)
}

/// The greatest stable labelling of the states with these shapes and edges, with a legal history of
/// rounds whose splitters have at most half of the members of their coarse blocks.
///
/// There are fewer than 2^26 states, a shape for each, and at most 2^61 steps before. Each shape
/// fits the labels of its edges, and any two shapes of one node are kin. The error is want of
/// memory.
///
/// Source: the algorithm of R. Paige and R. E. Tarjan, "Three partition refinement algorithms"
/// (1987), as T. Wißmann, U. Dorsch, S. Milius and L. Schröder have it for functors, "Efficient
/// and modular coalgebraic partition refinement" (2020).
pub fn refine<I: Iface, L: Ledger>(
    alloc: Global,
    iface: &I,
    shapes: &[I::Shape],
    store: &EdgeStore<I::Label>,
    steps: &mut Steps<L>,
) -> Result<Refined, AllocError>
    requires few_states { store.now.states < 2 ^ 26 }
    requires one_shape { length shapes.now ≡ store.now.states }
    requires system { IsSystem (I.node iface.now) (I.kin iface.now) (I.fits iface.now)
        (system_from 0 shapes.now store.now.edges) }
    requires steps_fit { steps.old ≤ 2 ^ 61 }
    ensures greatest { IfOk result (λ r. IsGreatestStable (I.agree iface.now)
        (system_from 0 shapes.now store.now.edges) r.block_of) }
    ensures legal { IfOk result (λ r. (first : Moment) × (later : List Moment) ×
        IsLegal (I.node iface.now) (I.value iface.now) (system_from 0 shapes.now store.now.edges)
        r first later × AreHalves first later r.rounds) }
    ensures scans { IfOk result (λ r. (y : ℕ) → y < store.now.states →
        2 ^ slice_index r.scans y ≤ store.now.states) }
    ensures rise { IfOk result (λ r. steps.new ≡ steps.old + r.labels) }
    ensures labels { IfOk result (λ r.
        r.labels ≡ length store.now.edges + scanned r.scans store.now.edges) }
    ensures few_labels { IfOk result (λ r. (k : ℕ) → store.now.states < 2 ^ (k + 1) →
        r.labels ≤ length store.now.edges * (1 + k)) }
    ensures grows { steps.old ≤ steps.new }
{
    store.is_stored();
    let n = store.states();
    let edges = store.len();
    let (values, weights) = first_values(alloc, iface, shapes, store, steps)?;
    let mut cells = Cells {
        of: edge_sources(alloc, store)?,
        sizes: edge_counts(alloc, store)?,
        weights,
    };
    let mut progress = Progress::begun(alloc, n)?;
    let start = start_blocks(
        alloc,
        iface,
        shapes,
        store,
        &mut progress.blocks,
        values.as_slice(),
    )?;
    // No round reads them.
    drop(values);
    list_blocks(&progress.blocks, &mut progress.waiting)?;
    let (history, later_labels) = all_rounds(
        alloc,
        iface,
        shapes,
        store,
        &mut progress,
        &mut cells,
        steps,
    )?;
    let Progress { blocks, scans, .. } = progress;
    blocks.is_laid_out();
    let count = blocks.blocks();
    Ok(Refined {
        block_of: block_list(alloc, &blocks)?,
        blocks: count,
        start,
        history,
        scans,
        labels: edges as u64 + later_labels,
    })
}
