//! The weights of the states that have an edge into the splitter, and their values.

ghost use Rattle.std.specs.Prelude.{◌≡◌, ◌≢◌, ◌+◌, ◌<◌, ◌≤◌, ◌^◌, ℕ, length, map, slice_get, Some, All, IfOk};
ghost use Rattle.iface.specs.Trits.{without_splitter};
ghost use Rattle.edge_store.specs.Edges.{labels_from, targets_from};
ghost use Rattle.refinable_partition.specs.Blocks.{block_at, states_of};
ghost use Rattle.sorted_systems.specs.Systems.{IsSystem, system_from};
ghost use Rattle.refiner.specs.Cells.{AreCells, AreCounted, AreEdgesWithin, AreEdgesBetween, class_below, class_after, round_values, round_voids, source_at};
ghost use Rattle.refiner.specs.Making.{trit_in};
ghost use Rattle.refiner.specs.Touched.{AreMoved};

use crate::cells::Cells;
use crate::coarse::Coarse;
use crate::comparing::is_same;
use crate::edges::{group_end, read_labels};
use crate::moved::Moved;
use edge_store::EdgeStore;
use iface::{Iface, Update};
use modalities::Three;
use outside::Steps;
use refinable_partition::Partition;
use std::alloc::{AllocError, Global};
use std::sync::ledger::Ledger;

/// Takes the splitter out of the cell of one source: its edges into the splitter get a cell of
/// their own. Also the value of the source, and that of the untouched members of its block.
fn update_one<I: Iface, L: Ledger>(
    alloc: Global,
    iface: &I,
    shapes: &[I::Shape],
    store: &EdgeStore<I::Label>,
    blocks: &Partition,
    coarse: &Coarse,
    s: u32,
    c: u32,
    x: u32,
    edges: &[u32],
    labels: &mut Vec<I::Label>,
    cells: &mut Cells<I::Weight>,
    steps: &mut Steps<L>,
) -> Result<(Three, Three), AllocError>
    requires one_shape { length shapes.now ≡ store.now.states }
    requires system { IsSystem (I.node iface.now) (I.kin iface.now) (I.fits iface.now)
        (system_from 0 shapes.now store.now.edges) }
    requires within { (t : ℕ) → t < states_of blocks.now → block_at blocks.now t ≡ s →
        block_at coarse.now t ≡ c }
    requires in_blocks { states_of blocks.now ≡ store.now.states }
    requires in_coarse { states_of coarse.now ≡ store.now.states }
    requires in_range { (t : ℕ) → t < states_of blocks.now →
        block_at coarse.now t < coarse.now.count }
    requires cells { AreCells (I.toward iface.now) shapes.now store.now.edges
        (class_below blocks.now coarse.now s x) cells.old.of.items cells.old.weights.items }
    requires counted { AreCounted cells.old.of.items cells.old.sizes.items
        cells.old.weights.items }
    requires group { AreEdgesBetween store.now.edges x blocks.now s edges.now }
    requires few { length edges.now < 2 ^ 26 }
    requires room { length cells.old.weights.items < 2 ^ 32 }
    requires steps_fit { steps.old ≤ 2 ^ 62 }
    ensures one_more { IfOk result (λ _.
        length cells.new.weights.items ≤ length cells.old.weights.items + 1) }
    ensures sizes { IfOk result (λ _. AreCounted cells.new.of.items cells.new.sizes.items
        cells.new.weights.items) }
    ensures cells { IfOk result (λ _. AreCells (I.toward iface.now) shapes.now store.now.edges
        (class_below blocks.now coarse.now s (x + 1)) cells.new.of.items
        cells.new.weights.items) }
    ensures three { IfOk result (λ r. (shape : I.Shape) → slice_get shapes.now x ≡ Some shape →
        r.0 ≡ I.value iface.now shape (labels_from store.now.edges x)
        (map (trit_in blocks.now coarse.now s c) (targets_from store.now.edges x))) }
    ensures void { IfOk result (λ r. (shape : I.Shape) → slice_get shapes.now x ≡ Some shape →
        r.1 ≡ I.value iface.now shape (labels_from store.now.edges x) (without_splitter
        (map (trit_in blocks.now coarse.now s c) (targets_from store.now.edges x)))) }
    ensures counted { IfOk result (λ _. steps.new ≡ steps.old + length edges.now) }
    ensures grows { steps.old ≤ steps.new }
{
    store.is_stored();
    read_labels(store, edges, labels)?;
    let cell = cells.of[edges[0] as usize];
    let Update { part, three, void } = iface.update(
        alloc,
        labels.as_slice(),
        &mut cells.weights[cell as usize],
        steps,
    )?;
    cells.part(edges, cell, part)?;
    Ok((three, void))
}

/// Takes the splitter out of the cells of all sources of these edges, which are those into the
/// splitter in order. `moved` gets the sources whose value is not that of the untouched members of
/// their block, in place of what it had.
pub(crate) fn update_cells<I: Iface, L: Ledger>(
    alloc: Global,
    iface: &I,
    shapes: &[I::Shape],
    store: &EdgeStore<I::Label>,
    blocks: &Partition,
    coarse: &Coarse,
    s: u32,
    c: u32,
    edges: &[u32],
    labels: &mut Vec<I::Label>,
    cells: &mut Cells<I::Weight>,
    moved: &mut Vec<Moved>,
    steps: &mut Steps<L>,
) -> Result<(), AllocError>
    requires one_shape { length shapes.now ≡ store.now.states }
    requires system { IsSystem (I.node iface.now) (I.kin iface.now) (I.fits iface.now)
        (system_from 0 shapes.now store.now.edges) }
    requires within { (t : ℕ) → t < states_of blocks.now → block_at blocks.now t ≡ s →
        block_at coarse.now t ≡ c }
    requires in_blocks { states_of blocks.now ≡ store.now.states }
    requires in_coarse { states_of coarse.now ≡ store.now.states }
    requires in_range { (t : ℕ) → t < states_of blocks.now →
        block_at coarse.now t < coarse.now.count }
    requires cells { AreCells (I.toward iface.now) shapes.now store.now.edges
        (λ _. block_at coarse.now) cells.old.of.items cells.old.weights.items }
    requires counted { AreCounted cells.old.of.items cells.old.sizes.items
        cells.old.weights.items }
    requires edges { AreEdgesWithin store.now.edges blocks.now s edges.now }
    requires few { length edges.now < 2 ^ 26 }
    requires room { length cells.old.weights.items + length edges.now ≤ 2 ^ 32 }
    requires steps_fit { steps.old ≤ 2 ^ 61 + 2 ^ 59 }
    ensures few_more { IfOk result (λ _.
        length cells.new.weights.items ≤ length cells.old.weights.items + length edges.now) }
    ensures cells { IfOk result (λ _. AreCells (I.toward iface.now) shapes.now store.now.edges
        (class_after blocks.now coarse.now s) cells.new.of.items cells.new.weights.items) }
    ensures sizes { IfOk result (λ _. AreCounted cells.new.of.items cells.new.sizes.items
        cells.new.weights.items) }
    ensures moved { IfOk result (λ _. AreMoved
        (round_values (I.value iface.now) (system_from 0 shapes.now store.now.edges)
        (trit_in blocks.now coarse.now s c))
        (round_voids (I.value iface.now) (system_from 0 shapes.now store.now.edges)
        (trit_in blocks.now coarse.now s c)) blocks.now moved.new.items) }
    ensures counted { IfOk result (λ _. steps.new ≡ steps.old + length edges.now) }
    ensures grows { steps.old ≤ steps.new }
{
    store.is_stored();
    moved.clear();
    let mut from = 0;
    while from < edges.len() {
        let to = group_end(store, edges, from);
        let x = store.source(edges[from]);
        let (three, void) = update_one(
            alloc,
            iface,
            shapes,
            store,
            blocks,
            coarse,
            s,
            c,
            x,
            &edges[from..to],
            labels,
            cells,
            steps,
        )?;
        if !is_same(&three, &void) {
            let block = blocks.block_of(x);
            moved.push(Moved {
                block,
                state: x,
                three,
                void,
            })?;
        }
        from = to;
    }
    Ok(())
}
