//! The blocks before the first round: the states by node and value.

ghost use Rattle.std.specs.Prelude.{◌≡◌, ◌+◌, ◌<◌, ◌≤◌, ◌^◌, ℕ, length, map, slice_index, IfOk};
ghost use Rattle.modalities.specs.declared.three.Three.{Three};
ghost use Rattle.edge_store.specs.Edges.{sources_of};
ghost use Rattle.refinable_partition.specs.Blocks.{block_at, states_of, size_in};
ghost use Rattle.sorted_systems.specs.Systems.{IsSystem, system_from};
ghost use Rattle.refiner.specs.Cells.{AreWhole};
ghost use Rattle.refiner.specs.Grouping.{IsUnmarked};
ghost use Rattle.refiner.specs.History.{IsStart};
ghost use Rattle.refiner.specs.Making.{AreValues, AreByNodeAndValue, first_moment};

use crate::grouping::split_all;
use crate::parts::Start;
use edge_store::EdgeStore;
use iface::Iface;
use modalities::Three;
use outside::Steps;
use refinable_partition::Partition;
use std::alloc::{AllocError, Global};
use std::sync::ledger::Ledger;

/// The value of each state where each target is 2, and its weight towards all states.
pub(crate) fn first_values<I: Iface, L: Ledger>(
    alloc: Global,
    iface: &I,
    shapes: &[I::Shape],
    store: &EdgeStore<I::Label>,
    steps: &mut Steps<L>,
) -> Result<(Vec<Three>, Vec<I::Weight>), AllocError>
    requires one_shape { length shapes.now ≡ store.now.states }
    requires system { IsSystem (I.node iface.now) (I.kin iface.now) (I.fits iface.now)
        (system_from 0 shapes.now store.now.edges) }
    requires steps_fit { steps.old ≤ 2 ^ 61 + 2 ^ 59 }
    ensures values { IfOk result (λ r. AreValues (I.value iface.now)
        (system_from 0 shapes.now store.now.edges) (λ _. 2) r.0.items) }
    ensures weights { IfOk result (λ r. AreWhole (I.toward iface.now) shapes.now store.now.edges
        store.now.states r.1.items) }
    ensures rise { IfOk result (λ _. steps.new ≡ steps.old + length store.now.edges) }
    ensures grows { steps.old ≤ steps.new }
{
    store.is_stored();
    let mut values = Vec::new(alloc);
    let mut weights = Vec::new(alloc);
    for x in 0..store.states() {
        let from = store.from_state(x);
        // It tells how many labels there are up to this state.
        let _first = store.first_from(x);
        let (weight, three) = iface.init(alloc, &shapes[x as usize], from, steps)?;
        values.push(three)?;
        weights.push(weight)?;
    }
    Ok((values, weights))
}

/// The source of each edge, in order.
pub(crate) fn edge_sources<A: Copy>(
    alloc: Global,
    store: &EdgeStore<A>,
) -> Result<Vec<u32>, AllocError>
    ensures { IfOk result (λ v. v.items ≡ sources_of store.now.edges) }
{
    let mut found = Vec::with_capacity(alloc, store.len() as usize)?;
    for e in 0..store.len() {
        found.push(store.source(e))?;
    }
    Ok(found)
}

/// How many edges each state has.
pub(crate) fn edge_counts<A: Copy>(
    alloc: Global,
    store: &EdgeStore<A>,
) -> Result<Vec<u32>, AllocError>
    ensures one_each { IfOk result (λ v. length v.items ≡ store.now.states) }
    ensures counts { IfOk result (λ v. (x : ℕ) → x < store.now.states →
        slice_index v.items x ≡ size_in (sources_of store.now.edges) x) }
{
    let mut found = Vec::with_capacity(alloc, store.states() as usize)?;
    for x in 0..store.states() {
        found.push(store.from_state(x).len() as u32)?;
    }
    Ok(found)
}

/// The node of each state, as a value.
fn node_values<I: Iface>(
    alloc: Global,
    iface: &I,
    shapes: &[I::Shape],
) -> Result<Vec<Three>, AllocError>
    ensures { IfOk result (λ v.
        v.items ≡ map (λ s. Three.Label (I.node iface.now s)) shapes.now) }
{
    let mut values = Vec::new(alloc);
    for shape in shapes {
        values.push(Three::Label(iface.node(shape) as u64))?;
    }
    Ok(values)
}

/// The node and the value of each block.
fn starts_of<I: Iface>(
    alloc: Global,
    iface: &I,
    shapes: &[I::Shape],
    store: &EdgeStore<I::Label>,
    blocks: &Partition,
    values: &[Three],
) -> Result<Vec<Start>, AllocError>
    requires one_shape { length shapes.now ≡ store.now.states }
    requires in_blocks { states_of blocks.now ≡ store.now.states }
    requires values { AreValues (I.value iface.now) (system_from 0 shapes.now store.now.edges)
        (λ _. 2) values.now }
    requires split { AreByNodeAndValue (I.node iface.now) (system_from 0 shapes.now store.now.edges)
        values.now blocks.now }
    ensures { IfOk result (λ start. IsStart (I.node iface.now) (I.value iface.now)
        (system_from 0 shapes.now store.now.edges) start.items
        (first_moment (system_from 0 shapes.now store.now.edges) blocks.now)) }
{
    let mut start = Vec::new(alloc);
    for block in 0..blocks.blocks() {
        let x = blocks.members(block)[0] as usize;
        let node = iface.node(&shapes[x]);
        let three = values[x].copied(alloc)?;
        start.push(Start { block, node, three })?;
    }
    Ok(start)
}

/// Splits one block of all states by node and value.
pub(crate) fn start_blocks<I: Iface>(
    alloc: Global,
    iface: &I,
    shapes: &[I::Shape],
    store: &EdgeStore<I::Label>,
    blocks: &mut Partition,
    values: &[Three],
) -> Result<Vec<Start>, AllocError>
    requires one_shape { length shapes.now ≡ store.now.states }
    requires in_blocks { states_of blocks.old ≡ store.now.states }
    requires values { AreValues (I.value iface.now) (system_from 0 shapes.now store.now.edges)
        (λ _. 2) values.now }
    requires one_block { (x : ℕ) → x < states_of blocks.old → block_at blocks.old x ≡ 0 }
    requires unmarked { IsUnmarked blocks.old }
    ensures start { IfOk result (λ start. IsStart (I.node iface.now) (I.value iface.now)
        (system_from 0 shapes.now store.now.edges) start.items
        (first_moment (system_from 0 shapes.now store.now.edges) blocks.new)) }
    ensures unmarked { IfOk result (λ _. IsUnmarked blocks.new) }
    ensures states { IfOk result (λ _. states_of blocks.new ≡ states_of blocks.old) }
    ensures in_range { IfOk result (λ _. (x : ℕ) → x < states_of blocks.new →
        block_at blocks.new x < blocks.new.count) }
{
    blocks.is_laid_out();
    let nodes = node_values(alloc, iface, shapes)?;
    let _by_node = split_all(alloc, blocks, nodes.as_slice())?;
    let _by_value = split_all(alloc, blocks, values)?;
    blocks.is_laid_out();
    starts_of(alloc, iface, shapes, store, blocks, values)
}
