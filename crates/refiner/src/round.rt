//! One round, and all of them.

ghost use Rattle.std.specs.Prelude.{◌≡◌, ◌+◌, ◌*◌, ◌<◌, ◌≤◌, ◌^◌, ◌==◌, if◌then◌else◌, ℕ, List, [], length, IfOk, slice_index};
ghost use Rattle.refinable_partition.specs.Blocks.{block_at, states_of};
ghost use Rattle.sorted_systems.specs.Systems.{IsSystem, IsGreatestStable, system_from};
ghost use Rattle.refiner.specs.Cells.{AreCells, AreCounted, many_into, scanned};
ghost use Rattle.refiner.specs.History.{IsRound, IsStart, Moment};
ghost use Rattle.refiner.specs.Recorded.{round_with};
ghost use Rattle.refiner.specs.declared.parts.Start.{Start};
ghost use Rattle.refiner.specs.Making.{AreAgreeing, AreNested, AreTorn, LeadsTo};
ghost use Rattle.refiner.specs.Ready.{IsReady, moment_at};

use crate::buffers::Buffers;
use crate::cells::Cells;
use crate::edges::edges_within;
use crate::history::History;
use crate::parts::Numbers;
use crate::progress::Progress;
use crate::split::split_touched;
use crate::splitter::{add_waiting, count_scans, find_half, take_out};
use crate::values::update_cells;
use edge_store::EdgeStore;
use iface::Iface;
use outside::Steps;
use std::alloc::{AllocError, Global};
use std::sync::ledger::Ledger;

/// One round: the block of x leaves its coarse block, of which it is not all, and each block splits
/// by its members' values. The splits are added to the history, and its round is not ended. Also
/// how many edges lead into the block of x.
fn one_round<I: Iface, L: Ledger>(
    alloc: Global,
    iface: &I,
    shapes: &[I::Shape],
    store: &EdgeStore<I::Label>,
    progress: &mut Progress,
    cells: &mut Cells<I::Weight>,
    buffers: &mut Buffers<I::Label>,
    history: &mut History,
    number: u32,
    x: u32,
    steps: &mut Steps<L>,
) -> Result<(Numbers, u64), AllocError>
    requires one_shape { length shapes.now ≡ store.now.states }
    requires system { IsSystem (I.node iface.now) (I.kin iface.now) (I.fits iface.now)
        (system_from 0 shapes.now store.now.edges) }
    requires small { number < 2 ^ 26 }
    requires steps_fit { steps.old ≤ 2 ^ 61 + 2 ^ 59 }
    requires ready { IsReady store.now.states number progress.old }
    requires nested { AreNested progress.old.blocks progress.old.coarse }
    requires torn { (y : ℕ) × AreTorn progress.old.blocks progress.old.coarse x y }
    requires agreeing { AreAgreeing (I.agree iface.now) (system_from 0 shapes.now store.now.edges)
        (moment_at progress.old) }
    requires cells { AreCells (I.toward iface.now) shapes.now store.now.edges
        (λ _. block_at progress.old.coarse) cells.old.of.items cells.old.weights.items }
    requires counted { AreCounted cells.old.of.items cells.old.sizes.items
        cells.old.weights.items }
    requires room { length cells.old.weights.items + 2 ^ 26 ≤ 2 ^ 32 }
    requires begins { history.old.splits ≡ [] }
    ensures rounds { IfOk result (λ _. history.new.rounds ≡ history.old.rounds) }
    ensures round { IfOk result (λ r. IsRound (I.node iface.now) (I.value iface.now)
        (system_from 0 shapes.now store.now.edges) number (moment_at progress.old)
        (moment_at progress.new) (round_with r.0 history.new.splits)) }
    ensures ready { IfOk result (λ _. IsReady store.now.states (number + 1) progress.new) }
    ensures splitter { IfOk result (λ r. r.0.splitter ≡ block_at progress.old.blocks x) }
    ensures left { IfOk result (λ r. r.0.coarse
        ≡ slice_index progress.old.numbers.items (block_at progress.old.coarse x)) }
    ensures one_more { IfOk result (λ _.
        progress.new.coarse.count ≡ progress.old.coarse.count + 1) }
    ensures scans { IfOk result (λ r. (z : ℕ) → z < store.now.states →
        slice_index progress.new.scans.items z ≡ slice_index progress.old.scans.items z
        + (if block_at progress.old.blocks z == r.0.splitter then 1 else 0)) }
    ensures rise { IfOk result (λ r. steps.new ≡ steps.old + r.1) }
    ensures counted { IfOk result (λ r.
        r.1 ≡ many_into progress.old.blocks r.0.splitter store.now.edges) }
    ensures cells { IfOk result (λ _. AreCells (I.toward iface.now) shapes.now store.now.edges
        (λ _. block_at progress.new.coarse) cells.new.of.items cells.new.weights.items) }
    ensures sizes { IfOk result (λ _. AreCounted cells.new.of.items cells.new.sizes.items
        cells.new.weights.items) }
    ensures few_more { IfOk result (λ r.
        length cells.new.weights.items ≤ length cells.old.weights.items + r.1) }
    ensures grows { steps.old ≤ steps.new }
{
    let splitter = progress.blocks.block_of(x);
    let c = progress.coarse.block_of(x);
    store.is_stored();
    progress.blocks.is_laid_out();
    edges_within(store, &progress.blocks, splitter, &mut buffers.edges)?;
    update_cells(
        alloc,
        iface,
        shapes,
        store,
        &progress.blocks,
        &progress.coarse,
        splitter,
        c,
        buffers.edges.as_slice(),
        &mut buffers.labels,
        cells,
        &mut buffers.moved,
        steps,
    )?;
    count_scans(&progress.blocks, splitter, &mut progress.scans);
    take_out(&progress.blocks, &mut progress.coarse, splitter, c)?;
    split_touched(
        alloc,
        &mut progress.blocks,
        &mut buffers.moved,
        &mut buffers.parts,
        history,
    )?;
    let splits = history.open_splits();
    add_waiting(&progress.blocks, &splits, &mut progress.waiting)?;
    let coarse = progress.numbers[c as usize];
    let inner = 2 * number + 1;
    let outer = 2 * number + 2;
    progress.numbers[c as usize] = outer;
    progress.numbers.push(inner)?;
    // There are at most as many coarse blocks as states, so the rounds end.
    progress.coarse.is_laid_out();
    let numbers = Numbers {
        splitter,
        coarse,
        inner,
        outer,
    };
    Ok((numbers, buffers.edges.len() as u64))
}

/// Rounds until each coarse block is one block. Also how many labels were counted.
pub(crate) fn all_rounds<I: Iface, L: Ledger>(
    alloc: Global,
    iface: &I,
    shapes: &[I::Shape],
    store: &EdgeStore<I::Label>,
    progress: &mut Progress,
    cells: &mut Cells<I::Weight>,
    steps: &mut Steps<L>,
) -> Result<(History, u64), AllocError>
    requires one_shape { length shapes.now ≡ store.now.states }
    requires system { IsSystem (I.node iface.now) (I.kin iface.now) (I.fits iface.now)
        (system_from 0 shapes.now store.now.edges) }
    requires few_edges { length store.now.edges < 2 ^ 26 }
    requires few_states { store.now.states < 2 ^ 26 }
    requires steps_fit { steps.old ≤ 2 ^ 61 + 2 ^ 58 }
    requires ready { IsReady store.now.states 0 progress.old }
    requires starts { (start : List Start) × IsStart (I.node iface.now) (I.value iface.now)
        (system_from 0 shapes.now store.now.edges) start (moment_at progress.old) }
    requires cells { AreCells (I.toward iface.now) shapes.now store.now.edges
        (λ _. block_at progress.old.coarse) cells.old.of.items cells.old.weights.items }
    requires counted { AreCounted cells.old.of.items cells.old.sizes.items
        cells.old.weights.items }
    requires few_cells { length cells.old.weights.items ≤ 2 ^ 26 }
    ensures history { IfOk result (λ r. (later : List Moment) ×
        LeadsTo (I.node iface.now) (I.value iface.now) (system_from 0 shapes.now store.now.edges)
        (moment_at progress.old) later r.0.rounds (moment_at progress.new)
        progress.new.scans.items) }
    ensures greatest { IfOk result (λ _. IsGreatestStable (I.agree iface.now)
        (system_from 0 shapes.now store.now.edges) progress.new.blocks.block) }
    ensures states { IfOk result (λ _. states_of progress.new.blocks ≡ store.now.states) }
    ensures one_scan { IfOk result (λ _. length progress.new.scans.items ≡ store.now.states) }
    ensures rise { IfOk result (λ r. steps.new ≡ steps.old + r.1) }
    ensures counted { IfOk result (λ r. r.1 ≡ scanned progress.new.scans.items store.now.edges) }
    ensures grows { steps.old ≤ steps.new }
{
    store.is_stored();
    let mut history = History::new(alloc);
    let mut buffers = Buffers::new(alloc);
    let mut labels = 0u64;
    let mut number = 0u32;
    while let Some(x) = find_half(&progress.blocks, &progress.coarse, &mut progress.waiting) {
        let (numbers, many) = one_round(
            alloc,
            iface,
            shapes,
            store,
            progress,
            cells,
            &mut buffers,
            &mut history,
            number,
            x,
            steps,
        )?;
        history.end_round(numbers)?;
        number += 1;
        labels += many;
    }
    Ok((history, labels))
}
