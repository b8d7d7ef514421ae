//! Blocks that split by the values of their touched members. The other members are not looked at.

ghost use Rattle.std.specs.Prelude.{◌≡◌, ◌≢◌, ◌≤◌, ◌<◌, ◌+◌, ℕ, true, List, [], length, slice_index_or, All, Any, IfOk};
ghost use Rattle.modalities.specs.declared.three.Three.{Three};
ghost use Rattle.refinable_partition.specs.Blocks.{block_at, mark_at, states_of, IsSameBlocks};
ghost use Rattle.refiner.specs.declared.moved.Moved.{Moved};
ghost use Rattle.refiner.specs.Grouping.{IsUnmarked, IsCut, AreCut};
ghost use Rattle.refiner.specs.Touched.{AreMoved, AreMovedOf, AreRising, HaveOneVoid, IsValueRun};

use crate::comparing::is_same;
use crate::history::History;
use crate::moved::{Moved, by_block_and_value};
use crate::parts::Part;
use modalities::Three;
use refinable_partition::Partition;
use std::alloc::{AllocError, Global};

/// Marks the states of a list.
fn mark_moved(blocks: &mut Partition, moved: &[Moved])
    requires in_range { All (λ (m : Moved). m.state < states_of blocks.old) moved.now }
    requires unmarked { IsUnmarked blocks.old }
    ensures blocks { IsSameBlocks blocks.old blocks.new }
    ensures all { All (λ (m : Moved). mark_at blocks.new m.state ≡ true) moved.now }
    ensures only { (x : ℕ) → x < states_of blocks.old → mark_at blocks.new x ≡ true →
        Any (λ (m : Moved). m.state ≡ x) moved.now }
{
    for m in moved {
        blocks.mark(m.state);
    }
}

/// The end of the run of one value that begins at a place.
fn value_end(moved: &[Moved], from: usize) -> usize
    requires place { from < length moved.now }
    requires rising { AreRising moved.now }
    ensures { IsValueRun moved.now from result }
{
    let first = &moved[from].three;
    for k in from + 1..moved.len() {
        if !is_same(&moved[k].three, first) {
            return k;
        }
    }
    moved.len()
}

/// Splits a block by the values of its members. The list has those that do not have the void value,
/// in the order of their values; where there are others, they keep the number of the block. The
/// last list is filled anew: `parts` has the parts.
fn split_block(
    alloc: Global,
    blocks: &mut Partition,
    b: u32,
    moved: &[Moved],
    parts: &mut Vec<Part>,
) -> Result<(), AllocError>
    requires some { 0 < length moved.now }
    requires told { (all : List Three) × (void : Three) ×
        AreMovedOf all void blocks.old b moved.now }
    requires rising { AreRising moved.now }
    requires unmarked { IsUnmarked blocks.old }
    requires live { b < blocks.old.count }
    ensures { IfOk result (λ _. (all : List Three) (void : Three) →
        AreMovedOf all void blocks.old b moved.now →
        IsCut all b blocks.old blocks.new parts.new.items) }
{
    parts.clear();
    let mut from = 0;
    while from < moved.len() {
        let to = value_end(moved, from);
        mark_moved(blocks, &moved[from..to]);
        let three = moved[from].three.copied(alloc)?;
        if let Some(block) = blocks.split_marked(b) {
            parts.push(Part { block, three })?;
        } else {
            // All that is left of the block has this value.
            parts.push(Part { block: b, three })?;
            return Ok(());
        }
        from = to;
    }
    let three = moved[0].void.copied(alloc)?;
    parts.push(Part { block: b, three })?;
    Ok(())
}

/// The end of the run of one block that begins at a place.
fn block_end(moved: &[Moved], from: usize) -> usize
    requires place { from < length moved.now }
    ensures later { from < result }
    ensures within { result ≤ length moved.now }
    ensures alike { (k : ℕ) (d : Moved) → from ≤ k → k < result →
        (slice_index_or moved.now k d).block ≡ (slice_index_or moved.now from d).block }
    ensures other { (d : Moved) → result < length moved.now →
        (slice_index_or moved.now result d).block ≢ (slice_index_or moved.now from d).block }
{
    let b = moved[from].block;
    for k in from + 1..moved.len() {
        if moved[k].block != b {
            return k;
        }
    }
    moved.len()
}

/// Splits each block by the values of its members, of which `moved` has those that do not have the
/// value of the untouched ones. Adds the splits to the round that has not ended.
pub(crate) fn split_touched(
    alloc: Global,
    blocks: &mut Partition,
    moved: &mut Vec<Moved>,
    parts: &mut Vec<Part>,
    history: &mut History,
) -> Result<(), AllocError>
    requires told { (all : List Three) × (voids : List Three) ×
        AreMoved all voids blocks.old moved.old.items × HaveOneVoid voids blocks.old }
    requires unmarked { IsUnmarked blocks.old }
    requires begins { history.old.splits ≡ [] }
    ensures cut { IfOk result (λ _. (all voids : List Three) →
        AreMoved all voids blocks.old moved.old.items → HaveOneVoid voids blocks.old →
        AreCut all blocks.old.count blocks.old blocks.new history.new.splits) }
    ensures rounds { IfOk result (λ _. history.new.rounds ≡ history.old.rounds) }
{
    blocks.is_laid_out();
    moved.sort_unstable_by(|m, n| by_block_and_value(m, n));
    let mut from = 0;
    while from < moved.len() {
        let to = block_end(moved.as_slice(), from);
        let parent = moved[from].block;
        // A block with one member has no parts.
        if blocks.members(parent).len() < 2 {
            from = to;
            continue;
        }
        split_block(alloc, blocks, parent, &moved[from..to], parts)?;
        if 2 <= parts.len() {
            history.add_split(parent, parts)?;
        }
        from = to;
    }
    Ok(())
}
