//! The next splitter: a block with at most half of the members of its coarse block. It leaves it.
//!
//! A list has a member of each block that may be such. What has been more than half of its coarse
//! block is so until it splits, since coarse blocks only lose members. So no other block is looked
//! at, and each choice is one comparison of two sizes.

ghost use Rattle.std.specs.Prelude.{◌≡◌, ◌≢◌, ◌+◌, ◌<◌, ◌≤◌, ◌^◌, ◌==◌, if◌then◌else◌, ℕ, length, slice_index, [], All, IfOk, MatchOption};
ghost use Rattle.refinable_partition.specs.Blocks.{block_at, states_of};
ghost use Rattle.refiner.specs.Making.{AreNested, AreSingle, IsHalf, IsTakenOut};
ghost use Rattle.refiner.specs.Recorded.{Split as TheSplit};
ghost use Rattle.refiner.specs.Waiting.{AddsParts, AddsSplits, AreListed, AreWaiting};
ghost use Rattle.refiner.specs.declared.parts.Part.{Part as ThePart};

use crate::coarse::Coarse;
use crate::history::Splits;
use crate::parts::Part;
use refinable_partition::Partition;
use std::alloc::AllocError;

/// A state whose block has at most half of the members of its coarse block. States of other blocks
/// are taken off the list.
pub(crate) fn find_half(blocks: &Partition, coarse: &Coarse, waiting: &mut Vec<u32>) -> Option<u32>
    requires states { states_of coarse.now ≡ states_of blocks.now }
    requires nested { AreNested blocks.now coarse.now }
    requires waiting { AreWaiting blocks.now coarse.now waiting.old.items }
    ensures waiting { AreWaiting blocks.now coarse.now waiting.new.items }
    ensures half { MatchOption result (AreSingle blocks.now coarse.now)
        (λ x. (x < states_of blocks.now) × IsHalf blocks.now coarse.now x) }
{
    while let Some(x) = waiting.last().copied() {
        let size = blocks.size(blocks.block_of(x)) as u64;
        let all = coarse.size(coarse.block_of(x)) as u64;
        if 2 * size <= all {
            return Some(x);
        }
        let _ = waiting.pop();
    }
    None
}

/// Adds a member of each part.
fn add_parts(blocks: &Partition, parts: &[Part], waiting: &mut Vec<u32>) -> Result<(), AllocError>
    requires live { All (λ (t : ThePart). t.block < blocks.now.count) parts.now }
    ensures { IfOk result (λ _.
        AddsParts blocks.now parts.now waiting.old.items waiting.new.items) }
{
    for part in parts {
        let members = blocks.members(part.block);
        waiting.push(members[0])?;
    }
    Ok(())
}

/// Adds a member of each part of each split.
pub(crate) fn add_waiting(
    blocks: &Partition,
    splits: &Splits<'_>,
    waiting: &mut Vec<u32>,
) -> Result<(), AllocError>
    requires live { All (λ (s : TheSplit).
        All (λ (t : ThePart). t.block < blocks.now.count) s.parts) splits.now }
    ensures { IfOk result (λ _.
        AddsSplits blocks.now splits.now waiting.old.items waiting.new.items) }
{
    for k in 0..splits.len() {
        add_parts(blocks, splits.split(k).parts, waiting)?;
    }
    Ok(())
}

/// Adds a member of each block.
pub(crate) fn list_blocks(blocks: &Partition, waiting: &mut Vec<u32>) -> Result<(), AllocError>
    requires none { waiting.old.items ≡ [] }
    ensures { IfOk result (λ _. AreListed blocks.now blocks.now.count waiting.new.items) }
{
    for b in 0..blocks.blocks() {
        let members = blocks.members(b);
        waiting.push(members[0])?;
    }
    Ok(())
}

/// Makes the members of block s a coarse block of their own. They are some and not all members of
/// coarse block c.
pub(crate) fn take_out(
    blocks: &Partition,
    coarse: &mut Coarse,
    s: u32,
    c: u32,
) -> Result<(), AllocError>
    requires live { s < blocks.now.count }
    requires coarse_live { c < coarse.old.count }
    requires states { states_of coarse.old ≡ states_of blocks.now }
    requires within { (x : ℕ) → x < states_of blocks.now →
        block_at blocks.now x ≡ s → block_at coarse.old x ≡ c }
    requires proper { (y : ℕ) × (y < states_of blocks.now) × (block_at coarse.old y ≡ c)
        × (block_at blocks.now y ≢ s) }
    ensures out { IfOk result (λ _. IsTakenOut blocks.now coarse.old s coarse.new) }
    ensures one_more { IfOk result (λ _. coarse.new.count ≡ coarse.old.count + 1) }
    ensures states { IfOk result (λ _. states_of coarse.new ≡ states_of coarse.old) }
{
    coarse.take_out(blocks.members(s), c)?;
    Ok(())
}

/// Counts one scan more for each member of block s.
pub(crate) fn count_scans(blocks: &Partition, s: u32, scans: &mut Vec<u32>)
    requires live { s < blocks.now.count }
    requires one_each { length scans.old.items ≡ states_of blocks.now }
    requires few { All (λ k. k < 2 ^ 26) scans.old.items }
    ensures one_each { length scans.new.items ≡ length scans.old.items }
    ensures counted { (x : ℕ) → x < states_of blocks.now → slice_index scans.new.items x
        ≡ slice_index scans.old.items x + (if block_at blocks.now x == s then 1 else 0) }
{
    for x in blocks.members(s) {
        scans[*x as usize] += 1;
    }
}
