//! The worked example, and random marks and splits beside a plain list of lists.

ghost use Rattle.std.specs.Prelude.{◌<◌};

use super::*;
use std::alloc::{AllocError, Global};
use std::process::Abort;
use std::test::Fail;

#[test]
fn two_marked_states_of_three_split_off(rt: HostRuntime) -> Result<(), Fail> {
    let mut partition = Partition::one_block(rt.alloc(), 3)?;
    partition.mark(0);
    partition.mark(2);
    partition.mark(0);
    assert_eq!(rt; partition.split_marked(0), Some(1));
    assert_eq!(rt; partition.blocks(), 2);
    let mut apart = Vec::from_slice(rt.alloc(), partition.members(1))?;
    apart.sort()?;
    assert_eq!(rt; apart.as_slice(), [0, 2].as_slice());
    assert_eq!(rt; partition.members(0), [1].as_slice());
    assert_eq!(rt; partition.split_marked(1), None);
    assert_eq!(rt; Partition::one_block(rt.alloc(), 0)?.blocks(), 0);
    Ok(())
}

/// The members of each block in ascending order, and which states are marked.
#[derive(Drop)]
struct Plain {
    blocks: Vec<Vec<u32>>,
    marked: Vec<bool>,
}

impl Plain {
    fn one_block(alloc: Global, n: u32) -> Result<Plain, AllocError> {
        let mut blocks = Vec::new(alloc);
        if 0 < n {
            blocks.push((0..n).collect(alloc)?)?;
        }
        Ok(Plain {
            blocks,
            marked: vec![in alloc; false; n as usize]?,
        })
    }

    fn mark(&mut self, x: u32) {
        if let Some(mark) = self.marked.get_mut(x as usize) {
            *mark = true;
        }
    }

    fn split_marked(&mut self, alloc: Global, b: u32) -> Result<Option<u32>, AllocError> {
        let mut kept = Vec::new(alloc);
        let mut moved = Vec::new(alloc);
        let new = self.blocks.len() as u64;
        let Some(members) = self.blocks.get_mut(b as usize) else {
            return Ok(None);
        };
        for x in members.iter() {
            match self.marked.get_mut(*x as usize) {
                Some(mark) if *mark => {
                    *mark = false;
                    moved.push(*x)?;
                }
                _ => kept.push(*x)?,
            }
        }
        if kept.is_empty() || moved.is_empty() {
            return Ok(None);
        }
        *members = kept;
        self.blocks.push(moved)?;
        Ok(u32::try_from(new).ok())
    }
}

/// A number below n, by a linear congruence.
fn below(seed: &mut u64, n: u32) -> u32
    requires { 0 < n }
    ensures { result < n }
{
    *seed = seed
        .wrapping_mul(6364136223846793005)
        .wrapping_add(1442695040888963407);
    ((*seed >> 33) % n as u64) as u32
}

fn compare(
    rt: &impl Abort,
    alloc: Global,
    partition: &Partition,
    plain: &Plain,
) -> Result<(), AllocError> {
    assert_eq!(rt; partition.blocks() as usize, plain.blocks.len());
    for b in 0..partition.blocks() {
        let mut members = Vec::from_slice(alloc, partition.members(b))?;
        members.sort()?;
        let wanted = plain
            .blocks
            .get(b as usize)
            .map(|members| members.as_slice());
        assert_eq!(rt; Some(members.as_slice()), wanted);
        assert_eq!(rt; partition.size(b) as usize, members.len());
    }
    for x in 0..partition.states() {
        let members = plain.blocks.get(partition.block_of(x) as usize);
        assert!(rt;
            members.is_some_and(|members| members.contains(&x)),
            "state {x}"
        );
    }
    Ok(())
}

/// Marks one state in both, where there is one.
fn mark_one(seed: &mut u64, partition: &mut Partition, plain: &mut Plain) {
    let states = partition.states();
    if 0 < states {
        let x = below(seed, states);
        partition.mark(x);
        plain.mark(x);
    }
}

/// Splits one block in both, where there is one.
fn split_one(
    rt: &impl Abort,
    alloc: Global,
    seed: &mut u64,
    partition: &mut Partition,
    plain: &mut Plain,
) -> Result<(), AllocError> {
    let blocks = partition.blocks();
    if 0 < blocks {
        let b = below(seed, blocks);
        let new = partition.split_marked(b);
        assert_eq!(rt; new, plain.split_marked(alloc, b)?);
    }
    Ok(())
}

#[test]
fn random_marks_and_splits_agree_with_a_list_of_lists(rt: HostRuntime) -> Result<(), Fail> {
    let mut seed = 7;
    for run in 0..400 {
        let n = run % 24;
        let mut partition = Partition::one_block(rt.alloc(), n)?;
        let mut plain = Plain::one_block(rt.alloc(), n)?;
        for _ in 0..30 {
            mark_one(&mut seed, &mut partition, &mut plain);
            mark_one(&mut seed, &mut partition, &mut plain);
            split_one(&rt, rt.alloc(), &mut seed, &mut partition, &mut plain)?;
            compare(&rt, rt.alloc(), &partition, &plain)?;
        }
    }
    Ok(())
}
