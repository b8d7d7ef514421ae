//! The type: its arrays, what callers see of them, and its calls.

ghost use Rattle.std.specs.Prelude.{◌≡◌, ◌≢◌, ◌<◌, ◌≤◌, ◌^◌, ℕ, true, false, length, replicate, Contains, IfOk, IfSome, IfNone, IsSome, ◌↔◌};
ghost use Rattle.refinable_partition.specs.Blocks.{block_at, mark_at, states_of, size_in, IsMembers, IsMixed, IsSplitOff, IsSameBlocks, IsCleared};

use crate::arrays::{counted_up, is_mixed, renumber};
use std::alloc::{AllocError, Global};
use std::marker::Model;

/// Blocks of states, some of them marked.
///
/// `order` has the states, block after block, and `place` says where each state stands in it.
/// Block b has `sizes[b]` places from `first[b]` on, and its `marks[b]` marked members are first.
#[derive(Drop)]
pub struct Partition {
    order: Vec<u32>,
    place: Vec<u32>,
    block: Vec<u32>,
    first: Vec<u32>,
    sizes: Vec<u32>,
    marks: Vec<u32>,
    count: u32,
}

impl Model for Partition {
    ghost use Rattle.refinable_partition.specs.Blocks.{Blocks};
    ghost use Rattle.refinable_partition.specs.Layout.{IsLaidOut, marks_in};

    ghost Value = { Blocks };

    ghost view = { λ p. record {
      block = p.block.items;
      marked = marks_in p.block.items p.place.items p.first.items p.marks.items;
      count = p.count;
    } };

    ghost invariant = { λ p. IsLaidOut p.order.items p.place.items p.block.items
        p.first.items p.sizes.items p.marks.items p.count };
}

impl Partition {
    /// One block of all n states, and none where n is 0. No state is marked. All memory that the
    /// partition ever has is taken here.
    pub fn one_block(alloc: Global, n: u32) -> Result<Partition, AllocError>
        requires { n < 2 ^ 26 }
        ensures block { IfOk result (λ p. p.block ≡ replicate n 0) }
        ensures marked { IfOk result (λ p. (x : ℕ) → mark_at p x ≡ false) }
        ensures none { IfOk result (λ p. n ≡ 0 → p.count ≡ 0) }
        ensures small { IfOk result (λ p. p.count ≤ 1) }
        ensures one { IfOk result (λ p. 0 < n → p.count ≡ 1) }
    {
        let size = n as usize;
        let order = counted_up(alloc, n)?;
        let place = counted_up(alloc, n)?;
        let block = vec![in alloc; 0u32; size]?;
        let first = vec![in alloc; 0u32; size]?;
        let mut sizes = vec![in alloc; 0u32; size]?;
        let marks = vec![in alloc; 0u32; size]?;
        if 0 < n {
            sizes[0] = n;
        }
        Ok(Partition {
            order,
            place,
            block,
            first,
            sizes,
            marks,
            count: n.min(1),
        })
    }

    /// What holds of every partition. Nothing is read or done.
    pub fn is_laid_out(&self)
        ensures few { states_of self.now < 2 ^ 26 }
        ensures few_blocks { self.now.count ≤ states_of self.now }
        ensures in_range { (x : ℕ) → x < states_of self.now → block_at self.now x < self.now.count }
        ensures none_empty { (b : ℕ) → b < self.now.count → Contains self.now.block b }
    {
        let _count = &self.count;
    }

    /// How many states there are.
    pub fn states(&self) -> u32
        ensures states { result ≡ states_of self.now }
        ensures few { result < 2 ^ 26 }
    {
        self.order.len() as u32
    }

    /// How many blocks there are. The blocks are the numbers below it.
    pub fn blocks(&self) -> u32
        ensures blocks { result ≡ self.now.count }
        ensures few { result ≤ states_of self.now }
        ensures in_range { (x : ℕ) → x < states_of self.now → block_at self.now x < result }
    {
        self.count
    }

    /// The members of block b, each once. Their order stays open.
    pub fn members(&self, b: u32) -> &[u32]
        requires { b < self.now.count }
        ensures members { IsMembers self.now b result.now }
        ensures few { length result.now < 2 ^ 26 }
    {
        let from = self.first[b as usize] as usize;
        let to = from + self.sizes[b as usize] as usize;
        &self.order[from..to]
    }

    /// The block of state x.
    pub fn block_of(&self, x: u32) -> u32
        requires { x < states_of self.now }
        ensures block { result ≡ block_at self.now x }
        ensures in_range { result < self.now.count }
    {
        self.block[x as usize]
    }

    /// How many members block b has.
    pub fn size(&self, b: u32) -> u32
        requires { b < self.now.count }
        ensures members { result ≡ size_in self.now.block b }
        ensures some { 0 < result }
    {
        self.members(b).len() as u32
    }

    /// Marks state x. Where it is marked already, nothing changes.
    pub fn mark(&mut self, x: u32)
        requires { x < states_of self.old }
        ensures blocks { IsSameBlocks self.old self.new }
        ensures here { mark_at self.new x ≡ true }
        ensures others { (y : ℕ) → y ≢ x → mark_at self.new y ≡ mark_at self.old y }
    {
        let b = self.block[x as usize] as usize;
        let marked = self.marks[b];
        let from = self.place[x as usize];
        let to = self.first[b] + marked;
        if from < to {
            return;
        }
        let other = self.order[to as usize];
        self.order.swap(from as usize, to as usize);
        self.place.swap(x as usize, other as usize);
        self.marks[b] = marked + 1;
    }

    /// Makes the marked members of block b a new block, where some and not all are marked. The
    /// others keep the number b, and the answer is the new one. Otherwise the blocks stay, and the
    /// answer is None. In both cases the marks in b are gone.
    pub fn split_marked(&mut self, b: u32) -> Option<u32>
        requires { b < self.old.count }
        ensures mixed { IsSome result ↔ IsMixed self.old b }
        ensures number { IfSome result (λ new. new ≡ self.old.count) }
        ensures split { IfSome result (λ new. IsSplitOff self.old b self.new) }
        ensures same { IfNone result (IsSameBlocks self.old self.new) }
        ensures states { states_of self.new ≡ states_of self.old }
        ensures cleared { IsCleared self.old b self.new }
    {
        let from = self.first[b as usize];
        let marked = self.marks[b as usize];
        let size = self.sizes[b as usize];
        self.marks[b as usize] = 0;
        if !is_mixed(marked, size) {
            return None;
        }
        let new = self.count;
        let to = from + marked;
        renumber(
            &self.order[from as usize..to as usize],
            &mut self.block,
            new,
        );
        self.first[new as usize] = from;
        self.sizes[new as usize] = marked;
        self.first[b as usize] = to;
        self.sizes[b as usize] = size - marked;
        self.count = new + 1;
        Some(new)
    }
}
