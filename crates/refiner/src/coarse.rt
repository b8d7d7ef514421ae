//! The coarse blocks.
//!
//! Shape: one array has the coarse block of each state, and one how many members each coarse block
//! has. Members that leave their coarse block cost one write each.
//! Seen as: a partition with no marks (`refinable_partition`).

ghost use Rattle.std.specs.Prelude.{◌≡◌, ◌≢◌, ◌+◌, ◌<◌, ◌≤◌, ◌^◌, ◌⊎◌, ℕ, length, replicate, slice_index, All, AllPairs, IfOk};
ghost use Rattle.refinable_partition.specs.Blocks.{block_at, states_of, size_in};

use crate::numbering::renumber;
use std::alloc::{AllocError, Global};
use std::marker::Model;

/// The coarse block of each state, and the sizes of the coarse blocks.
#[derive(Drop)]
pub(crate) struct Coarse {
    of: Vec<u32>,
    sizes: Vec<u32>,
}

impl Model for Coarse {
    ghost use Rattle.std.specs.Prelude.{[], length};
    ghost use Rattle.refinable_partition.specs.Blocks.{Blocks};
    ghost use Rattle.refiner.specs.Sized.{AreSized};

    ghost Value = { Blocks };

    ghost view = { λ q. record {
      block = q.of.items;
      marked = [];
      count = length q.sizes.items;
    } };

    ghost invariant = { λ q. AreSized q.of.items q.sizes.items };
}

impl Coarse {
    /// One coarse block of all n states, and none where n is 0.
    pub(crate) fn one_block(alloc: Global, n: u32) -> Result<Coarse, AllocError>
        requires { n < 2 ^ 26 }
        ensures block { IfOk result (λ q. q.block ≡ replicate n 0) }
        ensures none { IfOk result (λ q. n ≡ 0 → q.count ≡ 0) }
        ensures small { IfOk result (λ q. q.count ≤ 1) }
        ensures one { IfOk result (λ q. 0 < n → q.count ≡ 1) }
    {
        Ok(Coarse {
            of: vec![in alloc; 0u32; n as usize]?,
            sizes: vec![in alloc; n; n.min(1) as usize]?,
        })
    }

    /// What holds of all coarse blocks. Nothing is read or done.
    pub(crate) fn is_laid_out(&self)
        ensures few_blocks { self.now.count ≤ states_of self.now }
        ensures in_range { (x : ℕ) → x < states_of self.now → block_at self.now x < self.now.count }
    {
        let _sizes = &self.sizes;
    }

    /// How many coarse blocks there are.
    pub(crate) fn blocks(&self) -> u32
        ensures blocks { result ≡ self.now.count }
    {
        self.sizes.len() as u32
    }

    /// The coarse block of state x.
    pub(crate) fn block_of(&self, x: u32) -> u32
        requires { x < states_of self.now }
        ensures block { result ≡ block_at self.now x }
        ensures in_range { result < self.now.count }
    {
        self.of[x as usize]
    }

    /// How many members coarse block c has.
    pub(crate) fn size(&self, c: u32) -> u32
        requires { c < self.now.count }
        ensures members { result ≡ size_in self.now.block c }
    {
        self.sizes[c as usize]
    }

    /// Makes some states of coarse block c, each listed once, a coarse block of their own. Some
    /// member stays.
    pub(crate) fn take_out(&mut self, states: &[u32], c: u32) -> Result<(), AllocError>
        requires live { c < self.old.count }
        requires each { All (λ x. (x < states_of self.old) × (block_at self.old x ≡ c)) states.now }
        requires once { AllPairs (λ x y. x ≢ y) states.now }
        requires some { 0 < length states.now }
        requires proper { length states.now < size_in self.old.block c }
        ensures one_more { IfOk result (λ _. self.new.count ≡ self.old.count + 1) }
        ensures states { IfOk result (λ _. states_of self.new ≡ states_of self.old) }
        ensures moved { IfOk result (λ _.
            All (λ x. block_at self.new x ≡ self.old.count) states.now) }
        ensures others { IfOk result (λ _. (x : ℕ) → All (λ y. y ≢ x) states.now →
            block_at self.new x ≡ block_at self.old x) }
    {
        let new = self.sizes.len() as u32;
        let many = states.len() as u32;
        self.sizes.push(many)?;
        self.sizes[c as usize] -= many;
        renumber(&mut self.of, states, new);
        Ok(())
    }
}
