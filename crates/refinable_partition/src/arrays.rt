//! Steps over the arrays of a partition.

ghost use Rattle.std.specs.Prelude.{◌≡◌, ◌≢◌, ◌<◌, ◌↔◌, ℕ, length, slice_index, IfOk, IsTrue, All, AllPairs};
ghost use Rattle.refinable_partition.specs.Layout.{AreMoved};

use std::alloc::{AllocError, Global};

/// The numbers below n, in order.
pub fn counted_up(alloc: Global, n: u32) -> Result<Vec<u32>, AllocError>
    ensures len { IfOk result (λ v. length v.items ≡ n) }
    ensures each { IfOk result (λ v. (k : ℕ) → k < n → slice_index v.items k ≡ k) }
{
    let mut found = Vec::with_capacity(alloc, n as usize)?;
    for i in 0..n {
        found.push(i)?;
    }
    Ok(found)
}

/// Whether some and not all members of a block of this size are marked.
pub fn is_mixed(marked: u32, size: u32) -> bool
    ensures mixed { IsTrue result ↔ ((0 < marked) × (marked < size)) }
{
    0 < marked && marked < size
}

/// Gives some states, each listed once, a new block number.
pub fn renumber(states: &[u32], block: &mut Vec<u32>, new: u32)
    requires in_range { All (λ x. x < length block.old.items) states.now }
    requires once { AllPairs (λ x y. x ≢ y) states.now }
    ensures len { length block.new.items ≡ length block.old.items }
    ensures moved { All (λ x. slice_index block.new.items x ≡ new) states.now }
    ensures others { (x : ℕ) → All (λ y. y ≢ x) states.now →
        slice_index block.new.items x ≡ slice_index block.old.items x }
    ensures counted { (old : ℕ) → old ≢ new →
        All (λ x. slice_index block.old.items x ≡ old) states.now →
        AreMoved old new (length states.now) block.old.items block.new.items }
{
    for x in states {
        block[*x as usize] = new;
    }
}
