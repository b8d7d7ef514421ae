//! Classes by number.
ghost use Rattle.std.specs.Prelude.{◌≡◌, ◌≤◌, ◌<◌, ◌^◌, length, slice_index, EachIndex, IsTrue, IfOk};
ghost use Rattle.quotient_writer.specs.Quotient.{is_numbered};
ghost use Rattle.quotient_writer.specs.Blocks.{AreFirsts, first_states};

use std::alloc::{AllocError, Global};

/// For each state the number of its class; classes are numbered 0, 1, 2 by their first states.
/// `firsts` has for each state the first state of its class. The error is want of memory.
pub fn class_numbers(alloc: Global, firsts: &[u32]) -> Result<Vec<u32>, AllocError>
    requires few { length firsts.now < 2 ^ 32 }
    requires firsts { AreFirsts firsts.now }
    ensures numbered { IfOk result (λ labels. IsTrue (is_numbered labels.items)) }
    ensures same_classes { IfOk result (λ labels. first_states labels.items ≡ firsts.now) }
{
    let mut labels = Vec::with_capacity(alloc, firsts.len())?;
    let mut classes = 0u32;
    for i in 0..firsts.len() {
        let first = firsts[i] as usize;
        if first == i {
            labels.push(classes)?;
            classes += 1;
        } else {
            let label = labels[first];
            labels.push(label)?;
        }
    }
    Ok(labels)
}
