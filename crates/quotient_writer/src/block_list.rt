//! The text of the block list.
ghost use Rattle.std.specs.Prelude.{◌≡◌, ◌<◌, ◌^◌, ◌++◌, length, slice_index, EachIndex, IsTrue, IfOk, OnOk};
ghost use Rattle.quotient_writer.specs.Quotient.{is_numbered};
ghost use Rattle.quotient_writer.specs.Blocks.{block_line, block_text, first_state, first_states};

use std::alloc::{AllocError, Global};
use typing::Names;

/// For each state in order its name, a space, the name of the first state of its class, and a line
/// feed. `labels` has the number of the class for each state. The error is want of memory.
pub fn blocks_text(alloc: Global, names: &Names, labels: &[u32]) -> Result<Vec<u8>, AllocError>
    requires one_each { length labels.now ≡ length names.now }
    requires numbered { IsTrue (is_numbered labels.now) }
    ensures line_for_each { IfOk result (λ text.
        text.items ≡ block_text names.now (first_states labels.now)) }
{
    let states = names.len();
    let firsts = first_of_each(alloc, states, labels)?;
    let mut text = Vec::new(alloc);
    for i in 0..states {
        let first = firsts[labels[i as usize] as usize];
        push_line(&mut text, names.name(i), names.name(first))?;
    }
    Ok(text)
}

/// The first state of each class.
fn first_of_each(alloc: Global, states: u32, labels: &[u32]) -> Result<Vec<u32>, AllocError>
    requires one_each { length labels.now ≡ states }
    requires numbered { IsTrue (is_numbered labels.now) }
    ensures classes { IfOk result (λ firsts. EachIndex labels.now (λ i.
        slice_index labels.now i < length firsts.items)) }
    ensures first { IfOk result (λ firsts. EachIndex firsts.items (λ k.
        slice_index firsts.items k ≡ first_state labels.now k)) }
    ensures states { IfOk result (λ firsts. EachIndex firsts.items (λ k.
        slice_index firsts.items k < states)) }
{
    let mut firsts = Vec::new(alloc);
    for i in 0..states {
        if labels[i as usize] as usize == firsts.len() {
            firsts.push(i)?;
        }
    }
    Ok(firsts)
}

/// Puts the line of a state last.
fn push_line(text: &mut Vec<u8>, name: &[u8], class: &[u8]) -> Result<(), AllocError>
    ensures line_is_last { OnOk result (text.new.items
        ≡ text.old.items ++ block_line name.now class.now) }
{
    text.extend_from_slice(name)?;
    text.push(b' ')?;
    text.extend_from_slice(class)?;
    text.push(b'\n')?;
    Ok(())
}
