//! The line of statistics.
ghost use Rattle.std.specs.Prelude.{◌≡◌, IfOk};
ghost use Rattle.answer_writer.specs.Stats.{stats_text};

use crate::words::push_number;
use std::alloc::{AllocError, Global};

/// The line of statistics: how many sorted states and edges there are, and how many labels were
/// looked at. It is a comment in every format. The error is want of memory.
pub fn stats_line(
    alloc: Global,
    sorted: u32,
    edges: u32,
    labels: u64,
) -> Result<Vec<u8>, AllocError>
    ensures line { IfOk result (λ text. text.items ≡ stats_text sorted edges labels) }
{
    let mut text = Vec::new(alloc);
    text.extend_from_slice(b"# sorted ")?;
    push_number(&mut text, sorted as u64)?;
    text.extend_from_slice(b" places ")?;
    push_number(&mut text, edges as u64)?;
    text.extend_from_slice(b" labels ")?;
    push_number(&mut text, labels)?;
    text.push(b'\n')?;
    Ok(text)
}
