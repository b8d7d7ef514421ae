//! The summary of a trial.
ghost use Rattle.std.specs.Prelude.{◌≡◌, ◌++◌, IfOk, OnOk};
ghost use Rattle.std.specs.Fmt.{decimal};
ghost use Rattle.answer_writer.specs.Summary.{class_count as the_class_count, kind_word as the_kind_word, summary_line, summary_text};

use crate::words::push_number;
use std::alloc::{AllocError, Global};
use trial_texts::TrialKind;

/// The word of the command line that names the kind.
fn kind_word(kind: TrialKind) -> &'static [u8]
    ensures { result.now ≡ the_kind_word kind }
{
    match kind {
        TrialKind::Lts => b"lts",
        TrialKind::Chain => b"chain",
        TrialKind::Sums => b"sums",
        TrialKind::Dfa => b"dfa",
    }
}

/// How many states are the first of their block.
fn class_count(firsts: &[u32]) -> u64
    ensures { result ≡ the_class_count firsts.now }
{
    let mut count = 0;
    for i in 0..firsts.len() {
        if firsts[i] as usize == i {
            count += 1;
        }
    }
    count
}

/// Puts a line with a number last.
fn push_count(text: &mut Vec<u8>, word: &[u8], n: u64) -> Result<(), AllocError>
    ensures line_is_last { OnOk result (text.new.items
        ≡ text.old.items ++ summary_line word.now (decimal n)) }
{
    text.extend_from_slice(word)?;
    text.push(b' ')?;
    push_number(text, n)?;
    text.push(b'\n')?;
    Ok(())
}

/// The summary of a trial of this kind: how many states it has and how many blocks, where for each
/// state the first state of its block is given; how many sorted states and edges there are, and how
/// many labels were looked at. The error is want of memory.
pub fn trial_summary(
    alloc: Global,
    kind: TrialKind,
    firsts: &[u32],
    sorted: u32,
    edges: u32,
    labels: u64,
) -> Result<Vec<u8>, AllocError>
    ensures lines { IfOk result (λ text. text.items
        ≡ summary_text kind firsts.now sorted edges labels) }
{
    let mut text = Vec::new(alloc);
    text.extend_from_slice(b"kind ")?;
    text.extend_from_slice(kind_word(kind))?;
    text.push(b'\n')?;
    push_count(&mut text, b"states", firsts.len() as u64)?;
    push_count(&mut text, b"blocks", class_count(firsts))?;
    push_count(&mut text, b"sorted", sorted as u64)?;
    push_count(&mut text, b"places", edges as u64)?;
    push_count(&mut text, b"labels", labels)?;
    Ok(text)
}
