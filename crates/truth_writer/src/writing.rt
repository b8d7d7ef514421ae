//! The text that tells truths.

ghost use Rattle.std.specs.Prelude.{◌≡◌, ◌+◌, ◌<◌, [], length, map, replicate, IfOk, OnOk};
ghost use Rattle.std.specs.List.{All, concat};
ghost use Rattle.typing.specs.Contents.{content_of};
ghost use Rattle.satisfaction.specs.Satisfaction.{holds_at};
ghost use Rattle.truth_writer.specs.Truths.{texts_at, truths_text};

use crate::lines::Lines;
use evaluation::Evaluator;
use formulas::Dag;
use std::alloc::{AllocError, Global};
use typing::Coalgebra;

/// For each of the states, in order, the truth of each formula there. The words name the states.
/// The error is want of memory, and comes also where the values have 2^26 structures or edges, as
/// in no file.
pub fn truths_text(
    alloc: Global,
    c: &Coalgebra,
    dag: &Dag,
    words: &[&str],
    numbers: &[u32],
) -> Result<Vec<u8>, AllocError>
    requires one_each { length words.now ≡ length numbers.now }
    requires states { All (λ i. i < length c.now.values.items) numbers.now }
    ensures { IfOk result (λ text. text.items ≡ truths_text (holds_at (content_of c.now) dag.now)
        (length dag.now) (map (λ w. w.now) words.now) numbers.now) }
{
    let mut texts = no_lines(alloc, words.len())?;
    let mut evaluator = Evaluator::new(alloc, c, dag)?;
    for k in 0..dag.len() {
        evaluator.advance(c, dag)?;
        put_lines(&evaluator, k, words, numbers, texts.as_mut_slice())?;
    }
    joined(alloc, texts.as_slice())
}

/// So many texts without a line.
fn no_lines(alloc: Global, count: usize) -> Result<Vec<Lines>, AllocError>
    ensures none { IfOk result (λ texts. texts.items ≡ replicate count []) }
{
    let mut texts = Vec::with_capacity(alloc, count)?;
    for _ in 0..count {
        texts.push(Lines::new(alloc))?;
    }
    Ok(texts)
}

/// Puts a line last in the text of each state: the truth of formula k there, which was evaluated
/// last.
fn put_lines(
    evaluator: &Evaluator,
    k: u32,
    words: &[&str],
    numbers: &[u32],
    texts: &mut [Lines],
) -> Result<(), AllocError>
    requires evaluated { evaluator.now.next ≡ k + 1 }
    requires words { length words.now ≡ length texts.old }
    requires numbers { length numbers.now ≡ length texts.old }
    requires states { All (λ i. i < length evaluator.now.content.values) numbers.now }
    requires told { texts.old
        ≡ texts_at (holds_at evaluator.now.content evaluator.now.dag) k
        (map (λ w. w.now) words.now) numbers.now }
    ensures told { OnOk result (texts.new
        ≡ texts_at (holds_at evaluator.now.content evaluator.now.dag) (k + 1)
        (map (λ w. w.now) words.now) numbers.now) }
{
    for i in 0..texts.len() {
        texts[i].put(words[i], k, evaluator.holds(numbers[i]))?;
    }
    Ok(())
}

/// The texts behind one another.
fn joined(alloc: Global, texts: &[Lines]) -> Result<Vec<u8>, AllocError>
    ensures { IfOk result (λ text. text.items ≡ concat texts.now) }
{
    let mut text = Vec::new(alloc);
    for lines in texts {
        text.extend_from_slice(lines.as_slice())?;
    }
    Ok(text)
}
