//! Whether each formula holds at the states of its line alone: the third rule.
ghost use Rattle.std.specs.Prelude.{◌≡◌, ◌+◌, ◌-◌, ◌≤◌, ◌<◌, ◌^◌, ℕ, length, map, IfOk, IfSome, IsNone};
ghost use Rattle.std.specs.List.{All};
ghost use Rattle.std.specs.List.Sorted.{IsNonDecreasingBy};
ghost use Rattle.typing.specs.Contents.{content_of};
ghost use Rattle.satisfaction.specs.Satisfaction.{holds_at};
ghost use Rattle.answer_checker.specs.Truths.{AreCitations, AreRightBefore, IsWrongBy, IsFoundWrong, earlier as the_earlier};

use crate::verdict::Reason;
use evaluation::Evaluator;
use formula_text::BlockLine;
use formulas::Dag;
use std::alloc::{AllocError, Global};
use typing::Coalgebra;

/// A formula, and a block line that cites it, counted from 0.
#[derive(Clone, Copy, Debug)]
pub struct Citation {
    pub formula: u32,
    pub line: u32,
}

/// A block line whose formula is wrong, and the first state at which it is.
#[derive(Clone, Copy, Debug)]
pub struct WrongLine {
    pub formula: u32,
    pub line: u32,
    pub state: u32,
}

/// The citations of formulas, in the order of the formulas.
fn citations(alloc: Global, blocks: &[BlockLine]) -> Result<Vec<Citation>, AllocError>
    requires few { length blocks.now < 2 ^ 32 }
    ensures cited { IfOk result (λ found.
        AreCitations (map (λ b. b.formula) blocks.now) found.items) }
    ensures ascending { IfOk result (λ found. IsNonDecreasingBy (λ c. c.formula) found.items) }
{
    let mut found = Vec::with_capacity(alloc, blocks.len())?;
    let mut line = 0;
    for block in blocks {
        let formula = block.formula;
        found.push(Citation { formula, line })?;
        line += 1;
    }
    found.sort_unstable_by_key(|c| c.formula);
    Ok(found)
}

/// Evaluates formulas from the next one on, and formula f last.
fn evaluate_through(
    truths: &mut Evaluator,
    c: &Coalgebra,
    dag: &Dag,
    next: u32,
    f: u32,
) -> Result<(), AllocError>
    requires content { truths.old.content ≡ content_of c.now }
    requires dag { truths.old.dag ≡ dag.now }
    requires next { truths.old.next ≡ next }
    requires ahead { next ≤ f + 1 }
    requires there { f < length dag.now }
    ensures content { IfOk result (λ _. truths.new.content ≡ content_of c.now) }
    ensures dag { IfOk result (λ _. truths.new.dag ≡ dag.now) }
    ensures next { IfOk result (λ _. truths.new.next ≡ f + 1) }
{
    dag.is_dag();
    for _k in next..f + 1 {
        truths.advance(c, dag)?;
    }
    Ok(())
}

/// The first state at which the truth of the formula that was evaluated last does not say whether
/// the state has this line.
fn first_wrong_state(truths: &Evaluator, numbers: &[u32], line: u32) -> Option<u32>
    requires evaluated { 0 < truths.now.next }
    requires few { length numbers.now < 2 ^ 32 }
    requires one_each { length numbers.now ≡ length truths.now.content.values }
    ensures right { IsNone result →
        AreRightBefore (holds_at truths.now.content truths.now.dag) numbers.now
        (truths.now.next - 1) line (length numbers.now) }
    ensures wrong { IfSome result (λ x.
        IsWrongBy (holds_at truths.now.content truths.now.dag) numbers.now
        (truths.now.next - 1) line x) }
{
    for x in 0..numbers.len() {
        let stands = numbers[x] == line;
        if truths.holds(x as u32) != stands {
            return Some(x as u32);
        }
    }
    None
}

/// The earlier of two lines, where the second is wrong at a state.
fn earlier(found: Option<WrongLine>, other: WrongLine) -> Option<WrongLine>
    ensures { result ≡ the_earlier found other }
{
    match found {
        None => Some(other),
        Some(known) => {
            if other.line < known.line {
                Some(other)
            } else {
                Some(known)
            }
        }
    }
}

/// The first line whose formula does not hold at exactly the states that have its number.
pub(crate) fn first_wrong(
    alloc: Global,
    c: &Coalgebra,
    dag: &Dag,
    blocks: &[BlockLine],
    numbers: &[u32],
) -> Result<Option<Reason>, AllocError>
    requires few { length blocks.now < 2 ^ 32 }
    requires cited { All (λ b. b.formula < length dag.now) blocks.now }
    requires one_each { length numbers.now ≡ length c.now.names }
    ensures found { IfOk result (IsFoundWrong (holds_at (content_of c.now) dag.now) numbers.now
        (map (λ b. b.formula) blocks.now)) }
{
    let cited = citations(alloc, blocks)?;
    let mut truths = Evaluator::new(alloc, c, dag)?;
    let count = dag.len();
    let mut next = 0;
    let mut found = None;
    for citation in cited.as_slice() {
        let (formula, line) = (citation.formula, citation.line);
        evaluate_through(&mut truths, c, dag, next, formula)?;
        next = formula + 1;
        if let Some(state) = first_wrong_state(&truths, numbers, line) {
            let wrong = WrongLine {
                formula,
                line,
                state,
            };
            found = earlier(found, wrong);
        }
    }
    match found {
        None => Ok(None),
        Some(wrong) => Ok(Some(Reason::Wrong(wrong.formula, wrong.state))),
    }
}
