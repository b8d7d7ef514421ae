//! The verdict on a text: its bad line, and else that of the three rules in turn.
ghost use Rattle.std.specs.Prelude.{◌≡◌, ◌≤◌, ◌<◌, ◌^◌, ℕ, List, length, IfOk};
ghost use Rattle.std.specs.List.{All};
ghost use Rattle.typing.specs.Contents.{content_of};
ghost use Rattle.satisfaction.specs.Satisfaction.{holds_at};
ghost use Rattle.formula_text.specs.Answers.{Answer, certificate_of};
ghost use Rattle.formula_text.specs.Reading.{IsTextOf};
ghost use Rattle.answer_checker.specs.BadLines.{is_unfit, least_line};
ghost use Rattle.answer_checker.specs.Verdicts.{IsJudged, IsVerdictOf, IsVerdict, IsRightIfYes, block_lines, lines_seen, IsReadable, IsRightWhenYes};

use crate::bad_lines::{least_misfit, least_stranger, lesser};
use crate::likeness::first_different;
use crate::places::{first_not_once, lines_at};
use crate::standing::places_in;
use crate::truths::first_wrong;
use crate::verdict::Verdict;
use formula_text::{AnswerText, BlockLine, DagFault, read_certificate};
use formulas::Dag;
use std::alloc::{AllocError, Global};
use typing::Coalgebra;

/// The verdict on an answer of at most 2^26 bytes, whoever made it. The error is want of memory.
pub fn verify(alloc: Global, c: &Coalgebra, answer: &[u8]) -> Result<Verdict, AllocError>
    requires { length answer.now ≤ 2 ^ 26 }
    ensures verdict { IfOk result (IsVerdict (content_of c.now) answer.now) }
    ensures yes_is_right { IfOk result (IsRightIfYes (content_of c.now) answer.now) }
{
    match read_certificate(alloc, answer) {
        Ok(text) => judge_text(alloc, c, &text),
        Err(DagFault::BadLine { line }) => Ok(Verdict::BadLine(line)),
        Err(DagFault::NoMemory) => Err(AllocError),
    }
}

/// The verdict on what was read of a text.
fn judge_text(alloc: Global, c: &Coalgebra, text: &AnswerText) -> Result<Verdict, AllocError>
    requires readable { IsReadable text.now }
    ensures verdict { IfOk result (λ v. (answers : List (ℕ × Answer)) →
        IsTextOf text.now answers → IsVerdictOf (content_of c.now) answers
        (least_line (is_unfit (content_of c.now)) answers) v) }
    ensures right { IfOk result (λ v. (answers : List (ℕ × Answer)) →
        IsTextOf text.now answers →
        IsRightWhenYes (content_of c.now) (block_lines (content_of c.now) answers) v) }
{
    let misfit = least_misfit(&c.term, &text.dag, text.lines.as_slice());
    let stranger = least_stranger(&c.names, text.blocks.as_slice());
    match lesser(misfit, stranger) {
        Some(line) => Ok(Verdict::BadLine(line)),
        None => judge(alloc, c, &text.dag, text.blocks.as_slice()),
    }
}

/// The verdict of the rules on block lines.
fn judge(
    alloc: Global,
    c: &Coalgebra,
    dag: &Dag,
    blocks: &[BlockLine],
) -> Result<Verdict, AllocError>
    requires few { length blocks.now < 2 ^ 32 }
    requires cited { All (λ b. b.formula < length dag.now) blocks.now }
    ensures verdict { IfOk result (IsJudged (content_of c.now)
        (holds_at (content_of c.now) dag.now) (lines_seen c.now.names blocks.now)) }
    ensures right { IfOk result (IsRightWhenYes (content_of c.now)
        (lines_seen c.now.names blocks.now)) }
{
    c.term.is_term();
    dag.is_dag();
    let places = places_in(alloc, &c.names, blocks)?;
    if let Some(reason) = first_not_once(places.as_slice()) {
        return Ok(Verdict::No(reason));
    }
    let numbers = lines_at(alloc, places.as_slice())?;
    if let Some(reason) = first_different(alloc, c, numbers.as_slice(), blocks.len())? {
        return Ok(Verdict::No(reason));
    }
    match first_wrong(alloc, c, dag, blocks, numbers.as_slice())? {
        Some(reason) => Ok(Verdict::No(reason)),
        None => Ok(Verdict::Yes),
    }
}
