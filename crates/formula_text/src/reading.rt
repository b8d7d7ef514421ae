//! Lines of answers, read.
ghost use Rattle.std.specs.Prelude.{◌≡◌, ◌<◌, ◌≤◌, ◌+◌, ◌^◌, [], ◌∷◌, ◌++◌, length, map, Some, Err, MatchResult, IfOk, IfErr, OnOk};
ghost use Rattle.std.specs.List.{AllByRecursion};
ghost use Rattle.formula_text.specs.Answers.{answer_of, parts_of, answers_of, certificate_of, taken, taken_from};
ghost use Rattle.formula_text.specs.Reading.{GivesText, TellsBad, IsPut, IsBadHere, pair_or, first_pair};
ghost use Rattle.formula_text.specs.Said.{answer_in, CitesEarlier};

use crate::answer::{AnswerText, BlockLine};
use crate::fault::DagFault;
use crate::pieces::parts;
use crate::said::{Said, said_by, taken_said};
use file_cut::{Line, LineIter, lines};
use formulas::Dag;
use std::alloc::{AllocError, Global};

/// What the lines of a text say, at most 2^26 bytes. A line that is none of the forms is told, the
/// first of them; the other fault is want of memory.
pub fn read_answers<'a>(alloc: Global, bytes: &'a [u8]) -> Result<AnswerText<'a>, DagFault>
    requires { length bytes.now ≤ 2 ^ 26 }
    ensures good { IfOk result (λ t. GivesText t (answers_of bytes.now)) }
    ensures bad { IfErr result (λ fault. TellsBad fault (answers_of bytes.now)) }
{
    let found = lines(bytes);
    read_lines(alloc, true, found)
}

/// As `read_answers`, for formula and block lines alone: a line of a pair is a bad line.
pub fn read_certificate<'a>(alloc: Global, bytes: &'a [u8]) -> Result<AnswerText<'a>, DagFault>
    requires { length bytes.now ≤ 2 ^ 26 }
    ensures good { IfOk result (λ t. GivesText t (certificate_of bytes.now)) }
    ensures bad { IfErr result (λ fault. TellsBad fault (certificate_of bytes.now)) }
{
    let found = lines(bytes);
    read_lines(alloc, false, found)
}

/// What lines say, where lines of pairs are taken or bad.
fn read_lines<'a>(
    alloc: Global,
    pairs: bool,
    found: LineIter<'a>,
) -> Result<AnswerText<'a>, DagFault>
    requires { length found ≤ 2 ^ 26 }
    ensures good { IfOk result (λ t. GivesText t (taken_from pairs 0 found.entry)) }
    ensures bad { IfErr result (λ fault. TellsBad fault (taken_from pairs 0 found.entry)) }
{
    let mut text = AnswerText {
        dag: Dag::new(alloc),
        lines: Vec::new(alloc),
        blocks: Vec::new(alloc),
        pair: None,
    };
    'lines: for line in found {
        let here = said_of(alloc, pairs, text.dag.len(), line)?;
        put(&mut text, line.number, here)?;
    }
    Ok(text)
}

/// What a line says behind k formulas, where lines of pairs are taken or bad.
fn said_of<'a>(alloc: Global, pairs: bool, k: u32, line: Line<'a>) -> Result<Said<'a>, DagFault>
    ensures said { IfOk result (λ said.
        taken pairs (answer_of k (parts_of line.entry.text.now)) ≡ Some (answer_in said)) }
    ensures cites { IfOk result (CitesEarlier k) }
    ensures bad { IfErr result (λ fault.
        IsBadHere fault line.entry.number
        (taken pairs (answer_of k (parts_of line.entry.text.now)))) }
{
    let found = parts(alloc, line.text)?;
    let said = said_by(alloc, k, found.as_slice())?;
    match taken_said(pairs, said) {
        Some(said) => Ok(said),
        None => Err(DagFault::BadLine { line: line.number }),
    }
}

/// Puts what a line says last.
fn put<'a>(text: &mut AnswerText<'a>, line: u32, said: Said<'a>) -> Result<(), AllocError>
    requires cites { CitesEarlier (length text.old.dag) said }
    requires room { length text.old.dag + 1 < 2 ^ 32 }
    ensures put { OnOk result (IsPut line (answer_in said.entry) text.old text.new) }
{
    match said {
        Said::Defines(f) => {
            text.dag.push(f)?;
            text.lines.push(line)?;
        }
        Said::Block(formula, names) => {
            let block = BlockLine {
                line,
                formula,
                names,
            };
            text.blocks.push(block)?;
        }
        Said::Separates(_, _, _) => text.pair = Some(text.pair.unwrap_or(line)),
        Said::Equivalent(_, _) => text.pair = Some(text.pair.unwrap_or(line)),
    }
    Ok(())
}
