//! The formulas of an answer.
ghost use Rattle.std.specs.Prelude.{◌≡◌, ◌≤◌, ◌^◌, length, None, Ok, IfOk, IfErr};
ghost use Rattle.satisfaction.specs.Modalities.{AllFit};
ghost use Rattle.formula_text.specs.Answers.{dag_of};
ghost use Rattle.answer_checker.specs.BadLines.{bad_formula_line};
ghost use Rattle.answer_checker.specs.Verdicts.{TellsBadFormula};

use crate::bad_lines::least_misfit;
use crate::fault::AnswerFault;
use formula_text::{DagFault, read_answers};
use formulas::Dag;
use functor_terms::Term;
use std::alloc::Global;

/// The formulas of a text of at most 2^26 bytes, which may have all four kinds of line. A line that
/// is none of them is told, the first one, or else the first whose modality does not fit the term.
pub fn read_formulas(alloc: Global, term: &Term, bytes: &[u8]) -> Result<Dag, AnswerFault>
    requires { length bytes.now ≤ 2 ^ 26 }
    ensures good { IfOk result (λ dag. dag_of bytes.now ≡ Ok dag) }
    ensures fitting { IfOk result (AllFit term.now) }
    ensures clear { IfOk result (λ _. bad_formula_line term.now bytes.now ≡ None) }
    ensures bad { IfErr result (TellsBadFormula term.now bytes.now) }
{
    match read_answers(alloc, bytes) {
        Ok(text) => match least_misfit(term, &text.dag, text.lines.as_slice()) {
            None => Ok(text.dag),
            Some(line) => Err(AnswerFault::BadLine { line }),
        },
        Err(DagFault::BadLine { line }) => Err(AnswerFault::BadLine { line }),
        Err(DagFault::NoMemory) => Err(AnswerFault::NoMemory),
    }
}
