//! Laws of verdicts, each the contract of a function that does nothing.
ghost use Rattle.answer_checker.specs.Laws.{PassingAnswersAreRight, ThereIsOneVerdict, VerdictsLookAtTruthsAlone};

/// Block lines that pass the rules are a right answer, whoever made them.
pub fn passing_answers_are_right()
    ensures { PassingAnswersAreRight }
{}

/// No text has two verdicts.
pub fn there_is_one_verdict()
    ensures { ThereIsOneVerdict }
{}

/// The verdict on a text without a bad line is a function of the coalgebra, of the states of its
/// block lines, and of the numbers and truths of the formulas that they cite.
pub fn verdicts_look_at_truths_alone()
    ensures { VerdictsLookAtTruthsAlone }
{}
