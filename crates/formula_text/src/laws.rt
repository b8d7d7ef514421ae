//! Laws of texts, each the contract of a function that does nothing.
ghost use Rattle.formula_text.specs.Laws.{DagTextsAreRead, AnswerTextsAreRead, CertificateTextsAreRead, AnswerFormulasAreRead};
ghost use Rattle.formula_text.specs.Laws.{FormulasStandInFront, BlocksStandBehind, PairsAreNone};

/// The text of formulas that can be said by lines is read as these formulas.
pub fn dag_texts_are_read()
    ensures { DagTextsAreRead }
{}

/// The text of formulas that can be said by lines, of lines that can be said behind them, and of a
/// comment is read as these, also as a certificate where no line tells of a pair.
pub fn answer_texts_are_read()
    ensures answers { AnswerTextsAreRead }
    ensures certificates { CertificateTextsAreRead }
    ensures formulas { AnswerFormulasAreRead }
{}

/// What the answers of such a text have: the formulas in front, the blocks behind them, and no pair
/// where no line tells of one.
pub fn answers_have_formulas_and_blocks()
    ensures formulas { FormulasStandInFront }
    ensures blocks { BlocksStandBehind }
    ensures no_pair { PairsAreNone }
{}
